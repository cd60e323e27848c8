// The day's settings, as their record has them.
pub(crate) mod parse;
