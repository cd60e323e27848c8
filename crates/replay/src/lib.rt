// From the bytes of a day file to a report: an opening line, a line for each call, an end line.
#![tactic(auto)]

pub mod failure;
pub mod play;
pub mod report;
#[cfg(test)]
mod tests;
pub mod text;
