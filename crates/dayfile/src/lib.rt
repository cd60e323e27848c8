// The packed day file: a reader over the caller's bytes, its faults, and what a sound file says.
#![tactic(auto)]

pub mod bytes;
pub mod call;
pub mod contracts;
pub mod fault;
pub mod field;
pub mod file;
pub mod record;
pub mod sections;
pub mod settings;
pub mod text;
