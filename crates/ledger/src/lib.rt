// What a book keeps, the calls that it takes, and the ledger of accepted calls beside it.
#![tactic(auto)]

pub mod call;
pub mod keeps;
pub mod order;
pub mod refusal;
pub mod settings;
pub mod tables;
