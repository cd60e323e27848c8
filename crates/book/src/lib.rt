// The intraday margin book.
#![tactic(auto)]

mod amounts;
pub mod calls;
pub mod cash;
pub mod combinations;
pub mod comparison;
pub mod fills;
mod moves;
pub mod opening;
pub mod orders;
mod parts;
mod positions;
pub mod questions;

use ledger::tables::Tables;

// One balance for eight accounts. A book comes only from `open` and the calls made on it.
// A book holds no scale: each call is handed it, and so asks that it is the one that the book is kept by.
#[derive(Drop)]
pub struct Book {
    tables: Tables,
}
