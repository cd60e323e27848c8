// Option contracts, the day's listing of them, strategies over two of them, and margin scales.
#![tactic(auto)]

pub mod contract;
pub mod figures;
pub mod listing;
pub mod number;
pub mod pair;
pub mod percent;
pub mod scale;
pub mod strategy;
#[cfg(test)]
mod tests;
