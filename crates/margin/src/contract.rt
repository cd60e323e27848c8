// A listed option contract. It exists only with every field in its range.
ghost use Rattle.std.specs.Prelude.{◌≤◌};

// In hao. It bounds strikes, settlements and closes, and the limits and prices of calls.
pub const HIGHEST_PRICE: u64 = 10_000_000;

#[derive(Clone, Copy, PartialEq, Eq)]
pub enum Right {
    Call = 1,
    Put = 2,
}

#[derive(Clone, Copy, PartialEq, Eq)]
pub enum Kind {
    Stock = 1,
    Fund = 2,
}

// Prices are whole hao (0.0001 yuan), the listed margin is whole fen (100 hao), expiry is a trading-day number.
#[derive(Clone, Copy)]
pub struct Contract {
    pub code: u32,
    pub underlying: u32,
    pub expiry: u16,
    pub right: Right,
    pub kind: Kind,
    pub unit: u32,
    pub strike: u32,
    pub settlement: u32,
    pub underlying_close: u32,
    pub listed_margin: u32,
    ghost code_in_range: { (10000000 ≤ code) × (code ≤ 99999999) },
    ghost underlying_in_range: { (1 ≤ underlying) × (underlying ≤ 999999) },
    ghost expiry_in_range: { (1 ≤ expiry) × (expiry ≤ 65535) },
    ghost unit_in_range: { (1 ≤ unit) × (unit ≤ 1000000) },
    ghost strike_in_range: { (1 ≤ strike) × (strike ≤ 10000000) },
    ghost settlement_in_range: { (1 ≤ settlement) × (settlement ≤ 10000000) },
    ghost close_in_range: { (1 ≤ underlying_close) × (underlying_close ≤ 10000000) },
    ghost listed_margin_in_range: { listed_margin ≤ 4294967295 },
}
