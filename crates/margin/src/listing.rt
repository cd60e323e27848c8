// The contracts of a day: 1 to 64, codes rising, one kind and one close for each underlying.
ghost use Rattle.std.specs.Prelude.{◌≡◌, ◌≤◌, true, [], map, length, take};
ghost use Rattle.margin.specs.Terms.{terms_of};
ghost use Rattle.margin.specs.Listed.{rising_from, agreeing_after};

use crate::contract::Contract;

pub mod methods;

// The listed contracts stand first in the table; what stands behind them is not listed. A table and a count, since nothing here
// allocates, and the library's vector of fixed room asks for a default contract and cannot be copied, as a listing can.
#[derive(Clone, Copy)]
pub struct Listing {
    contracts: [Contract; 64],
    count: usize,
    ghost table: { length contracts ≡ 64 },
    ghost counted: { (1 ≤ count) × (count ≤ 64) },
    ghost rising: { rising_from 0 (map terms_of (take count contracts)) ≡ true },
    ghost agreeing: { agreeing_after [] (map terms_of (take count contracts)) ≡ true },
}

// The contracts that a listing has room for.
pub const MOST_CONTRACTS: usize = 64;

// A listed contract, with its place in the listing from 0.
#[derive(Clone, Copy)]
pub struct Listed {
    pub place: usize,
    pub contract: Contract,
}

// Why a contract does not join a listing.
#[derive(Clone, Copy, PartialEq, Eq)]
pub enum ListingFault {
    Full,
    CodeOrder,
    UnderlyingClash,
}
