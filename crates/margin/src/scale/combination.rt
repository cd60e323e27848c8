// The combination rules: a pair's margin from the leg margins of any leg scale.
ghost use Rattle.std.specs.Prelude.{◌≡◌, ◌*◌, ◌^◌, ◌≤◌};
ghost use Rattle.margin.specs.Pairs.{lower_leg_settlement, straddle_margin, raw_margin, pair_margin};

use super::{HAO_PER_FEN, LegScale};
use crate::contract::Contract;
use crate::pair::FittedPair;
use crate::strategy::Strategy;
use std::cmp::Ordering;

// A price over all units of a lot.
fn lot_of(price: u32, contract: &Contract) -> u64
    requires { price ≤ 10 ^ 7 }
    ensures is { result ≡ price * contract.now.unit }
    ensures at_most { result ≤ 10 ^ 13 }
{
    u64::from(price) * u64::from(contract.unit)
}

// A leg of a pair, and the margin of one written lot of it.
#[derive(Clone, Copy)]
struct Leg<'a> {
    contract: &'a Contract,
    margin: u64,
    ghost at_most: { margin ≤ 10 ^ 14 },
}

impl<'a> Leg<'a> {
    fn of<L: LegScale>(legs: &L, contract: &'a Contract) -> Leg<'a>
        ensures contract { result.contract.now ≡ contract.now }
        ensures margin { result.margin ≡ L.leg_of legs.now contract.now }
    {
        Leg {
            contract,
            margin: legs.leg(contract),
        }
    }
}

// The settlement of the leg with the lower leg margin; where they are equal, the larger settlement.
fn lower_leg_settlement(first: &Leg, second: &Leg) -> u32
    ensures is { result ≡ lower_leg_settlement first.now.contract.now second.now.contract.now first.now.margin second.now.margin }
    ensures at_most { result ≤ 10 ^ 7 }
{
    match first.margin.cmp(&second.margin) {
        Ordering::Less => first.contract.settlement,
        Ordering::Greater => second.contract.settlement,
        Ordering::Equal => first.contract.settlement.max(second.contract.settlement),
    }
}

// The larger leg margin, and one lot of the lower leg's settlement.
fn straddle_margin(first: &Leg, second: &Leg) -> u64
    ensures is { result ≡ straddle_margin first.now.contract.now second.now.contract.now first.now.margin second.now.margin }
    ensures at_most { result ≤ 2 * 10 ^ 14 }
{
    let settlement = lower_leg_settlement(first, second);
    first.margin.max(second.margin) + lot_of(settlement, first.contract)
}

// The pair's margin before it is rounded, from the margins of its legs.
fn raw_margin<L: LegScale>(legs: &L, pair: &FittedPair) -> u64
    ensures is { result ≡ raw_margin pair.now.strategy pair.now.first pair.now.second (L.leg_of legs.now pair.now.first) (L.leg_of legs.now pair.now.second) }
    ensures at_most { result ≤ 2 * 10 ^ 14 }
{
    let FittedPair {
        strategy,
        first,
        second,
    } = pair;
    match strategy {
        Strategy::BullCallSpread | Strategy::BearPutSpread => 0,
        Strategy::BearCallSpread => lot_of(first.strike - second.strike, first),
        Strategy::BullPutSpread => lot_of(second.strike - first.strike, first),
        Strategy::ShortStraddle | Strategy::ShortStrangle => {
            straddle_margin(&Leg::of(legs, first), &Leg::of(legs, second))
        }
    }
}

// The margin of one lot of the pair by the combination rules over these leg margins.
pub fn pair_margin<L: LegScale>(legs: &L, pair: &FittedPair) -> u64
    ensures { result ≡ pair_margin (L.leg_of legs.now) pair.now.strategy pair.now.first pair.now.second }
{
    HAO_PER_FEN * ((raw_margin(legs, pair) + HAO_PER_FEN / 2) / HAO_PER_FEN)
}
