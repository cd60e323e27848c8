// Fitting two contracts to a strategy.
ghost use Rattle.std.specs.Prelude.{◌≡◌};
ghost use Rattle.margin.specs.Fits.{alike, rights_fit, strikes_fit, fits};
ghost use Rattle.margin.specs.FittedPairs.{Fitting};

use super::FittedPair;
use crate::contract::{Contract, Right};
use crate::strategy::Strategy;

// Whether the contracts share underlying, expiry and unit.
fn alike(first: &Contract, second: &Contract) -> bool
    ensures { result ≡ alike first.now second.now }
{
    first.underlying == second.underlying
        && first.expiry == second.expiry
        && first.unit == second.unit
}

// Whether the legs have the rights that the strategy asks.
fn rights_fitting(strategy: Strategy, first: Right, second: Right) -> bool
    ensures { result ≡ rights_fit strategy first second }
{
    match strategy {
        Strategy::BullCallSpread | Strategy::BearCallSpread => {
            matches!((first, second), (Right::Call, Right::Call))
        }
        Strategy::BullPutSpread | Strategy::BearPutSpread => {
            matches!((first, second), (Right::Put, Right::Put))
        }
        Strategy::ShortStraddle | Strategy::ShortStrangle => {
            matches!((first, second), (Right::Call, Right::Put))
        }
    }
}

// Whether the strikes stand as the strategy asks.
fn strikes_fitting(strategy: Strategy, first: u32, second: u32) -> bool
    ensures { result ≡ strikes_fit strategy first second }
{
    match strategy {
        Strategy::BullCallSpread | Strategy::BullPutSpread => first < second,
        Strategy::BearCallSpread | Strategy::BearPutSpread => second < first,
        Strategy::ShortStraddle => first == second,
        Strategy::ShortStrangle => second < first,
    }
}

fn fitting(strategy: Strategy, first: &Contract, second: &Contract) -> bool
    ensures { result ≡ fits strategy first.now second.now }
{
    alike(first, second)
        && rights_fitting(strategy, first.right, second.right)
        && strikes_fitting(strategy, first.strike, second.strike)
}

impl FittedPair {
    // The pair of these contracts where they fit the strategy.
    pub fn fit(strategy: Strategy, first: &Contract, second: &Contract) -> Option<FittedPair>
        ensures { Fitting strategy first.now second.now result }
    {
        if !fitting(strategy, first, second) {
            return None;
        }
        Some(FittedPair {
            strategy,
            first: *first,
            second: *second,
        })
    }
}
