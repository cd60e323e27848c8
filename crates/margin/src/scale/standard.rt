// The standard scale: margins from the contract's prices.
ghost use Rattle.std.specs.Prelude.{◌≡◌};
ghost use Rattle.margin.specs.Meaning.{standard_meaning};
ghost use Rattle.margin.specs.Legs.{close_percent, floor_percent, out_of_the_money, underlying_risk, margin_per_unit, standard_leg};
ghost use Rattle.std.proofs.Common.{arith, rules};
ghost use Rattle.margin.specs.Bounds.{standard_leg_le, pair_margin_le};

use super::combination::pair_margin;
use super::{CombinationScale, HAO_PER_FEN, LegScale};
use crate::contract::{Contract, Kind, Right};
use crate::pair::FittedPair;

// A percentage of a price in hao is that many hundredths of a hao.
const HUNDREDTHS_PER_HAO: u64 = 100;

const HUNDREDTHS_PER_FEN: u64 = 10_000;

#[derive(Clone, Copy)]
pub struct StandardScale;

// The percentage of the underlying's close that is asked.
fn close_percent(kind: Kind, right: Right) -> u64
    ensures { result ≡ close_percent kind right }
{
    match (kind, right) {
        (Kind::Stock, Right::Call) => 21,
        (Kind::Stock, Right::Put) => 19,
        (Kind::Fund, _) => 12,
    }
}

// The percentage that is asked at least.
fn floor_percent(kind: Kind) -> u64
    ensures { result ≡ floor_percent kind }
{
    match kind {
        Kind::Stock => 10,
        Kind::Fund => 7,
    }
}

// How far the option is out of the money, in hao.
fn out_of_the_money(contract: &Contract) -> u64
    ensures { result ≡ out_of_the_money contract.now }
{
    let strike = u64::from(contract.strike);
    let close = u64::from(contract.underlying_close);
    match contract.right {
        Right::Call => strike.saturating_sub(close),
        Right::Put => close.saturating_sub(strike),
    }
}

// The percentage of the close less the out-of-the-money amount, at least the floor, in hundredths of a hao.
fn underlying_risk(contract: &Contract) -> u64
    ensures { result ≡ underlying_risk contract.now }
{
    let close = u64::from(contract.underlying_close);
    let asked = close_percent(contract.kind, contract.right) * close;
    let floor_price = match contract.right {
        Right::Call => close,
        Right::Put => u64::from(contract.strike),
    };
    asked
        .saturating_sub(HUNDREDTHS_PER_HAO * out_of_the_money(contract))
        .max(floor_percent(contract.kind) * floor_price)
}

// The settlement and the risk on the underlying, a put's at most its strike, in hundredths of a hao.
fn margin_per_unit(contract: &Contract) -> u64
    ensures { result ≡ margin_per_unit contract.now }
{
    let settlement = HUNDREDTHS_PER_HAO * u64::from(contract.settlement);
    let margin = settlement + underlying_risk(contract);
    match contract.right {
        Right::Call => margin,
        Right::Put => margin.min(HUNDREDTHS_PER_HAO * u64::from(contract.strike)),
    }
}

impl LegScale for StandardScale {
    ghost leg_of = { λ s. standard_meaning.leg };

    ghost leg_whole_fen = { Prim.search rules };

    ghost leg_at_most = { λ s c. omega (arith, standard_leg_le c) };

    fn leg(&self, contract: &Contract) -> u64 {
        let lot = margin_per_unit(contract) * u64::from(contract.unit);
        HAO_PER_FEN * ((lot + HUNDREDTHS_PER_FEN / 2) / HUNDREDTHS_PER_FEN)
    }
}

impl CombinationScale for StandardScale {
    ghost pair_of = { λ s. standard_meaning.pair };

    ghost pair_whole_fen = { Prim.search rules };

    ghost pair_at_most = { λ s k a b fitted. pair_margin_le standard_leg (λ c. omega (arith, standard_leg_le c)) k a b };

    fn pair(&self, pair: &FittedPair) -> u64 {
        pair_margin(self, pair)
    }
}
