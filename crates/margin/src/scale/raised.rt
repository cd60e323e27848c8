// The raised scale: every margin of another scale, more by a percentage.
ghost use Rattle.std.specs.Prelude.{◌≡◌, ◌^◌, ◌≤◌};
ghost use Rattle.margin.specs.Meaning.{meaning, raised_meaning};
ghost use Rattle.margin.specs.Raise.{raised};
ghost use Rattle.std.proofs.Common.{rules};

use super::{CombinationScale, HAO_PER_FEN, LegScale};
use crate::contract::Contract;
use crate::pair::FittedPair;
use crate::percent::Percent;

// No raised margin passes this, in fen.
const MOST_FEN: u64 = 1_000_000_000_000;

const HUNDRED_PERCENT: u64 = 100;

#[derive(Clone, Copy, Drop)]
pub struct RaisedScale<S> {
    pub base: S,
    pub percent: Percent,
}

// A margin of whole fen, raised and rounded half up to whole fen.
fn raise(margin: u64, percent: Percent) -> u64
    requires { margin ≤ 10 ^ 14 }
    ensures { result ≡ raised percent.value margin }
{
    let fen = margin / HAO_PER_FEN;
    let whole = HUNDRED_PERCENT + u64::from(percent.value);
    let more = (fen * whole + HUNDRED_PERCENT / 2) / HUNDRED_PERCENT;
    HAO_PER_FEN * more.min(MOST_FEN)
}

impl<S: CombinationScale> LegScale for RaisedScale<S> {
    ghost leg_of = { λ s. (raised_meaning s.percent.value (meaning S.LegScale.leg_of S.CombinationScale.pair_of s.base)).leg };

    ghost leg_whole_fen = { Prim.search rules };

    ghost leg_at_most = { Prim.search rules };

    fn leg(&self, contract: &Contract) -> u64 {
        raise(self.base.leg(contract), self.percent)
    }
}

impl<S: CombinationScale> CombinationScale for RaisedScale<S> {
    ghost pair_of = { λ s. (raised_meaning s.percent.value (meaning S.LegScale.leg_of S.CombinationScale.pair_of s.base)).pair };

    ghost pair_whole_fen = { Prim.search rules };

    ghost pair_at_most = { Prim.search rules };

    fn pair(&self, pair: &FittedPair) -> u64 {
        raise(self.base.pair(pair), self.percent)
    }
}
