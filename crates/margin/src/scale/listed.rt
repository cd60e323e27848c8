// The listed scale: each contract's listed margin, and the combination rules over those.
ghost use Rattle.margin.specs.Meaning.{listed_meaning};
ghost use Rattle.std.proofs.Common.{rules, arith};
ghost use Rattle.margin.specs.Legs.{listed_leg};
ghost use Rattle.margin.specs.Bounds.{listed_leg_le, pair_margin_le};

use super::combination::pair_margin;
use super::{CombinationScale, HAO_PER_FEN, LegScale};
use crate::contract::Contract;
use crate::pair::FittedPair;

#[derive(Clone, Copy)]
pub struct ListedScale;

impl LegScale for ListedScale {
    ghost leg_of = { λ s. listed_meaning.leg };

    ghost leg_whole_fen = { Prim.search rules };

    ghost leg_at_most = { Prim.search rules };

    fn leg(&self, contract: &Contract) -> u64 {
        HAO_PER_FEN * u64::from(contract.listed_margin)
    }
}

// The standard scale's text again, since a default of `pair_of` cannot name `leg_of`, and one impl for all leg scales would overlap
// the raised scale's, which Rust refuses.
impl CombinationScale for ListedScale {
    ghost pair_of = { λ s. listed_meaning.pair };

    ghost pair_whole_fen = { Prim.search rules };

    ghost pair_at_most = { λ s k a b fitted. pair_margin_le listed_leg (λ c. omega (arith, listed_leg_le c)) k a b };

    fn pair(&self, pair: &FittedPair) -> u64 {
        pair_margin(self, pair)
    }
}
