// What a fitted pair's legs ask by themselves, and what pairing them frees. In hao.
ghost use Rattle.std.specs.Prelude.{◌≡◌};
ghost use Rattle.margin.specs.Pairs.{legs_sum};
ghost use Rattle.margin.specs.Meaning.{meaning, relief};

use super::FittedPair;
use crate::scale::{CombinationScale, LegScale};

impl FittedPair {
    // The leg margins of the written legs.
    pub fn legs_sum<L: LegScale>(&self, scale: &L) -> u64
        ensures { result ≡ legs_sum (L.leg_of scale.now) self.now.strategy self.now.first self.now.second }
    {
        let second = scale.leg(&self.second);
        if self.strategy.first_written() {
            scale.leg(&self.first) + second
        } else {
            second
        }
    }

    // The legs' sum less the pair margin; below nought where the pair margin is the larger.
    pub fn relief<S: CombinationScale>(&self, scale: &S) -> i64
        ensures { result ≡ relief (meaning S.LegScale.leg_of S.pair_of scale.now) self.now.strategy self.now.first self.now.second }
    {
        self.legs_sum(scale) as i64 - scale.pair(self) as i64
    }
}
