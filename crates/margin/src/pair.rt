// Two contracts that a strategy combines.
ghost use Rattle.std.specs.Prelude.{◌≡◌, true};
ghost use Rattle.margin.specs.Fits.{fits};

use crate::contract::Contract;
use crate::strategy::Strategy;

pub mod fit;
pub mod relief;

// It exists only where the contracts fit the strategy.
#[derive(Clone, Copy)]
pub struct FittedPair {
    pub strategy: Strategy,
    pub first: Contract,
    pub second: Contract,
    ghost fitted: { fits strategy first second ≡ true },
}
