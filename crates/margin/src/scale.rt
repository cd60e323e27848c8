// What a margin scale answers: the margin of one written lot of a contract, and of one lot of a fitted pair. Margins are in hao.
ghost use Rattle.std.specs.Prelude.{◌≡◌, ℕ, ◌%◌, ◌^◌, ◌≤◌, true};
ghost use Rattle.margin.specs.Fits.{fits};
ghost use Rattle.margin.specs.declared.contract.Contract.{Contract};
ghost use Rattle.margin.specs.declared.strategy.Strategy.{Strategy};

use crate::contract::Contract;
use crate::pair::FittedPair;

pub mod combination;
pub mod listed;
pub mod raised;
pub mod standard;

const HAO_PER_FEN: u64 = 100;

// A leg margin for each contract: a whole number of fen, at most 10^14 hao.
pub trait LegScale {
    ghost leg_of: { Self → Contract → ℕ };

    // The margin of one written lot.
    fn leg(&self, contract: &Contract) -> u64
        ensures { result ≡ leg_of self.now contract.now };

    ghost leg_whole_fen: { (s : Self) (c : Contract) → leg_of s c % 100 ≡ 0 };

    ghost leg_at_most: { (s : Self) (c : Contract) → leg_of s c ≤ 10 ^ 14 };
}

// A pair margin for each strategy and the contracts that fit it, within the same bounds.
pub trait CombinationScale: LegScale {
    ghost pair_of: { Self → Strategy → Contract → Contract → ℕ };

    // The margin of one lot of the pair.
    fn pair(&self, pair: &FittedPair) -> u64
        ensures { result ≡ pair_of self.now pair.now.strategy pair.now.first pair.now.second };

    ghost pair_whole_fen: { (s : Self) (k : Strategy) (a b : Contract) → fits k a b ≡ true → pair_of s k a b % 100 ≡ 0 };

    ghost pair_at_most: { (s : Self) (k : Strategy) (a b : Contract) → fits k a b ≡ true → pair_of s k a b ≤ 10 ^ 14 };
}
