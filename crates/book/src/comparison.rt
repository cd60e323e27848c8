// Two books side by side.
ghost use Rattle.std.specs.Prelude.{◌≡◌, ◌==◌};
ghost use Rattle.margin.specs.Meaning.{meaning};
ghost use Rattle.ledger.specs.Runs.{Kept};
ghost use Rattle.book.specs.Book.{tables_of};
ghost use Rattle.book.specs.Compared.{EqualWhereSame};

use crate::Book;
use margin::scale::{CombinationScale, LegScale};

impl Book {
    // Whether another book has the same balance. It does where the two are the same but for rows and numbers, over scales of one
    // meaning, whatever their calls were.
    pub fn same_balance<S: CombinationScale, T: CombinationScale>(
        &self,
        scale: &S,
        other: &Book,
        other_scale: &T,
    ) -> bool
        requires its_scale { Kept (meaning S.LegScale.leg_of S.CombinationScale.pair_of scale.now) (tables_of self.now) }
        requires others_scale { Kept (meaning T.LegScale.leg_of T.CombinationScale.pair_of other_scale.now) (tables_of other.now) }
        ensures answer { result ≡ ((tables_of self.now).funds.balance == (tables_of other.now).funds.balance) }
        ensures law { EqualWhereSame (meaning S.LegScale.leg_of S.CombinationScale.pair_of scale.now) (tables_of self.now) (meaning T.LegScale.leg_of T.CombinationScale.pair_of other_scale.now) (tables_of other.now) result }
    {
        self.tables.funds.balance == other.tables.funds.balance
    }
}
