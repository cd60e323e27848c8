// Calls as values, made on the book: one, or a list of them.
ghost use Rattle.margin.specs.Meaning.{meaning};
ghost use Rattle.ledger.specs.Runs.{Kept, ByTheRules};
ghost use Rattle.ledger.specs.Keeps.{KeptBy};
ghost use Rattle.book.specs.Book.{tables_of};
ghost use Rattle.book.specs.Played.{Played};

use crate::Book;
use ledger::call::Call;
use ledger::refusal::Refusal;
use margin::scale::CombinationScale;

impl Book {
    // Makes a call: the one of the eleven that it names. A match, since the calls are a closed enum, each with fields of its own.
    // By rule a call's answer is two numbers together, and the one that it gives is 0 where it gives none, so it is no Option.
    pub fn apply<S: CombinationScale>(
        &mut self,
        scale: &S,
        call: Call,
    ) -> Result<(u32, u64), Refusal>
        requires its_scale { Kept (meaning S.LegScale.leg_of S.CombinationScale.pair_of scale.now) (tables_of self.old) }
        ensures answer { ByTheRules (meaning S.LegScale.leg_of S.CombinationScale.pair_of scale.now) (tables_of self.old) call result (tables_of self.new) }
        ensures law { KeptBy (meaning S.LegScale.leg_of S.CombinationScale.pair_of scale.now) (tables_of self.old) call result (tables_of self.new) }
    {
        match call {
            Call::Deposit { amount } => self.deposit(scale, amount),
            Call::Withdraw { amount } => self.withdraw(scale, amount),
            Call::SellOpen {
                account,
                contract,
                lots,
                limit,
            } => self.sell_open(scale, account, contract, lots, limit),
            Call::BuyOpen {
                account,
                contract,
                lots,
                limit,
            } => self.buy_open(scale, account, contract, lots, limit),
            Call::BuyClose {
                account,
                contract,
                lots,
                limit,
            } => self.buy_close(scale, account, contract, lots, limit),
            Call::SellClose {
                account,
                contract,
                lots,
                limit,
            } => self.sell_close(scale, account, contract, lots, limit),
            Call::LegClose {
                combination,
                leg,
                lots,
                limit,
            } => self.leg_close(scale, combination, leg, lots, limit),
            Call::Fill { order, lots, price } => self.fill(scale, order, lots, price),
            Call::Cancel { order } => self.cancel(scale, order),
            Call::Combine {
                account,
                strategy,
                first,
                second,
                lots,
            } => self.combine(scale, account, strategy, first, second, lots),
            Call::Release { combination, lots } => self.release(scale, combination, lots),
        }
    }

    // Makes every call of a list, one after the other.
    pub fn run<S: CombinationScale>(&mut self, scale: &S, calls: &[Call])
        requires its_scale { Kept (meaning S.LegScale.leg_of S.CombinationScale.pair_of scale.now) (tables_of self.old) }
        ensures { Played (meaning S.LegScale.leg_of S.CombinationScale.pair_of scale.now) (tables_of self.old) calls.now (tables_of self.new) }
    {
        for call in calls {
            let _ = self.apply(scale, *call);
        }
    }
}
