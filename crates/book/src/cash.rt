// Deposit and withdraw.
ghost use Rattle.std.specs.Prelude.{[], ◌∷◌};
ghost use Rattle.margin.specs.Meaning.{meaning};
ghost use Rattle.ledger.specs.declared.call.Call.TheVariants.{Deposit as DepositCall, Withdraw as WithdrawCall};
ghost use Rattle.ledger.specs.CashRules.{DepositRule, WithdrawRule};
ghost use Rattle.ledger.specs.Runs.{Kept};
ghost use Rattle.ledger.specs.Keeps.{KeptBy};
ghost use Rattle.ledger.specs.Tests.{bad_amount};
ghost use Rattle.book.specs.Book.{tables_of};
ghost use Rattle.book.specs.Checks.{Passes};

use crate::Book;
use crate::parts::MOST_CASH;
use ledger::refusal::Refusal;
use margin::scale::{CombinationScale, LegScale};

// An amount of money that a call may move, in hao.
const LEAST_AMOUNT: u64 = 1;

const MOST_AMOUNT: u64 = 10_000_000_000_000_000;

fn check_amount(amount: u64) -> Result<(), Refusal>
    ensures { Passes (bad_amount amount ∷ []) result }
{
    if amount < LEAST_AMOUNT || amount > MOST_AMOUNT {
        return Err(Refusal::AmountOutOfRange);
    }
    Ok(())
}

impl Book {
    // Puts an amount into the balance.
    pub fn deposit<S: CombinationScale>(
        &mut self,
        scale: &S,
        amount: u64,
    ) -> Result<(u32, u64), Refusal>
        requires its_scale { Kept (meaning S.LegScale.leg_of S.CombinationScale.pair_of scale.now) (tables_of self.old) }
        ensures answer { DepositRule (tables_of self.old) amount result (tables_of self.new) }
        ensures law { KeptBy (meaning S.LegScale.leg_of S.CombinationScale.pair_of scale.now) (tables_of self.old) (DepositCall amount) result (tables_of self.new) }
    {
        check_amount(amount)?;
        let funds = self.tables.funds;
        if funds.cash + amount > MOST_CASH {
            return Err(Refusal::CashLimit);
        }
        self.tables.funds.balance = funds.balance + amount;
        self.tables.funds.cash = funds.cash + amount;
        Ok((0, funds.balance + amount))
    }

    // Takes an amount out of the balance.
    pub fn withdraw<S: CombinationScale>(
        &mut self,
        scale: &S,
        amount: u64,
    ) -> Result<(u32, u64), Refusal>
        requires its_scale { Kept (meaning S.LegScale.leg_of S.CombinationScale.pair_of scale.now) (tables_of self.old) }
        ensures answer { WithdrawRule (tables_of self.old) amount result (tables_of self.new) }
        ensures law { KeptBy (meaning S.LegScale.leg_of S.CombinationScale.pair_of scale.now) (tables_of self.old) (WithdrawCall amount) result (tables_of self.new) }
    {
        check_amount(amount)?;
        let funds = self.tables.funds;
        if funds.balance < amount {
            return Err(Refusal::TooLittleBalance);
        }
        self.tables.funds.balance = funds.balance - amount;
        self.tables.funds.cash = funds.cash - amount;
        Ok((0, funds.balance - amount))
    }
}
