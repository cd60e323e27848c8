// What a book answers without being changed.
ghost use Rattle.std.specs.Prelude.{◌≡◌};
ghost use Rattle.book.specs.Book.{tables_of};
ghost use Rattle.book.specs.Questions.{PositionAsked, EntryAsked};

use crate::Book;
use crate::parts::check_account;
use crate::positions::position_row;
use ledger::order::{Combination, Order};
use ledger::refusal::Refusal;
use ledger::tables::Position;

impl Book {
    // The intraday balance, in hao.
    pub fn balance(&self) -> u64
        ensures { result ≡ (tables_of self.now).funds.balance }
    {
        self.tables.funds.balance
    }

    // The margin held for written lots and combinations, in hao.
    pub fn margin_held(&self) -> u64
        ensures { result ≡ (tables_of self.now).funds.held }
    {
        self.tables.funds.held
    }

    // The reserves of working orders, in hao.
    pub fn reserves(&self) -> u64
        ensures { result ≡ (tables_of self.now).funds.reserved }
    {
        self.tables.funds.reserved
    }

    // The cash total, in hao.
    pub fn cash_total(&self) -> u64
        ensures { result ≡ (tables_of self.now).funds.cash }
    {
        self.tables.funds.cash
    }

    // The lots of an account and a contract.
    pub fn position(&self, account: u8, contract: u32) -> Result<Position, Refusal>
        ensures { PositionAsked (tables_of self.now) account contract result }
    {
        check_account(account)?;
        let listed = self.listed(contract)?;
        Ok(self.tables.positions[position_row(account, listed.place)])
    }

    // The combination under a number.
    pub fn combination(&self, number: u32) -> Result<Combination, Refusal>
        ensures { EntryAsked (tables_of self.now).combinations number result }
    {
        register::find(&self.tables.combinations, number).ok_or(Refusal::NotStanding)
    }

    // The working order under a number.
    pub fn order(&self, number: u32) -> Result<Order, Refusal>
        ensures { EntryAsked (tables_of self.now).orders number result }
    {
        register::find(&self.tables.orders, number).ok_or(Refusal::NotStanding)
    }
}
