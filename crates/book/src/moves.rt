// The movements that calls are made of: funds, and lots off an order or a combination.
ghost use Rattle.std.specs.Prelude.{◌≡◌, ◌^◌, ◌<◌, ◌≤◌, MatchOption};
ghost use Rattle.register.specs.Rows.{changed, removed};
ghost use Rattle.ledger.specs.FillRules.{fill_funds};
ghost use Rattle.ledger.specs.Law.{contracts_of, position_row as row_of};
ghost use Rattle.ledger.specs.Moves.{funds_to, orders_to, combinations_to, order_rest, combination_rest};
ghost use Rattle.ledger.specs.Runs.{Listed as IsListed};
ghost use Rattle.book.specs.Book.{tables_of};
ghost use Rattle.book.specs.Facts.{FundsWithin, FlowWithin};

use crate::Book;
use crate::positions::position_row;
use ledger::order::{Combination, Order};
use ledger::tables::Funds;
use register::row::Row;

// What a call moves of the funds: a reserve and margin that come back, a premium received or paid, and margin taken.
#[derive(Clone, Copy)]
pub(crate) struct Flow {
    pub(crate) reserve: u64,
    pub(crate) received: u64,
    pub(crate) paid: u64,
    pub(crate) back: u64,
    pub(crate) taken: u64,
}

// No derived Default: tried, and the proof of combine's answer did not close over it.
pub(crate) const NO_FLOW: Flow = Flow {
    reserve: 0,
    received: 0,
    paid: 0,
    back: 0,
    taken: 0,
};

// Puts what is left of an entry in its place; where nothing is, removes it.
fn put<T: Copy>(rows: &mut [Row<T>], number: u32, rest: Option<T>)
    ensures { MatchOption rest (rows.new ≡ removed rows.old number) (λ entry. rows.new ≡ changed rows.old number entry) }
{
    let _ = match rest {
        Some(entry) => register::change(rows, number, entry),
        None => register::remove(rows, number),
    };
}

impl Book {
    // Moves the funds by a flow. Nothing here stops at nought: the law shows that what is taken away was there.
    // It cannot show that every flow keeps the funds within, so that is no invariant of the book; a call moves the funds once.
    pub(crate) fn settle(&mut self, flow: Flow)
        requires funds { FundsWithin (tables_of self.old).funds }
        requires flow { FlowWithin flow }
        ensures { tables_of self.new ≡ funds_to (fill_funds flow.reserve flow.received flow.paid flow.back flow.taken (tables_of self.old).funds) (tables_of self.old) }
    {
        let funds = self.tables.funds;
        let gained = funds.balance + flow.reserve + flow.received + flow.back;
        self.tables.funds = Funds {
            balance: gained.saturating_sub(flow.paid).saturating_sub(flow.taken),
            held: (funds.held + flow.taken).saturating_sub(flow.back),
            reserved: funds.reserved.saturating_sub(flow.reserve),
            cash: (funds.cash + flow.received).saturating_sub(flow.paid),
        };
    }

    // The row of an account's lots of a listed contract.
    // Its callers ask that it is listed: that is a fact of the book's listing, which no type of the number can hold.
    pub(crate) fn row_of(&self, account: u8, contract: u32) -> usize
        requires account { (1 ≤ account) × (account ≤ 8) }
        requires contract { IsListed (contracts_of (tables_of self.now)) contract }
        ensures is { result ≡ row_of (tables_of self.now) account contract }
        ensures inside { result < 512 }
    {
        let Some(listed) = self.tables.listing.find(contract) else {
            unreachable!()
        };
        position_row(account, listed.place)
    }

    // Takes lots off an order; with none left it is removed.
    pub(crate) fn take_off_order(&mut self, number: u32, order: &Order, lots: u32)
        ensures { tables_of self.new ≡ orders_to (order_rest number lots order.now (tables_of self.old).orders) (tables_of self.old).order_series (tables_of self.old) }
    {
        let rest = (order.lots > lots).then(|| Order {
            lots: order.lots - lots,
            ..*order
        });
        put(&mut self.tables.orders, number, rest);
    }

    // Takes lots off a combination, some of them engaged; with none left it is removed.
    pub(crate) fn take_off_combination(
        &mut self,
        number: u32,
        combination: &Combination,
        lots: u32,
        engaged: u32,
    )
        ensures { tables_of self.new ≡ combinations_to (combination_rest number lots engaged combination.now (tables_of self.old).combinations) (tables_of self.old).combination_series (tables_of self.old) }
    {
        let rest = (combination.lots > lots).then(|| Combination {
            lots: combination.lots - lots,
            engaged: combination.engaged.saturating_sub(engaged),
            ..*combination
        });
        put(&mut self.tables.combinations, number, rest);
    }
}
