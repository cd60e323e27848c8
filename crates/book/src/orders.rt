// Sell open, buy open, buy close and sell close.
// Four calls by rule: they share check_terms, check_room or check_free_on, enter and lock, and differ in reserve and kind besides.
ghost use Rattle.std.specs.Prelude.{◌≡◌, ◌+◌, ◌^◌, ◌<◌, ◌≤◌, [], ◌∷◌, length, IfOk, OnOk};
ghost use Rattle.margin.specs.Meaning.{meaning};
ghost use Rattle.ledger.specs.declared.call.Call.TheVariants.{SellOpen as SellOpenCall, BuyOpen as BuyOpenCall, BuyClose as BuyCloseCall, SellClose as SellCloseCall};
ghost use Rattle.ledger.specs.CombinationRules.{leg_terms_tests};
ghost use Rattle.ledger.specs.Law.{contracts_of};
ghost use Rattle.ledger.specs.Tests.{ByTests};
ghost use Rattle.ledger.specs.OrderRules.{terms_tests, enter_tests, working_sum, too_many, OrderTaken, SellOpenRule, BuyOpenRule, BuyCloseRule, SellCloseRule};
ghost use Rattle.ledger.specs.Runs.{Kept};
ghost use Rattle.ledger.specs.Keeps.{KeptBy};
ghost use Rattle.book.specs.Book.{tables_of};
ghost use Rattle.book.specs.Checks.{Passes, Found};
ghost use Rattle.book.specs.Sides.{opens, owned_on};

use crate::Book;
use crate::parts::{Lots, Price, check_account};
use crate::positions::{Side, check_free_on, lock, owned, position_row};
use ledger::order::{Order, OrderKind};
use ledger::refusal::Refusal;
use ledger::tables::Position;
use margin::listing::Listed;
use margin::scale::{CombinationScale, LegScale};
use register::row::{FREE, Row};

// The lots of one side of one position, owned and working to open, never pass this.
const MOST_LOTS_OF_SIDE: u64 = 10_000;

// The lots of an order that opens on a side of an account and a contract; 0 of every other order.
fn lots_opened(order: &Order, side: Side, account: u8, contract: u32) -> u32
    ensures is { result ≡ opens side account contract order.now }
{
    match (side, order.kind) {
        (Side::Written, OrderKind::SellOpen { contract: on })
        | (Side::Bought, OrderKind::BuyOpen { contract: on })
            if order.account == account && on == contract => { order.lots }
        _ => 0,
    }
}

// The lots of working orders that open on a side of an account and a contract.
fn working_lots(rows: &[Row<Order>], side: Side, account: u8, contract: u32) -> u64
    requires { length rows.now ≤ 64 }
    ensures { result ≡ working_sum rows.now (opens side account contract) }
{
    rows.iter()
        .map(|row| if row.number == FREE {
            0
        } else {
            u64::from(lots_opened(&row.entry, side, account, contract))
        })
        .sum()
}

// What an order names, found good: its contract, its lots and its limit.
#[derive(Drop)]
pub(crate) struct Terms {
    pub(crate) listed: Listed,
    pub(crate) lots: Lots,
    pub(crate) limit: Price,
}

impl Book {
    // The terms of an order, once its contract is listed, and its lots and limit are found good.
    pub(crate) fn check_leg_terms(
        &self,
        contract: u32,
        lots: u32,
        limit: u64,
    ) -> Result<Terms, Refusal>
        ensures tests { Passes (leg_terms_tests (tables_of self.now) contract lots limit) result }
        ensures found { IfOk result (λ terms. Found (contracts_of (tables_of self.now)) contract terms.listed) }
        ensures are { IfOk result (λ terms. (terms.lots.number ≡ lots) × (terms.limit.hao ≡ limit)) }
    {
        Ok(Terms {
            listed: self.listed(contract)?,
            lots: Lots::new(lots)?,
            limit: Price::new(limit)?,
        })
    }

    // The terms of an account's order, once the account too is found good.
    fn check_terms(
        &self,
        account: u8,
        contract: u32,
        lots: u32,
        limit: u64,
    ) -> Result<Terms, Refusal>
        ensures tests { Passes (terms_tests (tables_of self.now) account contract lots limit) result }
        ensures found { IfOk result (λ terms. Found (contracts_of (tables_of self.now)) contract terms.listed) }
        ensures are { IfOk result (λ terms. (terms.lots.number ≡ lots) × (terms.limit.hao ≡ limit)) }
        ensures account { OnOk result ((1 ≤ account) × (account ≤ 8)) }
    {
        check_account(account)?;
        self.check_leg_terms(contract, lots, limit)
    }

    // Whether lots may be opened beside those owned on the side and those working to open there.
    fn check_room(
        &self,
        position: &Position,
        side: Side,
        account: u8,
        contract: u32,
        lots: u32,
    ) -> Result<(), Refusal>
        ensures { Passes (too_many (owned_on side position.now) (working_sum (tables_of self.now).orders (opens side account contract)) lots ∷ []) result }
    {
        let working = working_lots(&self.tables.orders, side, account, contract);
        let more = u64::from(owned(position, side)) + u64::from(lots);
        if working.saturating_add(more) > MOST_LOTS_OF_SIDE {
            return Err(Refusal::PositionLimit);
        }
        Ok(())
    }

    // Takes the reserve of an order and enters it.
    pub(crate) fn enter(&mut self, order: Order, reserve: u64) -> Result<(u32, u64), Refusal>
        requires funds { (tables_of self.old).funds.balance + (tables_of self.old).funds.reserved < 2 ^ 64 }
        ensures { ByTests (enter_tests (tables_of self.old) reserve) (tables_of self.old) result (tables_of self.new) (OrderTaken order reserve (tables_of self.old)) }
    {
        if self.tables.funds.balance < reserve {
            return Err(Refusal::TooLittleBalance);
        }
        let number = register::add(
            &mut self.tables.orders,
            &mut self.tables.order_series,
            order,
        )?;
        self.tables.funds.balance -= reserve;
        self.tables.funds.reserved += reserve;
        Ok((number, self.tables.funds.balance))
    }

    // Enters an order to write lots.
    pub fn sell_open<S: CombinationScale>(
        &mut self,
        scale: &S,
        account: u8,
        contract: u32,
        lots: u32,
        limit: u64,
    ) -> Result<(u32, u64), Refusal>
        requires its_scale { Kept (meaning S.LegScale.leg_of S.CombinationScale.pair_of scale.now) (tables_of self.old) }
        ensures answer { SellOpenRule (meaning S.LegScale.leg_of S.CombinationScale.pair_of scale.now) (tables_of self.old) account contract lots limit result (tables_of self.new) }
        ensures law { KeptBy (meaning S.LegScale.leg_of S.CombinationScale.pair_of scale.now) (tables_of self.old) (SellOpenCall account contract lots limit) result (tables_of self.new) }
    {
        let terms = self.check_terms(account, contract, lots, limit)?;
        let position = self.tables.positions[position_row(account, terms.listed.place)];
        self.check_room(&position, Side::Written, account, contract, lots)?;
        let reserve = terms.lots.times(scale.leg(&terms.listed.contract));
        let kind = OrderKind::SellOpen { contract };
        let order = Order {
            account,
            kind,
            lots,
            limit,
        };
        self.enter(order, reserve)
    }

    // Enters an order to buy lots.
    pub fn buy_open<S: CombinationScale>(
        &mut self,
        scale: &S,
        account: u8,
        contract: u32,
        lots: u32,
        limit: u64,
    ) -> Result<(u32, u64), Refusal>
        requires its_scale { Kept (meaning S.LegScale.leg_of S.CombinationScale.pair_of scale.now) (tables_of self.old) }
        ensures answer { BuyOpenRule (meaning S.LegScale.leg_of S.CombinationScale.pair_of scale.now) (tables_of self.old) account contract lots limit result (tables_of self.new) }
        ensures law { KeptBy (meaning S.LegScale.leg_of S.CombinationScale.pair_of scale.now) (tables_of self.old) (BuyOpenCall account contract lots limit) result (tables_of self.new) }
    {
        let terms = self.check_terms(account, contract, lots, limit)?;
        let position = self.tables.positions[position_row(account, terms.listed.place)];
        self.check_room(&position, Side::Bought, account, contract, lots)?;
        let per_lot = terms.limit.per_lot(&terms.listed.contract);
        let reserve = terms.lots.times(per_lot);
        let kind = OrderKind::BuyOpen { contract };
        let order = Order {
            account,
            kind,
            lots,
            limit,
        };
        self.enter(order, reserve)
    }

    // Enters an order to buy written lots back, and locks them.
    pub fn buy_close<S: CombinationScale>(
        &mut self,
        scale: &S,
        account: u8,
        contract: u32,
        lots: u32,
        limit: u64,
    ) -> Result<(u32, u64), Refusal>
        requires its_scale { Kept (meaning S.LegScale.leg_of S.CombinationScale.pair_of scale.now) (tables_of self.old) }
        ensures answer { BuyCloseRule (meaning S.LegScale.leg_of S.CombinationScale.pair_of scale.now) (tables_of self.old) account contract lots limit result (tables_of self.new) }
        ensures law { KeptBy (meaning S.LegScale.leg_of S.CombinationScale.pair_of scale.now) (tables_of self.old) (BuyCloseCall account contract lots limit) result (tables_of self.new) }
    {
        let terms = self.check_terms(account, contract, lots, limit)?;
        let row = position_row(account, terms.listed.place);
        check_free_on(&self.tables.positions[row], Side::Written, terms.lots)?;
        let per_lot = terms.limit.per_lot(&terms.listed.contract);
        let reserve = terms.lots.times(per_lot);
        let kind = OrderKind::BuyClose { contract };
        let order = Order {
            account,
            kind,
            lots,
            limit,
        };
        let answer = self.enter(order, reserve)?;
        lock(&mut self.tables.positions[row], Side::Written, terms.lots);
        Ok(answer)
    }

    // Enters an order to sell bought lots, and locks them.
    pub fn sell_close<S: CombinationScale>(
        &mut self,
        scale: &S,
        account: u8,
        contract: u32,
        lots: u32,
        limit: u64,
    ) -> Result<(u32, u64), Refusal>
        requires its_scale { Kept (meaning S.LegScale.leg_of S.CombinationScale.pair_of scale.now) (tables_of self.old) }
        ensures answer { SellCloseRule (meaning S.LegScale.leg_of S.CombinationScale.pair_of scale.now) (tables_of self.old) account contract lots limit result (tables_of self.new) }
        ensures law { KeptBy (meaning S.LegScale.leg_of S.CombinationScale.pair_of scale.now) (tables_of self.old) (SellCloseCall account contract lots limit) result (tables_of self.new) }
    {
        let terms = self.check_terms(account, contract, lots, limit)?;
        let row = position_row(account, terms.listed.place);
        check_free_on(&self.tables.positions[row], Side::Bought, terms.lots)?;
        let kind = OrderKind::SellClose { contract };
        let order = Order {
            account,
            kind,
            lots,
            limit,
        };
        let answer = self.enter(order, 0)?;
        lock(&mut self.tables.positions[row], Side::Bought, terms.lots);
        Ok(answer)
    }
}
