// Fill and cancel.
ghost use Rattle.std.specs.Prelude.{◌≡◌, ◌^◌, ◌<◌, ◌≤◌};
ghost use Rattle.margin.specs.Meaning.{meaning};
ghost use Rattle.ledger.specs.declared.call.Call.TheVariants.{Fill as FillCall, Cancel as CancelCall};
ghost use Rattle.ledger.specs.Content.{contract_of as contract_in, sells as sells_in};
ghost use Rattle.register.specs.Rows.{lookup};
ghost use Rattle.ledger.specs.FillRules.{freed, disengaged, leg_traded, traded, past_limit as past_limit_of, FillRule, CancelRule};
ghost use Rattle.ledger.specs.Law.{contracts_of, position_of, position_row as row_of};
ghost use Rattle.ledger.specs.Runs.{Kept, Listed as IsListed};
ghost use Rattle.ledger.specs.Keeps.{KeptBy};
ghost use Rattle.book.specs.Book.{tables_of};
ghost use Rattle.book.specs.Checks.{Passes, fill_checks};
ghost use Rattle.book.specs.Facts.{AllSound, FundsWithin};

use crate::Book;
use crate::moves::{Flow, NO_FLOW};
use crate::parts::{Lots, MOST_CASH, Price};
use crate::positions::{Side, add, close, first_side, unlock};
use ledger::order::{Combination, Order, OrderKind};
use ledger::refusal::Refusal;
use margin::scale::{CombinationScale, LegScale};

// The contract that an order is on.
fn contract_of(kind: OrderKind) -> u32
    ensures { result ≡ contract_in kind }
{
    match kind {
        OrderKind::SellOpen { contract }
        | OrderKind::BuyOpen { contract }
        | OrderKind::BuyClose { contract }
        | OrderKind::SellClose { contract }
        | OrderKind::LegClose { contract, .. } => contract,
    }
}

// Whether an order sells.
fn sells(kind: OrderKind) -> bool
    ensures { result ≡ sells_in kind }
{
    matches!(
        kind,
        OrderKind::SellOpen { .. } | OrderKind::SellClose { .. }
    )
}

// A working order, in range as the law has it.
#[derive(Drop)]
struct WorkingOrder {
    order: Order,
    ghost account: { (1 ≤ order.account) × (order.account ≤ 8) },
    ghost lots: { (1 ≤ order.lots) × (order.lots ≤ 1000) },
    ghost limit: { (1 ≤ order.limit) × (order.limit ≤ 10 ^ 7) },
}

impl WorkingOrder {
    fn lots(&self) -> Lots
        ensures { result.number ≡ self.now.order.lots }
    {
        Lots {
            number: self.order.lots,
        }
    }

    fn limit(&self) -> Price
        ensures { result.hao ≡ self.now.order.limit }
    {
        Price {
            hao: self.order.limit,
        }
    }
}

// Whether a price is worse than an order's limit: a sale under it, a purchase over it.
fn past_limit(order: &Order, price: u64) -> bool
    ensures { result ≡ past_limit_of order.now price }
{
    if sells(order.kind) {
        price < order.limit
    } else {
        price > order.limit
    }
}

impl Book {
    // Unlocks or disengages the lots of an order that ends.
    fn free(&mut self, working: &WorkingOrder)
        requires { IsListed (contracts_of (tables_of self.old)) (contract_in working.now.order.kind) }
        ensures { tables_of self.new ≡ freed (tables_of self.old) working.now.order.kind working.now.order (tables_of self.old) }
    {
        let order = working.order;
        let lots = working.lots();
        match order.kind {
            OrderKind::SellOpen { .. } | OrderKind::BuyOpen { .. } => {}
            OrderKind::BuyClose { contract } => {
                let row = self.row_of(order.account, contract);
                unlock(&mut self.tables.positions[row], Side::Written, lots);
            }
            OrderKind::SellClose { contract } => {
                let row = self.row_of(order.account, contract);
                unlock(&mut self.tables.positions[row], Side::Bought, lots);
            }
            OrderKind::LegClose { combination, .. } => self.disengage(combination, order.lots),
        }
    }

    // Disengages lots of a combination, where it stands.
    fn disengage(&mut self, number: u32, lots: u32)
        ensures { tables_of self.new ≡ disengaged (tables_of self.old) number lots (tables_of self.old) (lookup (tables_of self.old).combinations number) }
    {
        let Some(combination) = register::find(&self.tables.combinations, number) else {
            return;
        };
        let rest = Combination {
            engaged: combination.engaged.saturating_sub(lots),
            ..combination
        };
        let _ = register::change(&mut self.tables.combinations, number, rest);
    }

    // Whether a standing order takes a fill: its lots, its limit, and what the cash total comes to.
    fn check_fill(&self, order: &Order, lots: Lots, price: Price) -> Result<(), Refusal>
        requires funds { FundsWithin (tables_of self.now).funds }
        ensures { Passes (fill_checks (tables_of self.now) order.now lots.number price.hao) result }
    {
        if order.lots < lots.number {
            return Err(Refusal::TooFewLots);
        }
        if past_limit(order, price.hao) {
            return Err(Refusal::PastLimit);
        }
        let premium = self.premium_of(contract_of(order.kind), lots, price);
        if sells(order.kind) && self.tables.funds.cash + premium > MOST_CASH {
            return Err(Refusal::CashLimit);
        }
        Ok(())
    }

    // Books the fill of a leg close: premium and margins, lots off the combination, the leg closed, the other leg unlocked.
    fn trade_leg<S: CombinationScale>(
        &mut self,
        scale: &S,
        working: &WorkingOrder,
        number: u32,
        leg: u32,
        row: usize,
        lots: Lots,
        price: Price,
    )
        requires row { (row ≡ row_of (tables_of self.old) working.now.order.account leg) × (row < 512) }
        requires funds { FundsWithin (tables_of self.old).funds }
        requires combinations { AllSound (tables_of self.old) }
        ensures { tables_of self.new ≡ leg_traded (meaning S.LegScale.leg_of S.CombinationScale.pair_of scale.now) (tables_of self.old) working.now.order number leg lots.number price.hao (tables_of self.old) (lookup (tables_of self.old).combinations number) }
    {
        let Some(combination) = register::find(&self.tables.combinations, number) else {
            return;
        };
        let pair = self.fitted_pair(&combination);
        let reserve = self.leg_close_reserve(scale, &combination, leg, working.limit());
        let flow = Flow {
            reserve: lots.times(reserve),
            paid: self.premium_of(leg, lots, price),
            back: lots.times(scale.pair(&pair)),
            taken: lots.times(self.other_leg_margin(scale, &combination, leg)),
            ..NO_FLOW
        };
        self.settle(flow);
        self.take_off_combination(number, &combination, lots.number, lots.number);
        close(&mut self.tables.positions[row], Side::Written, lots);
        if leg == combination.second {
            let first = self.row_of(combination.account, combination.first);
            let side = first_side(combination.strategy);
            unlock(&mut self.tables.positions[first], side, lots);
        } else {
            let second = self.row_of(combination.account, combination.second);
            unlock(&mut self.tables.positions[second], Side::Written, lots);
        }
    }

    // Books a fill of an order by its kind.
    fn trade<S: CombinationScale>(
        &mut self,
        scale: &S,
        working: &WorkingOrder,
        lots: Lots,
        price: Price,
    )
        requires contract { IsListed (contracts_of (tables_of self.old)) (contract_in working.now.order.kind) }
        requires funds { FundsWithin (tables_of self.old).funds }
        requires combinations { AllSound (tables_of self.old) }
        requires room { ((position_of (tables_of self.old) working.now.order.account (contract_in working.now.order.kind)).bought ≤ 10000) × ((position_of (tables_of self.old) working.now.order.account (contract_in working.now.order.kind)).written ≤ 10000) }
        ensures { tables_of self.new ≡ traded (meaning S.LegScale.leg_of S.CombinationScale.pair_of scale.now) (tables_of self.old) working.now.order working.now.order.kind lots.number price.hao (tables_of self.old) }
    {
        let order = working.order;
        let limit = working.limit();
        let row = self.row_of(order.account, contract_of(order.kind));
        match order.kind {
            OrderKind::SellOpen { contract } => {
                let margin = lots.times(self.leg_margin(scale, contract));
                let flow = Flow {
                    reserve: margin,
                    received: self.premium_of(contract, lots, price),
                    taken: margin,
                    ..NO_FLOW
                };
                self.settle(flow);
                add(&mut self.tables.positions[row], Side::Written, lots);
            }
            OrderKind::BuyOpen { contract } => {
                let flow = Flow {
                    reserve: self.premium_of(contract, lots, limit),
                    paid: self.premium_of(contract, lots, price),
                    ..NO_FLOW
                };
                self.settle(flow);
                add(&mut self.tables.positions[row], Side::Bought, lots);
            }
            OrderKind::BuyClose { contract } => {
                let flow = Flow {
                    reserve: self.premium_of(contract, lots, limit),
                    paid: self.premium_of(contract, lots, price),
                    back: lots.times(self.leg_margin(scale, contract)),
                    ..NO_FLOW
                };
                self.settle(flow);
                close(&mut self.tables.positions[row], Side::Written, lots);
            }
            OrderKind::SellClose { contract } => {
                let flow = Flow {
                    received: self.premium_of(contract, lots, price),
                    ..NO_FLOW
                };
                self.settle(flow);
                close(&mut self.tables.positions[row], Side::Bought, lots);
            }
            OrderKind::LegClose {
                combination,
                contract,
            } => self.trade_leg(scale, working, combination, contract, row, lots, price),
        }
    }

    // Fills lots of an order at a price.
    pub fn fill<S: CombinationScale>(
        &mut self,
        scale: &S,
        order: u32,
        lots: u32,
        price: u64,
    ) -> Result<(u32, u64), Refusal>
        requires its_scale { Kept (meaning S.LegScale.leg_of S.CombinationScale.pair_of scale.now) (tables_of self.old) }
        ensures answer { FillRule (meaning S.LegScale.leg_of S.CombinationScale.pair_of scale.now) (tables_of self.old) order lots price result (tables_of self.new) }
        ensures law { KeptBy (meaning S.LegScale.leg_of S.CombinationScale.pair_of scale.now) (tables_of self.old) (FillCall order lots price) result (tables_of self.new) }
    {
        let lots = Lots::new(lots)?;
        let price = Price::new(price)?;
        let Some(entry) = register::find(&self.tables.orders, order) else {
            return Err(Refusal::NotStanding);
        };
        self.check_fill(&entry, lots, price)?;
        self.take_off_order(order, &entry, lots.number);
        self.trade(scale, &WorkingOrder { order: entry }, lots, price);
        Ok((0, self.tables.funds.balance))
    }

    // Ends an order: the rest of its reserve comes back, and its lots are free again.
    pub fn cancel<S: CombinationScale>(
        &mut self,
        scale: &S,
        order: u32,
    ) -> Result<(u32, u64), Refusal>
        requires its_scale { Kept (meaning S.LegScale.leg_of S.CombinationScale.pair_of scale.now) (tables_of self.old) }
        ensures answer { CancelRule (meaning S.LegScale.leg_of S.CombinationScale.pair_of scale.now) (tables_of self.old) order result (tables_of self.new) }
        ensures law { KeptBy (meaning S.LegScale.leg_of S.CombinationScale.pair_of scale.now) (tables_of self.old) (CancelCall order) result (tables_of self.new) }
    {
        let Some(entry) = register::find(&self.tables.orders, order) else {
            return Err(Refusal::NotStanding);
        };
        let working = WorkingOrder { order: entry };
        let reserve = self.order_reserve(scale, entry.kind, working.limit());
        let flow = Flow {
            reserve: working.lots().times(reserve),
            ..NO_FLOW
        };
        let _ = register::remove(&mut self.tables.orders, order);
        self.free(&working);
        self.settle(flow);
        Ok((0, self.tables.funds.balance))
    }
}
