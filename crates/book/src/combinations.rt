// Combine, release and leg close.
ghost use Rattle.std.specs.Prelude.{◌≡◌, ◌+◌, ◌-◌, ◌^◌, ◌<◌, ◌≤◌, ◌||◌, [], ◌∷◌, IfOk, OnOk, nat_lt};
ghost use Rattle.margin.specs.Meaning.{meaning};
ghost use Rattle.margin.specs.Strategies.{strategy_number, strategy_of};
ghost use Rattle.ledger.specs.declared.call.Call.TheVariants.{Combine as CombineCall, LegClose as LegCloseCall, Release as ReleaseCall};
ghost use Rattle.ledger.specs.CombinationRules.{pair_tests, pair_entry_tests, CombinationTaken, CombineRule, leg_checks, ReleaseRule, LegCloseRule};
ghost use Rattle.ledger.specs.FillRules.{fill_funds};
ghost use Rattle.ledger.specs.Moves.{funds_to, with_lots, free_first, free_written};
ghost use Rattle.ledger.specs.Law.{contracts_of, position_row as row_of};
ghost use Rattle.ledger.specs.Tests.{ByTests};
ghost use Rattle.ledger.specs.Runs.{Kept};
ghost use Rattle.ledger.specs.Keeps.{KeptBy};
ghost use Rattle.book.specs.Book.{tables_of};
ghost use Rattle.book.specs.Checks.{Passes};
ghost use Rattle.book.specs.Facts.{FundsWithin, FlowWithin, PairNamed};

use crate::Book;
use crate::moves::{Flow, NO_FLOW};
use crate::parts::{Lots, check_account, check_free};
use crate::positions::{Side, check_free_on, first_side, lock, position_row, unlock};
use ledger::order::{Combination, Order, OrderKind};
use ledger::refusal::Refusal;
use ledger::tables::Position;
use margin::pair::FittedPair;
use margin::scale::{CombinationScale, LegScale};
use margin::strategy::Strategy;

// The weight of a strategy's bit among those permitted.
fn permission(strategy: Strategy) -> u8
    ensures is { result ≡ 2 ^ (strategy_number strategy - 1) }
    ensures some { 1 ≤ result }
{
    1 << (strategy.number() - 1)
}

// A combination with more of its lots engaged.
fn engage(combination: &Combination, lots: u32) -> Combination
    requires { combination.now.engaged + lots ≤ combination.now.lots }
    ensures { result ≡ with_lots combination.now.lots (combination.now.engaged + lots) combination.now }
{
    Combination {
        engaged: combination.engaged + lots,
        ..*combination
    }
}

// Whether both legs of a strategy have that many lots free.
fn check_legs(
    strategy: Strategy,
    first: &Position,
    second: &Position,
    lots: Lots,
) -> Result<(), Refusal>
    ensures { Passes ((18, nat_lt (free_first strategy first.now) lots.number || nat_lt (free_written second.now) lots.number) ∷ []) result }
{
    check_free_on(first, first_side(strategy), lots)?;
    check_free_on(second, Side::Written, lots)
}

// A pair that fits, the rows of an account's lots of its legs, and the lots that are combined.
#[derive(Drop)]
struct Legs {
    pair: FittedPair,
    first: usize,
    second: usize,
    lots: Lots,
}

impl Book {
    // Whether the balance covers what is taken beyond what comes back.
    fn check_balance(&self, flow: Flow) -> Result<(), Refusal>
        ensures { Passes ((21, nat_lt (tables_of self.now).funds.balance (flow.taken - flow.back)) ∷ []) result }
    {
        if self.tables.funds.balance < flow.taken.saturating_sub(flow.back) {
            return Err(Refusal::TooLittleBalance);
        }
        Ok(())
    }

    // The legs that a combine names, once account, legs and lots are found good and the legs fit the strategy.
    fn check_pair(
        &self,
        account: u8,
        strategy: u8,
        first: u32,
        second: u32,
        lots: u32,
    ) -> Result<Legs, Refusal>
        ensures tests { Passes (pair_tests (tables_of self.now) (strategy_of strategy) account first second lots) result }
        ensures named { IfOk result (λ legs. PairNamed (contracts_of (tables_of self.now)) (strategy_of strategy) first second legs.pair) }
        ensures rows { IfOk result (λ legs. (legs.first ≡ row_of (tables_of self.now) account first) × (legs.first < 512) × (legs.second ≡ row_of (tables_of self.now) account second) × (legs.second < 512)) }
        ensures lots { IfOk result (λ legs. legs.lots.number ≡ lots) }
        ensures account { OnOk result ((1 ≤ account) × (account ≤ 8)) }
    {
        check_account(account)?;
        let one = self.listed(first)?;
        let other = self.listed(second)?;
        let lots = Lots::new(lots)?;
        let Ok(strategy) = Strategy::try_from(strategy) else {
            return Err(Refusal::LegsDoNotFit);
        };
        let Some(pair) = FittedPair::fit(strategy, &one.contract, &other.contract) else {
            return Err(Refusal::LegsDoNotFit);
        };
        Ok(Legs {
            pair,
            first: position_row(account, one.place),
            second: position_row(account, other.place),
            lots,
        })
    }

    // Enters a combination, and puts its margin in the place of its legs'.
    fn enter_combination(
        &mut self,
        combination: Combination,
        flow: Flow,
    ) -> Result<(u32, u64), Refusal>
        requires funds { FundsWithin (tables_of self.old).funds }
        requires flow { FlowWithin flow }
        ensures { ByTests (pair_entry_tests (tables_of self.old) flow.back flow.taken) (tables_of self.old) result (tables_of self.new) (CombinationTaken (tables_of self.old) combination (funds_to (fill_funds flow.reserve flow.received flow.paid flow.back flow.taken (tables_of self.old).funds) (tables_of self.old))) }
    {
        self.check_balance(flow)?;
        let number = register::add(
            &mut self.tables.combinations,
            &mut self.tables.combination_series,
            combination,
        )?;
        self.settle(flow);
        Ok((number, self.tables.funds.balance))
    }

    // Combines lots of two legs: the leg margins come back, and the pair's margin is taken.
    pub fn combine<S: CombinationScale>(
        &mut self,
        scale: &S,
        account: u8,
        strategy: u8,
        first: u32,
        second: u32,
        lots: u32,
    ) -> Result<(u32, u64), Refusal>
        requires its_scale { Kept (meaning S.LegScale.leg_of S.CombinationScale.pair_of scale.now) (tables_of self.old) }
        ensures answer { CombineRule (meaning S.LegScale.leg_of S.CombinationScale.pair_of scale.now) (tables_of self.old) account strategy first second lots result (tables_of self.new) }
        ensures law { KeptBy (meaning S.LegScale.leg_of S.CombinationScale.pair_of scale.now) (tables_of self.old) (CombineCall account strategy first second lots) result (tables_of self.new) }
    {
        let legs = self.check_pair(account, strategy, first, second, lots)?;
        let strategy = legs.pair.strategy;
        let positions = &self.tables.positions;
        check_legs(
            strategy,
            &positions[legs.first],
            &positions[legs.second],
            legs.lots,
        )?;
        let combination = Combination {
            account,
            strategy,
            first,
            second,
            lots,
            engaged: 0,
        };
        let flow = Flow {
            back: legs.lots.times(legs.pair.legs_sum(scale)),
            taken: legs.lots.times(scale.pair(&legs.pair)),
            ..NO_FLOW
        };
        let answer = self.enter_combination(combination, flow)?;
        lock(
            &mut self.tables.positions[legs.first],
            first_side(strategy),
            legs.lots,
        );
        lock(
            &mut self.tables.positions[legs.second],
            Side::Written,
            legs.lots,
        );
        Ok(answer)
    }

    // Releases lots of a combination: the legs are charged by themselves again.
    pub fn release<S: CombinationScale>(
        &mut self,
        scale: &S,
        combination: u32,
        lots: u32,
    ) -> Result<(u32, u64), Refusal>
        requires its_scale { Kept (meaning S.LegScale.leg_of S.CombinationScale.pair_of scale.now) (tables_of self.old) }
        ensures answer { ReleaseRule (meaning S.LegScale.leg_of S.CombinationScale.pair_of scale.now) (tables_of self.old) combination lots result (tables_of self.new) }
        ensures law { KeptBy (meaning S.LegScale.leg_of S.CombinationScale.pair_of scale.now) (tables_of self.old) (ReleaseCall combination lots) result (tables_of self.new) }
    {
        let lots = Lots::new(lots)?;
        let Some(entry) = register::find(&self.tables.combinations, combination) else {
            return Err(Refusal::NotStanding);
        };
        check_free(entry.lots, entry.engaged, lots)?;
        let pair = self.fitted_pair(&entry);
        let flow = Flow {
            back: lots.times(scale.pair(&pair)),
            taken: lots.times(pair.legs_sum(scale)),
            ..NO_FLOW
        };
        self.check_balance(flow)?;
        self.settle(flow);
        self.take_off_combination(combination, &entry, lots.number, 0);
        let first = self.row_of(entry.account, entry.first);
        unlock(
            &mut self.tables.positions[first],
            first_side(entry.strategy),
            lots,
        );
        let second = self.row_of(entry.account, entry.second);
        unlock(&mut self.tables.positions[second], Side::Written, lots);
        Ok((0, self.tables.funds.balance))
    }

    // Whether one leg of a combination may be closed: its strategy is permitted, the leg is written, and so many lots are not
    // engaged.
    fn check_leg(&self, combination: &Combination, leg: u32, lots: Lots) -> Result<(), Refusal>
        ensures { Passes (leg_checks (tables_of self.now) combination.now leg lots.number) result }
    {
        let strategy = combination.strategy;
        let permitted = self.tables.permitted / permission(strategy) % 2 == 1;
        let written = combination.second == leg
            || (strategy.first_written() && combination.first == leg);
        if !permitted || !written {
            return Err(Refusal::LegNotCloseable);
        }
        check_free(combination.lots, combination.engaged, lots)
    }

    // Enters an order to buy back one written leg of a combination, and engages its lots.
    pub fn leg_close<S: CombinationScale>(
        &mut self,
        scale: &S,
        combination: u32,
        leg: u32,
        lots: u32,
        limit: u64,
    ) -> Result<(u32, u64), Refusal>
        requires its_scale { Kept (meaning S.LegScale.leg_of S.CombinationScale.pair_of scale.now) (tables_of self.old) }
        ensures answer { LegCloseRule (meaning S.LegScale.leg_of S.CombinationScale.pair_of scale.now) (tables_of self.old) combination leg lots limit result (tables_of self.new) }
        ensures law { KeptBy (meaning S.LegScale.leg_of S.CombinationScale.pair_of scale.now) (tables_of self.old) (LegCloseCall combination leg lots limit) result (tables_of self.new) }
    {
        let terms = self.check_leg_terms(leg, lots, limit)?;
        let Some(entry) = register::find(&self.tables.combinations, combination) else {
            return Err(Refusal::NotStanding);
        };
        self.check_leg(&entry, leg, terms.lots)?;
        let engaged = engage(&entry, lots);
        let per_lot = self.leg_close_reserve(scale, &entry, leg, terms.limit);
        let reserve = terms.lots.times(per_lot);
        let kind = OrderKind::LegClose {
            combination,
            contract: leg,
        };
        let order = Order {
            account: entry.account,
            kind,
            lots,
            limit,
        };
        let answer = self.enter(order, reserve)?;
        let _ = register::change(&mut self.tables.combinations, combination, engaged);
        Ok(answer)
    }
}
