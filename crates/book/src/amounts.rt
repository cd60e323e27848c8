// What lots of a contract, an order or a combination cost, in hao.
ghost use Rattle.std.specs.Prelude.{◌≡◌, ◌+◌, ◌*◌, ◌^◌, ◌≤◌, Some as Just};
ghost use Rattle.margin.specs.ByCode.{by_code};
ghost use Rattle.margin.specs.Meaning.{meaning};
ghost use Rattle.ledger.specs.Amounts.{premium as premium_of, other_leg_margin, leg_close_reserve};
ghost use Rattle.ledger.specs.ByCode.{leg_margin_of, unit_of};
ghost use Rattle.ledger.specs.FillRules.{reserve_per_lot};
ghost use Rattle.ledger.specs.Law.{contracts_of};
ghost use Rattle.ledger.specs.Moves.{content as content_in};
ghost use Rattle.ledger.specs.Runs.{Fitted};
ghost use Rattle.book.specs.Book.{tables_of};
ghost use Rattle.book.specs.Facts.{AllFitted, PairOf};

use crate::Book;
use crate::parts::{Lots, Price};
use ledger::order::{Combination, OrderKind};
use margin::pair::FittedPair;
use margin::scale::{CombinationScale, LegScale};

impl Book {
    // The leg margin of a contract; 0 where it is not listed.
    pub(crate) fn leg_margin<S: CombinationScale>(&self, scale: &S, contract: u32) -> u64
        ensures is { result ≡ leg_margin_of (meaning S.LegScale.leg_of S.CombinationScale.pair_of scale.now) (by_code (contracts_of (tables_of self.now)) contract) }
        ensures most { result ≤ 10 ^ 14 }
    {
        self.tables
            .listing
            .find(contract)
            .map_or(0, |listed| scale.leg(&listed.contract))
    }

    // Lots at a price; 0 where the contract is not listed.
    pub(crate) fn premium_of(&self, contract: u32, lots: Lots, price: Price) -> u64
        ensures reserve { result ≡ lots.number * (price.hao * unit_of (by_code (contracts_of (tables_of self.now)) contract)) }
        ensures premium { result ≡ premium_of (contracts_of (tables_of self.now)) contract lots.number price.hao }
        ensures most { result ≤ 10 ^ 16 }
    {
        lots.times(self.lot_at(contract, price))
    }

    // One lot at a price; 0 where the contract is not listed.
    fn lot_at(&self, contract: u32, price: Price) -> u64
        ensures is { result ≡ price.hao * unit_of (by_code (contracts_of (tables_of self.now)) contract) }
        ensures most { result ≤ 10 ^ 13 }
    {
        self.tables
            .listing
            .find(contract)
            .map_or(0, |listed| price.per_lot(&listed.contract))
    }

    // The fitted pair of a standing combination.
    pub(crate) fn fitted_pair(&self, combination: &Combination) -> FittedPair
        requires { Fitted (contracts_of (tables_of self.now)) (content_in combination.now) }
        ensures { PairOf (contracts_of (tables_of self.now)) combination.now result }
    {
        let Some(first) = self.tables.listing.find(combination.first) else {
            unreachable!()
        };
        let Some(second) = self.tables.listing.find(combination.second) else {
            unreachable!()
        };
        let Some(pair) = FittedPair::fit(combination.strategy, &first.contract, &second.contract)
        else {
            unreachable!()
        };
        pair
    }

    // The leg margin of the leg that a leg close leaves; 0 where that is bought.
    pub(crate) fn other_leg_margin<S: CombinationScale>(
        &self,
        scale: &S,
        combination: &Combination,
        leg: u32,
    ) -> u64
        ensures is { result ≡ other_leg_margin (meaning S.LegScale.leg_of S.CombinationScale.pair_of scale.now) (contracts_of (tables_of self.now)) leg (content_in combination.now) }
        ensures most { result ≤ 10 ^ 14 }
    {
        if !combination.strategy.first_written() {
            return 0;
        }
        let other = if leg == combination.first {
            combination.second
        } else {
            combination.first
        };
        self.leg_margin(scale, other)
    }

    // The reserve of one lot of a leg close.
    pub(crate) fn leg_close_reserve<S: CombinationScale>(
        &self,
        scale: &S,
        combination: &Combination,
        leg: u32,
        limit: Price,
    ) -> u64
        requires { Fitted (contracts_of (tables_of self.now)) (content_in combination.now) }
        ensures is { result ≡ leg_close_reserve (meaning S.LegScale.leg_of S.CombinationScale.pair_of scale.now) (contracts_of (tables_of self.now)) leg limit.hao (Just (content_in combination.now)) }
        ensures most { result ≤ 2 * 10 ^ 14 }
    {
        let pair = self.fitted_pair(combination);
        let needed = self.other_leg_margin(scale, combination, leg) + self.lot_at(leg, limit);
        needed.saturating_sub(scale.pair(&pair))
    }

    // The reserve of one lot of a working order.
    pub(crate) fn order_reserve<S: CombinationScale>(
        &self,
        scale: &S,
        kind: OrderKind,
        limit: Price,
    ) -> u64
        requires { AllFitted (tables_of self.now) }
        ensures is { result ≡ reserve_per_lot (meaning S.LegScale.leg_of S.CombinationScale.pair_of scale.now) (tables_of self.now) kind limit.hao }
        ensures most { result ≤ 2 * 10 ^ 14 }
    {
        match kind {
            OrderKind::SellOpen { contract } => self.leg_margin(scale, contract),
            OrderKind::BuyOpen { contract } | OrderKind::BuyClose { contract } => {
                self.lot_at(contract, limit)
            }
            OrderKind::SellClose { .. } => 0,
            OrderKind::LegClose {
                combination,
                contract,
            } => match register::find(&self.tables.combinations, combination) {
                Some(combination) => self.leg_close_reserve(scale, &combination, contract, limit),
                None => 0,
            },
        }
    }
}
