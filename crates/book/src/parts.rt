// Checks and checked values that several calls share.
ghost use Rattle.std.specs.Prelude.{◌≡◌, ◌+◌, ◌-◌, ◌*◌, ◌^◌, ◌≤◌, [], ◌∷◌, IfOk, nat_lt};
ghost use Rattle.ledger.specs.Law.{contracts_of};
ghost use Rattle.ledger.specs.Tests.{bad_account, bad_lots, bad_price, not_listed};
ghost use Rattle.book.specs.Book.{tables_of};
ghost use Rattle.book.specs.Checks.{Passes, Found};

use crate::Book;
use ledger::refusal::Refusal;
use margin::contract::{Contract, HIGHEST_PRICE};
use margin::listing::Listed;

const ACCOUNTS: u8 = 8;

// The lots that one call moves.
const MOST_LOTS_MOVED: u32 = 1_000;

// The cash total never passes this, in hao.
pub(crate) const MOST_CASH: u64 = 100_000_000_000_000_000;

// Accounts are 1 to 8.
pub(crate) fn check_account(account: u8) -> Result<(), Refusal>
    ensures { Passes (bad_account account ∷ []) result }
{
    if account < 1 || account > ACCOUNTS {
        return Err(Refusal::NoSuchAccount);
    }
    Ok(())
}

// Lots that a call moves: 1 to 1,000.
#[derive(Clone, Copy)]
pub(crate) struct Lots {
    pub(crate) number: u32,
    ghost some: { 1 ≤ number },
    ghost most: { number ≤ 1000 },
}

impl Lots {
    pub(crate) fn new(number: u32) -> Result<Lots, Refusal>
        ensures tests { Passes (bad_lots number ∷ []) result }
        ensures is { IfOk result (λ lots. lots.number ≡ number) }
    {
        if number < 1 || number > MOST_LOTS_MOVED {
            return Err(Refusal::LotsOutOfRange);
        }
        Ok(Lots { number })
    }

    // An amount per lot, over all lots.
    pub(crate) fn times(self, per_lot: u64) -> u64
        requires per_lot { per_lot ≤ 2 * 10 ^ 14 }
        ensures is { result ≡ self.number * per_lot }
        ensures most { result ≤ 2 * 10 ^ 17 }
    {
        u64::from(self.number) * per_lot
    }
}

// A price of 1 to 10,000,000 hao.
#[derive(Clone, Copy)]
pub(crate) struct Price {
    pub(crate) hao: u64,
    ghost some: { 1 ≤ hao },
    ghost most: { hao ≤ 10 ^ 7 },
}

impl Price {
    pub(crate) fn new(hao: u64) -> Result<Price, Refusal>
        ensures tests { Passes (bad_price hao ∷ []) result }
        ensures is { IfOk result (λ price. price.hao ≡ hao) }
    {
        if hao < 1 || hao > HIGHEST_PRICE {
            return Err(Refusal::PriceOutOfRange);
        }
        Ok(Price { hao })
    }

    // One lot at this price, over all units of the contract, in hao.
    pub(crate) fn per_lot(self, contract: &Contract) -> u64
        ensures is { result ≡ self.hao * contract.now.unit }
        ensures most { result ≤ 10 ^ 13 }
    {
        self.hao * u64::from(contract.unit)
    }
}

// Whether that many of the lots owned are not locked.
pub(crate) fn check_free(owned: u32, locked: u32, lots: Lots) -> Result<(), Refusal>
    ensures { Passes ((18, nat_lt (owned - locked) lots.number) ∷ []) result }
{
    if u64::from(owned) < u64::from(locked) + u64::from(lots.number) {
        return Err(Refusal::TooFewLots);
    }
    Ok(())
}

impl Book {
    // A listed contract and its place.
    pub(crate) fn listed(&self, contract: u32) -> Result<Listed, Refusal>
        ensures tests { Passes (not_listed (tables_of self.now) contract ∷ []) result }
        ensures found { IfOk result (λ listed. Found (contracts_of (tables_of self.now)) contract listed) }
    {
        self.tables.listing.find(contract).ok_or(Refusal::NotListed)
    }
}
