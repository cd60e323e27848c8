// A listing is begun with one contract and grows by one at a time.
ghost use Rattle.std.specs.Prelude.{◌≡◌, true, [], ◌∷◌, length, MatchOption};
ghost use Rattle.std.specs.List.{list_any};
ghost use Rattle.margin.specs.Terms.{terms_of};
ghost use Rattle.margin.specs.Listed.{clashes as clash_of, rising_from, agreeing_after};
ghost use Rattle.margin.specs.Listing.{listed, listed_terms, Joins, Finds, BelowUpTo, FirstFrom};

use super::{Listed, Listing, ListingFault, MOST_CONTRACTS};
use crate::contract::Contract;

// The first codes are looked through in order, which is quicker than to halve the listing; those behind them are found by halving it.
const NEAR: usize = 16;

// Whether two contracts have one underlying, and another kind or close of it.
fn clash(earlier: &Contract, later: &Contract) -> bool
    ensures { result ≡ clash_of (terms_of earlier.now) (terms_of later.now) }
{
    earlier.underlying == later.underlying
        && (earlier.kind != later.kind || earlier.underlying_close != later.underlying_close)
}

// Whether one of the contracts clashes with a later one.
fn clashing(contracts: &[Contract], later: &Contract) -> bool
    ensures { result ≡ list_any (λ e. clash_of (terms_of e) (terms_of later.now)) contracts.now }
{
    contracts.iter().any(|earlier| clash(earlier, later))
}

// The place of the first contract whose code is not below one.
fn first_from(contracts: &[Contract], code: u32) -> Option<usize>
    ensures { MatchOption result (BelowUpTo contracts.now code (length contracts.now)) (FirstFrom contracts.now code) }
{
    contracts.iter().position(|contract| contract.code >= code)
}

impl Listing {
    // The listing of one contract.
    pub fn of(first: Contract) -> Listing
        ensures { listed result ≡ first ∷ [] }
    {
        Listing {
            contracts: [first; MOST_CONTRACTS],
            count: 1,
        }
    }

    // The listed contracts, by rising code.
    pub fn contracts(&self) -> &[Contract]
        ensures are { result.now ≡ listed self.now }
        ensures rising { rising_from 0 (listed_terms self.now) ≡ true }
        ensures agreeing { agreeing_after [] (listed_terms self.now) ≡ true }
    {
        let count = self.count;
        &self.contracts[0..count]
    }

    // The place of a code among the listed contracts, from 0, and its contract.
    pub fn find(&self, code: u32) -> Option<Listed>
        ensures { Finds (listed self.now) code result }
    {
        let contracts = self.contracts();
        if contracts.len() <= NEAR || code < contracts[NEAR].code {
            let place = first_from(contracts, code)?;
            let contract = contracts[place];
            if contract.code != code {
                return None;
            }
            return Some(Listed { place, contract });
        }
        match contracts.binary_search_by_key(&code, |contract| contract.code) {
            Ok(place) => Some(Listed {
                place,
                contract: contracts[place],
            }),
            Err(_) => None,
        }
    }

    // Lists one more contract behind the others.
    pub fn join(&mut self, next: Contract) -> Result<(), ListingFault>
        ensures { Joins self.old next result self.new }
    {
        let count = self.count;
        if count >= MOST_CONTRACTS {
            return Err(ListingFault::Full);
        }
        if next.code <= self.contracts[count - 1].code {
            return Err(ListingFault::CodeOrder);
        }
        if clashing(self.contracts(), &next) {
            return Err(ListingFault::UnderlyingClash);
        }
        self.contracts[count] = next;
        self.count = count + 1;
        Ok(())
    }
}
