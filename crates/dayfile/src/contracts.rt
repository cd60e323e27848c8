// The contracts of a day, each judged as it is listed.
ghost use Rattle.std.specs.Prelude.{◌≡◌, ℕ, List, ◌+◌, ◌<◌, ◌≤◌, [], ◌∷◌, ◌++◌, length, IfOk, OnOk};
ghost use Rattle.margin.specs.Terms.{terms_of};
ghost use Rattle.margin.specs.Listing.{listed, listed_terms};
ghost use Rattle.dayfile.specs.declared.fault.Section.TheVariants.{Contracts as IsContracts};
ghost use Rattle.dayfile.specs.Faults.{Passed, section_number, first as first_fault};
ghost use Rattle.dayfile.specs.Fields.{fields_fault, Kept};
ghost use Rattle.dayfile.specs.Layout.{contract_fields};
ghost use Rattle.dayfile.specs.Records.{terms_in};
ghost use Rattle.dayfile.specs.Format.{day_of, listing_fault};
ghost use Rattle.dayfile.specs.Located.{SpanOf, ListedFrom};

use crate::bytes::read;
use crate::fault::{Breach, RecordFault, SectionFault};
use crate::field::{Column, Field};
use crate::record::{Record, Span};
use crate::sections::CONTRACT;
use ledger::settings::Settings;
use margin::contract::{Contract, HIGHEST_PRICE, Kind, Right};
use margin::listing::{Listing, ListingFault};

const CODE: Column = Column { at: 0, width: 4 };

const UNDERLYING: Column = Column { at: 4, width: 4 };

const EXPIRY: Column = Column { at: 8, width: 2 };

const RIGHT: Column = Column { at: 10, width: 1 };

const KIND: Column = Column { at: 11, width: 1 };

const UNIT: Column = Column { at: 12, width: 4 };

const STRIKE: Column = Column { at: 16, width: 4 };

const SETTLEMENT: Column = Column { at: 20, width: 4 };

const UNDERLYING_CLOSE: Column = Column { at: 24, width: 4 };

const LISTED_MARGIN: Column = Column { at: 28, width: 4 };

// A contract does not expire before the day.
fn fields(day: u16) -> [Field; 10]
    ensures { result ≡ contract_fields day }
{
    [
        Field::within(CODE, 10_000_000, 99_999_999),
        Field::within(UNDERLYING, 1, 999_999),
        Field::within(EXPIRY, u64::from(day), 65_535),
        Field::within(RIGHT, 1, 2),
        Field::within(KIND, 1, 2),
        Field::within(UNIT, 1, 1_000_000),
        Field::within(STRIKE, 1, HIGHEST_PRICE),
        Field::within(SETTLEMENT, 1, HIGHEST_PRICE),
        Field::within(UNDERLYING_CLOSE, 1, HIGHEST_PRICE),
        Field::within(LISTED_MARGIN, 0, 4_294_967_295),
    ]
}

// The contract of a record whose fields keep their rules.
fn contract_in(source: &Record<CONTRACT>, day: u16) -> Contract
    requires day { 1 ≤ day }
    requires kept { Kept source.now.bytes.now (contract_fields day) }
    ensures { terms_of result ≡ terms_in source.now.bytes.now }
{
    let bytes = source.bytes;
    let Ok(right) = Right::try_from(read(bytes, RIGHT) as u8) else {
        unreachable!()
    };
    let Ok(kind) = Kind::try_from(read(bytes, KIND) as u8) else {
        unreachable!()
    };
    Contract {
        code: read(bytes, CODE) as u32,
        underlying: read(bytes, UNDERLYING) as u32,
        expiry: read(bytes, EXPIRY) as u16,
        right,
        kind,
        unit: read(bytes, UNIT) as u32,
        strike: read(bytes, STRIKE) as u32,
        settlement: read(bytes, SETTLEMENT) as u32,
        underlying_close: read(bytes, UNDERLYING_CLOSE) as u32,
        listed_margin: read(bytes, LISTED_MARGIN) as u32,
    }
}

fn contract(source: &Record<CONTRACT>, settings: &Settings) -> Result<Contract, RecordFault>
    ensures fault { Passed (fields_fault source.now.bytes.now (section_number source.now.section) source.now.ordinal source.now.place (contract_fields settings.now.day)) result }
    ensures said { IfOk result (λ c. terms_of c ≡ terms_in source.now.bytes.now) }
{
    let day = settings.day;
    source.check(&fields(day))?;
    Ok(contract_in(source, day))
}

// Lists the contract of a record behind the others.
fn list(
    source: &Record<CONTRACT>,
    contract: Contract,
    listing: &mut Listing,
) -> Result<(), RecordFault>
    requires { length (listed listing.old) < 64 }
    ensures fault { Passed (listing_fault (listed_terms listing.old) (terms_of contract) (section_number source.now.section) source.now.ordinal source.now.place) result }
    ensures joined { OnOk result (listed_terms listing.new ≡ listed_terms listing.old ++ terms_of contract ∷ []) }
{
    match listing.join(contract) {
        Ok(()) => Ok(()),
        Err(ListingFault::CodeOrder) => Err(source.fault(CODE, Breach::CodeOrder)),
        Err(ListingFault::UnderlyingClash) => Err(source.fault(
            UNDERLYING,
            Breach::UnderlyingClash,
        )),
        Err(ListingFault::Full) => unreachable!(),
    }
}

// Judges a record that stands behind the listed contracts, and lists its contract.
fn judge(
    source: &Record<CONTRACT>,
    settings: &Settings,
    listing: &mut Listing,
) -> Result<(), RecordFault>
    requires { length (listed listing.old) < 64 }
    ensures fault { Passed (first_fault (fields_fault source.now.bytes.now (section_number source.now.section) source.now.ordinal source.now.place (contract_fields settings.now.day)) (listing_fault (listed_terms listing.old) (terms_in source.now.bytes.now) (section_number source.now.section) source.now.ordinal source.now.place)) result }
    ensures joined { OnOk result (listed_terms listing.new ≡ listed_terms listing.old ++ terms_in source.now.bytes.now ∷ []) }
{
    let contract = contract(source, settings)?;
    list(source, contract, listing)
}

// The listing of a file whose contracts section this is.
pub(crate) fn listing(span: &Span, settings: &Settings) -> Result<Listing, SectionFault>
    requires some { 32 ≤ length span.now.bytes.now }
    requires few { length span.now.bytes.now ≤ 2048 }
    ensures { (bytes : List ℕ) → SpanOf bytes IsContracts span.now → settings.now.day ≡ day_of bytes → ListedFrom bytes result }
{
    let mut records = span.records::<CONTRACT>();
    let Some(first) = records.next() else {
        unreachable!()
    };
    let mut listing = Listing::of(contract(&first, settings)?);
    for found in records {
        judge(&found, settings, &mut listing)?;
    }
    Ok(listing)
}
