// The record of a call.
ghost use Rattle.std.specs.Prelude.{◌≡◌, ℕ, List};
ghost use Rattle.ledger.specs.Calls.{kind_number};
ghost use Rattle.dayfile.specs.declared.fault.Section.TheVariants.{Calls as IsCalls};
ghost use Rattle.dayfile.specs.Faults.{Passed, SectionPassed, section_number};
ghost use Rattle.dayfile.specs.Layout.{use_rule, argument_fields, names_of};
ghost use Rattle.dayfile.specs.Records.{call_in};
ghost use Rattle.dayfile.specs.Format.{count_of_calls, call_record_fault, call_fault, first_below};
ghost use Rattle.dayfile.specs.Located.{SpanOf};

use super::Named;
use crate::bytes::read;
use crate::fault::{RecordFault, SectionFault};
use crate::field::{Column, Field, Rule};
use crate::record::{Record, Span};
use crate::sections::CALL;
use ledger::call::{Call, CallKind};

const NUMBER: Column = Column { at: 0, width: 1 };

const ACCOUNT: Column = Column { at: 1, width: 1 };

const STRATEGY: Column = Column { at: 2, width: 1 };

const SPARE: Column = Column { at: 3, width: 1 };

const A: Column = Column { at: 4, width: 4 };

const B: Column = Column { at: 8, width: 4 };

const LOTS: Column = Column { at: 12, width: 4 };

const AMOUNT: Column = Column { at: 16, width: 8 };

const NONE: Named = Named {
    account: false,
    strategy: false,
    a: false,
    b: false,
    lots: false,
    amount: false,
};

// Lots of the contract, order or combination that A is, and those at a limit or a price.
const LOTS_OF_A: Named = Named {
    a: true,
    lots: true,
    ..NONE
};

const AT_A_PRICE: Named = Named {
    amount: true,
    ..LOTS_OF_A
};

fn names(kind: CallKind) -> Named
    ensures { result ≡ names_of (kind_number kind) }
{
    match kind {
        CallKind::Deposit | CallKind::Withdraw => Named {
            amount: true,
            ..NONE
        },
        CallKind::SellOpen | CallKind::BuyOpen | CallKind::BuyClose | CallKind::SellClose => Named {
            account: true,
            ..AT_A_PRICE
        },
        CallKind::LegClose => Named {
            b: true,
            ..AT_A_PRICE
        },
        CallKind::Fill => AT_A_PRICE,
        CallKind::Cancel => Named { a: true, ..NONE },
        CallKind::Combine => Named {
            account: true,
            strategy: true,
            b: true,
            ..LOTS_OF_A
        },
        CallKind::Release => LOTS_OF_A,
    }
}

fn used(named: bool, column: Column) -> Field
    ensures { result ≡ record { column = column; rule = use_rule named } }
{
    let rule = if named { Rule::Any } else { Rule::Zero };
    Field { column, rule }
}

fn arguments(named: Named) -> [Field; 7]
    ensures { result ≡ argument_fields named }
{
    [
        used(named.account, ACCOUNT),
        used(named.strategy, STRATEGY),
        Field::zero(SPARE),
        used(named.a, A),
        used(named.b, B),
        used(named.lots, LOTS),
        used(named.amount, AMOUNT),
    ]
}

fn check(source: &Record<CALL>) -> Result<(), RecordFault>
    ensures { Passed (call_record_fault source.now.bytes.now (section_number source.now.section) source.now.ordinal source.now.place) result }
{
    source.check(&[Field::within(NUMBER, 1, 11)])?;
    let bytes = source.bytes;
    let Ok(kind) = CallKind::try_from(read(bytes, NUMBER) as u8) else {
        unreachable!()
    };
    source.check(&arguments(names(kind)))
}

// Whether each record of the calls is sound.
pub(crate) fn check_all(span: &Span) -> Result<(), SectionFault>
    ensures { (bytes : List ℕ) → SpanOf bytes IsCalls span.now → SectionPassed (first_below (count_of_calls bytes) (call_fault bytes)) result }
{
    for found in span.records::<CALL>() {
        check(&found)?;
    }
    Ok(())
}

// The call of a record. In a sound file it has the number of one; in other bytes a number beyond is read as the last of them.
pub(crate) fn call(bytes: &[u8; CALL]) -> Call
    ensures { result ≡ call_in bytes.now }
{
    let account = read(bytes, ACCOUNT) as u8;
    let strategy = read(bytes, STRATEGY) as u8;
    let a = read(bytes, A) as u32;
    let b = read(bytes, B) as u32;
    let lots = read(bytes, LOTS) as u32;
    let amount = read(bytes, AMOUNT);
    let kind = CallKind::try_from(read(bytes, NUMBER) as u8).unwrap_or(CallKind::Release);
    match kind {
        CallKind::Deposit => Call::Deposit { amount },
        CallKind::Withdraw => Call::Withdraw { amount },
        CallKind::SellOpen => Call::SellOpen {
            account,
            contract: a,
            lots,
            limit: amount,
        },
        CallKind::BuyOpen => Call::BuyOpen {
            account,
            contract: a,
            lots,
            limit: amount,
        },
        CallKind::BuyClose => Call::BuyClose {
            account,
            contract: a,
            lots,
            limit: amount,
        },
        CallKind::SellClose => Call::SellClose {
            account,
            contract: a,
            lots,
            limit: amount,
        },
        CallKind::LegClose => Call::LegClose {
            combination: a,
            leg: b,
            lots,
            limit: amount,
        },
        CallKind::Fill => Call::Fill {
            order: a,
            lots,
            price: amount,
        },
        CallKind::Cancel => Call::Cancel { order: a },
        CallKind::Combine => Call::Combine {
            account,
            strategy,
            first: a,
            second: b,
            lots,
        },
        CallKind::Release => Call::Release {
            combination: a,
            lots,
        },
    }
}
