// The settings record.
ghost use Rattle.std.specs.Prelude.{◌≡◌, ◌<◌, length, IfOk};
ghost use Rattle.dayfile.specs.Faults.{SectionPassed, section_number};
ghost use Rattle.dayfile.specs.Fields.{fields_fault, Kept, values};
ghost use Rattle.dayfile.specs.Layout.{settings_fields};
ghost use Rattle.dayfile.specs.Records.{settings_numbers};

use crate::bytes::read;
use crate::fault::SectionFault;
use crate::field::{Column, Field};
use crate::record::{Record, Span};
use crate::sections::SETTINGS;
use ledger::settings::{BaseScale, Settings};
use margin::percent::Percent;

const SCALE: Column = Column { at: 0, width: 1 };

const FIRST_RAISE: Column = Column { at: 1, width: 1 };

const SECOND_RAISE: Column = Column { at: 2, width: 1 };

const PERMITTED: Column = Column { at: 3, width: 1 };

const FIRST_NUMBER: Column = Column { at: 4, width: 4 };

const OPENING: Column = Column { at: 8, width: 8 };

const DAY: Column = Column { at: 16, width: 2 };

const SPARE: Column = Column { at: 18, width: 2 };

fn fields() -> [Field; 8]
    ensures { result ≡ settings_fields }
{
    [
        Field::within(SCALE, 1, 2),
        Field::within(FIRST_RAISE, 0, 100),
        Field::within(SECOND_RAISE, 0, 100),
        Field::within(PERMITTED, 0, 63),
        Field::within(FIRST_NUMBER, 1, 4_294_967_295),
        Field::within(OPENING, 0, 10_000_000_000_000_000),
        Field::within(DAY, 1, 65_535),
        Field::zero(SPARE),
    ]
}

// The settings of a record whose fields keep their rules.
fn settings_in(source: &Record<SETTINGS>) -> Settings
    requires { Kept source.now.bytes.now settings_fields }
    ensures { settings_numbers result ≡ values source.now.bytes.now settings_fields }
{
    let bytes = source.bytes;
    let Ok(scale) = BaseScale::try_from(read(bytes, SCALE) as u8) else {
        unreachable!()
    };
    Settings {
        scale,
        first_raise: Percent {
            value: read(bytes, FIRST_RAISE) as u8,
        },
        second_raise: Percent {
            value: read(bytes, SECOND_RAISE) as u8,
        },
        permitted: read(bytes, PERMITTED) as u8,
        first_number: read(bytes, FIRST_NUMBER) as u32,
        opening: read(bytes, OPENING),
        day: read(bytes, DAY) as u16,
    }
}

// The settings of a file whose settings section this is.
pub(crate) fn settings(span: &Span) -> Result<Settings, SectionFault>
    requires { length span.now.bytes.now ≡ 20 }
    ensures fault { SectionPassed (fields_fault span.now.bytes.now (section_number span.now.section) 1 span.now.place settings_fields) result }
    ensures said { IfOk result (λ s. settings_numbers s ≡ values span.now.bytes.now settings_fields) }
{
    let Some(found) = span.records::<SETTINGS>().next() else {
        unreachable!()
    };
    found.check(&fields())?;
    Ok(settings_in(&found))
}
