// Where the three sections stand.
ghost use Rattle.std.specs.Prelude.{◌≡◌, ◌+◌, ◌^◌, ◌<◌, ◌≤◌, length, IfOk};
ghost use Rattle.dayfile.specs.Bytes.{value};
ghost use Rattle.dayfile.specs.Layout.{column};
ghost use Rattle.dayfile.specs.Faults.{SectionPassed, section_number, length_place};
ghost use Rattle.dayfile.specs.Format.{pair_fault, faulty, bad_length, sections_fault};
ghost use Rattle.dayfile.specs.Located.{SpanOf, Located};

use crate::bytes::read;
use crate::fault::{Section, SectionFault};
use crate::field::Column;
use crate::record::Span;
use margin::listing::MOST_CONTRACTS;

// The three pairs, eight bytes each, begin a file; it has no fewer.
pub(crate) const PAIRS: usize = 24;

pub(crate) const SETTINGS: usize = 20;

pub(crate) const CONTRACT: usize = 32;

pub(crate) const CALL: usize = 24;

#[derive(Clone, Copy)]
pub(crate) struct Sections<'a> {
    pub(crate) settings: Span<'a>,
    pub(crate) contracts: Span<'a>,
    pub(crate) calls: Span<'a>,
}

// The number that four bytes of the pairs are.
fn four(bytes: &[u8], at: usize) -> usize
    requires { at + 4 ≤ length bytes.now }
    ensures is { result ≡ value bytes.now (column at 4) }
    ensures bound { result < 2 ^ 32 }
{
    read(bytes, Column { at, width: 4 }) as usize
}

// The span of a section; the section before it ends at `previous`.
fn span(bytes: &[u8], section: Section, previous: usize) -> Result<Span<'_>, SectionFault>
    requires low { 24 ≤ length bytes.now }
    requires high { length bytes.now ≤ 60000 }
    ensures fault { SectionPassed (pair_fault bytes.now section previous) result }
    ensures said { IfOk result (λ span. SpanOf bytes.now section span) }
{
    let start = four(bytes, section.pair_place());
    let end = start + four(bytes, section.length_place());
    if start < PAIRS || start < previous || end > bytes.len() {
        return Err(SectionFault::Pair(section));
    }
    Ok(Span {
        section,
        bytes: &bytes[start..end],
        place: start,
    })
}

fn check_length(span: &Span) -> Result<(), SectionFault>
    ensures { SectionPassed (faulty (bad_length span.now.section (length span.now.bytes.now)) 3 (section_number span.now.section) 0 (length_place span.now.section)) result }
{
    let extent = span.bytes.len();
    let bad = match span.section {
        Section::Settings => extent != SETTINGS,
        Section::Contracts => extent % CONTRACT != 0
            || extent < CONTRACT
            || extent > MOST_CONTRACTS * CONTRACT,
        Section::Calls => extent % CALL != 0,
    };
    if bad {
        return Err(SectionFault::Length(span.section));
    }
    Ok(())
}

// The three pairs, and then the three lengths.
pub(crate) fn locate(bytes: &[u8]) -> Result<Sections<'_>, SectionFault>
    requires low { 24 ≤ length bytes.now }
    requires high { length bytes.now ≤ 60000 }
    ensures fault { SectionPassed (sections_fault bytes.now) result }
    ensures said { IfOk result (λ s. Located bytes.now s) }
{
    let settings = span(bytes, Section::Settings, 0)?;
    let contracts = span(bytes, Section::Contracts, settings.end())?;
    let calls = span(bytes, Section::Calls, contracts.end())?;
    check_length(&settings)?;
    check_length(&contracts)?;
    check_length(&calls)?;
    Ok(Sections {
        settings,
        contracts,
        calls,
    })
}
