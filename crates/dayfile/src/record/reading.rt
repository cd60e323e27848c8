// Handing out a section's records, and judging one.
ghost use Rattle.std.specs.Prelude.{◌≡◌, ◌+◌, ◌<◌, ◌≤◌, true, length, OnOk};
ghost use Rattle.std.specs.Iterator.{at_most};
ghost use Rattle.std.specs.Option.{option_map};
ghost use Rattle.dayfile.specs.Faults.{fault as fault_of, record_told, Passed, breach_number, section_number};
ghost use Rattle.dayfile.specs.Fields.{breach as breach_of, fields_fault, all_inside, Kept};
ghost use Rattle.dayfile.specs.Reading.{Begins, Gives};

use super::{Reader, Record, Span};
use crate::bytes::read;
use crate::fault::{Breach, RecordFault};
use crate::field::{Column, Field, Rule};

impl<'a> Span<'a> {
    pub(crate) fn end(&self) -> usize
        ensures { result ≡ self.now.place + length self.now.bytes.now }
    {
        self.place + self.bytes.len()
    }

    pub(crate) fn records<const W: usize>(&self) -> Reader<'a, W>
        requires { (0 < W) × (W ≤ 60000) }
        ensures { Begins self.now result }
    {
        Reader {
            rest: *self,
            passed: 0,
        }
    }
}

impl<'a, const W: usize> Iterator for Reader<'a, W> {
    type Item = Record<'a, W>;

    ghost next_gives = { Gives };

    ghost remaining = { λ s. at_most (length s.rest.bytes.now) };

    fn next(&mut self) -> Option<Record<'a, W>> {
        let Span {
            section,
            bytes,
            place,
        } = self.rest;
        let (bytes, rest) = bytes.split_first_chunk()?;
        self.rest.bytes = rest;
        self.rest.place = place + W;
        self.passed += 1;
        Some(Record {
            section,
            bytes,
            place,
            ordinal: self.passed,
        })
    }
}

// What a value breaks of a rule, if anything.
fn breach(rule: Rule, n: u64) -> Option<Breach>
    ensures { option_map breach_number result ≡ breach_of rule n }
{
    match rule {
        Rule::Within { low, high } => (n < low || n > high).then_some(Breach::OutOfRange),
        Rule::Zero => (n != 0).then_some(Breach::NotZero),
        Rule::Any => None,
    }
}

impl<const W: usize> Record<'_, W> {
    // The fault of the field in a column.
    pub(crate) fn fault(&self, column: Column, breach: Breach) -> RecordFault
        requires { column.at ≤ W }
        ensures { record_told result ≡ fault_of (breach_number breach) (section_number self.now.section) self.now.ordinal (self.now.place + column.at) }
    {
        RecordFault {
            section: self.section,
            ordinal: self.ordinal,
            place: self.place + column.at,
            breach,
        }
    }

    // Whether each field keeps its rule, by place.
    pub(crate) fn check(&self, fields: &[Field]) -> Result<(), RecordFault>
        requires { all_inside W fields.now ≡ true }
        ensures fault { Passed (fields_fault self.now.bytes.now (section_number self.now.section) self.now.ordinal self.now.place fields.now) result }
        ensures kept { OnOk result (Kept self.now.bytes.now fields.now) }
    {
        let bytes = self.bytes;
        for field in fields {
            if let Some(breach) = breach(field.rule, read(bytes, field.column)) {
                return Err(self.fault(field.column, breach));
            }
        }
        Ok(())
    }
}
