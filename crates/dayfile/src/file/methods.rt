// Reading a day file, and what it says.
ghost use Rattle.std.specs.Prelude.{◌≡◌, ◌*◌, length};
ghost use Rattle.std.specs.Iterator.{at_most};
ghost use Rattle.dayfile.specs.Bytes.{part};
ghost use Rattle.dayfile.specs.Numbered.{Numbered};
ghost use Rattle.dayfile.specs.Read.{ReadAs, Says, call_of, OwnCall, OwnCalls, GivesCallIn};

use super::{CallsIn, DayFile};
use crate::call::parse::{call as parse_call, check_all};
use crate::contracts::listing;
use crate::fault::FileFault;
use crate::sections::{CALL, PAIRS, locate};
use crate::settings::parse::settings;
use ledger::call::Call;
use ledger::settings::Settings;
use margin::listing::Listing;

const MOST: usize = 60_000;

impl DayFile {
    // Judges the bytes in the order of the format, and tells the first fault or what they say.
    pub fn read(bytes: &[u8]) -> Result<DayFile, FileFault>
        ensures { ReadAs bytes.now result }
    {
        if bytes.len() < PAIRS || bytes.len() > MOST {
            return Err(FileFault::Size);
        }
        let sections = locate(bytes)?;
        let settings = settings(&sections.settings)?;
        let listing = listing(&sections.contracts, &settings)?;
        check_all(&sections.calls)?;
        Ok(DayFile {
            settings,
            listing,
            calls: sections.calls.place,
            call_count: sections.calls.bytes.len() / CALL,
        })
    }

    pub fn settings(&self) -> Settings
        ensures { result ≡ self.now.settings }
    {
        self.settings
    }

    pub fn listing(&self) -> &Listing
        ensures { result.now ≡ self.now.listing }
    {
        &self.listing
    }

    pub fn call_count(&self) -> usize
        ensures { result ≡ self.now.call_count }
    {
        self.call_count
    }

    // The call at `k`, counted from 0. `bytes` are those that the file was read from.
    pub fn call(&self, bytes: &[u8], k: usize) -> Option<Call>
        ensures is { result ≡ call_of self.now bytes.now k }
        ensures own { OwnCall self.now bytes.now k result }
    {
        if k >= self.call_count {
            return None;
        }
        let place = self.calls + CALL * k;
        let (record, _) = bytes.get(place..)?.split_first_chunk()?;
        Some(parse_call(record))
    }

    // The calls, one after another, as far as the bytes reach. `bytes` are those that the file was read from.
    pub fn calls<'a>(&self, bytes: &'a [u8]) -> CallsIn<'a>
        ensures are { result.rest.now ≡ part bytes.now self.now.calls (24 * self.now.call_count) }
        ensures own { OwnCalls self.now bytes.now result.rest.now }
        ensures numbered { Says bytes.now self.now → Numbered result.rest.now }
    {
        let behind = &bytes[self.calls.min(bytes.len())..];
        CallsIn {
            rest: &behind[..(CALL * self.call_count).min(behind.len())],
        }
    }
}

impl Iterator for CallsIn<'_> {
    type Item = Call;

    ghost next_gives = { GivesCallIn };

    ghost remaining = { λ s. at_most (length s.rest.now) };

    fn next(&mut self) -> Option<Call> {
        let (record, rest) = self.rest.split_first_chunk()?;
        self.rest = rest;
        Some(parse_call(record))
    }
}
