// A day file with its calls at hand, so that they are handed out without its bytes.
ghost use Rattle.std.specs.Prelude.{◌≡◌, length};
ghost use Rattle.std.specs.Iterator.{at_most};
ghost use Rattle.dayfile.specs.Read.{ViewedAs, OwnViewed, GivesCall};

use super::{Calls, CallsIn, DayFile, DayFileView};
use crate::fault::FileFault;
use ledger::call::Call;

impl<'a> DayFileView<'a> {
    // Judges the bytes as `DayFile::read` does, and keeps hold of those of the calls.
    pub fn read(bytes: &'a [u8]) -> Result<DayFileView<'a>, FileFault>
        ensures { ViewedAs bytes.now result }
    {
        let file = DayFile::read(bytes)?;
        let calls = file.calls(bytes).rest;
        Ok(DayFileView { file, calls })
    }

    // The file alone, which does not hold the bytes.
    pub fn file(&self) -> &DayFile
        ensures { result.now ≡ self.now.file }
    {
        &self.file
    }

    // The calls, one after another.
    pub fn calls(&self) -> Calls<'a>
        ensures are { result.rest.now ≡ self.now.calls.now }
        ensures own { OwnViewed self.now result.rest.now }
    {
        Calls { rest: self.calls }
    }
}

impl Iterator for Calls<'_> {
    type Item = Call;

    ghost next_gives = { GivesCall };

    ghost remaining = { λ s. at_most (length s.rest.now) };

    fn next(&mut self) -> Option<Call> {
        let mut left = CallsIn { rest: self.rest };
        let call = left.next()?;
        self.rest = left.rest;
        Some(call)
    }
}
