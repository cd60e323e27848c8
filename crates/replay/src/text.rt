// The lines of a report as text.
ghost use Rattle.std.specs.Prelude.{◌≡◌, IfOk, Some as Just};
ghost use Rattle.dayfile.specs.Text.{fault_text};
ghost use Rattle.replay.specs.Text.{opening_text, call_text, end_text, report_text, line as line_of};

use crate::report::{CallLine, EndLine, OpeningLine, Report};
use dayfile::fault::Fault;
use std::alloc::{AllocError, Global};
use std::fmt;

impl fmt::Display for OpeningLine {
    ghost output = { λ x. Just (opening_text x) };

    fn fmt<W: fmt::Write>(&self, f: &mut fmt::Formatter<W>) -> fmt::Result {
        write!(
            f,
            "day {} contracts {} balance {}",
            self.day, self.contracts, self.balance
        )
    }
}

impl fmt::Display for CallLine {
    ghost output = { λ x. Just (call_text x) };

    fn fmt<W: fmt::Write>(&self, f: &mut fmt::Formatter<W>) -> fmt::Result {
        let place = self.place;
        let name = self.call.name();
        let balance = self.balance;
        match self.outcome {
            Ok(number) => write!(f, "{place} {name} taken {number} {balance}"),
            Err(refusal) => write!(f, "{place} {name} refused {} {balance}", refusal.number()),
        }
    }
}

impl fmt::Display for EndLine {
    ghost output = { λ x. Just (end_text x) };

    fn fmt<W: fmt::Write>(&self, f: &mut fmt::Formatter<W>) -> fmt::Result {
        write!(
            f,
            "end {} {} {} {}",
            self.balance, self.held, self.reserves, self.cash
        )
    }
}

// Line by line.
impl fmt::Display for Report {
    ghost output = { λ x. Just (report_text x) };

    fn fmt<W: fmt::Write>(&self, f: &mut fmt::Formatter<W>) -> fmt::Result {
        writeln!(f, "{}", self.opening)?;
        for line in &self.calls {
            writeln!(f, "{line}")?;
        }
        writeln!(f, "{}", self.end)
    }
}

impl Report {
    // The whole report as text.
    pub fn text(&self, heap: Global) -> Result<Vec<u8>, AllocError>
        ensures { IfOk result (λ s. s.items ≡ report_text self.now) }
    {
        Ok(self.to_string(heap)?.into_bytes())
    }
}

// The line of a fault.
pub(crate) fn fault_line(heap: Global, fault: &Fault) -> Result<Vec<u8>, AllocError>
    ensures { IfOk result (λ text. text.items ≡ line_of (fault_text fault.now)) }
{
    Ok(format!(in heap; "{fault}\n")?.into_bytes())
}
