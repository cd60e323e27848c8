// A fault as text.
ghost use Rattle.std.specs.Prelude.{Some as Just};
ghost use Rattle.dayfile.specs.Text.{fault_text};

use crate::fault::Fault;
use std::fmt;

impl fmt::Display for Fault {
    ghost output = { λ x. Just (fault_text x) };

    fn fmt<W: fmt::Write>(&self, f: &mut fmt::Formatter<W>) -> fmt::Result {
        let number = self.number;
        let section = self.section;
        let ordinal = self.ordinal;
        let place = self.place;
        write!(
            f,
            "fault {number} section {section} record {ordinal} place {place}"
        )
    }
}
