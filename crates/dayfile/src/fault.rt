// What is wrong with a day file: a record's fault within a section's, and that within the file's.
ghost use Rattle.std.specs.Prelude.{◌≡◌};
ghost use Rattle.dayfile.specs.Faults.{section_number, pair_place, length_place, breach_number, record_told, section_told, file_told};
ghost use Rattle.dayfile.specs.declared.fault.SectionFault.TheVariants.{Record as InRecord};
ghost use Rattle.dayfile.specs.declared.fault.FileFault.TheVariants.{Section as InSection};

#[derive(Clone, Copy, PartialEq, Eq)]
pub enum Section {
    Settings = 1,
    Contracts = 2,
    Calls = 3,
}

// The rule that a record breaks.
#[derive(Clone, Copy, PartialEq, Eq)]
pub enum Breach {
    OutOfRange = 4,
    CodeOrder = 5,
    UnderlyingClash = 6,
    NotZero = 7,
}

// A record is known by its section and its ordinal there, from 1; the place is the field's, in the file.
#[derive(Clone, Copy)]
pub struct RecordFault {
    pub section: Section,
    pub ordinal: usize,
    pub place: usize,
    pub breach: Breach,
}

// The pair of offset and length is out of order, the length is not one of whole records, or a record is at fault.
#[derive(Clone, Copy)]
pub enum SectionFault {
    Pair(Section),
    Length(Section),
    Record(RecordFault),
}

#[derive(Clone, Copy)]
pub enum FileFault {
    Size,
    Section(SectionFault),
}

// The four numbers of a fault: its number, the section (0 for the file), the record there (from 1, else 0) and the byte's place.
// By rule a fault is told by these numbers, the 0s among them: the faults above are the enums that they are made from.
#[derive(Clone, Copy, PartialEq, Eq)]
pub struct Fault {
    pub number: u8,
    pub section: u8,
    pub ordinal: usize,
    pub place: usize,
}

impl From<RecordFault> for SectionFault {
    ghost from_gives = { λ e r. r ≡ InRecord e };

    fn from(fault: RecordFault) -> SectionFault {
        SectionFault::Record(fault)
    }
}

impl From<SectionFault> for FileFault {
    ghost from_gives = { λ e r. r ≡ InSection e };

    fn from(fault: SectionFault) -> FileFault {
        FileFault::Section(fault)
    }
}

impl From<RecordFault> for Fault {
    ghost from_gives = { λ e r. r ≡ record_told e };

    fn from(fault: RecordFault) -> Fault {
        Fault {
            number: fault.breach.number(),
            section: fault.section.number(),
            ordinal: fault.ordinal,
            place: fault.place,
        }
    }
}

impl From<SectionFault> for Fault {
    ghost from_gives = { λ e r. r ≡ section_told e };

    fn from(fault: SectionFault) -> Fault {
        match fault {
            SectionFault::Pair(section) => Fault {
                number: 2,
                section: section.number(),
                ordinal: 0,
                place: section.pair_place(),
            },
            SectionFault::Length(section) => Fault {
                number: 3,
                section: section.number(),
                ordinal: 0,
                place: section.length_place(),
            },
            SectionFault::Record(inner) => Fault::from(inner),
        }
    }
}

impl From<FileFault> for Fault {
    ghost from_gives = { λ e r. r ≡ file_told e };

    fn from(fault: FileFault) -> Fault {
        match fault {
            FileFault::Size => Fault {
                number: 1,
                section: 0,
                ordinal: 0,
                place: 0,
            },
            FileFault::Section(inner) => Fault::from(inner),
        }
    }
}

impl Section {
    // A cast under its name, as in the other enums with numbers: `u8::from` would be no plainer.
    pub fn number(self) -> u8
        ensures { result ≡ section_number self }
    {
        self as u8
    }

    // Where the section's pair of offset and length stands.
    pub(crate) fn pair_place(self) -> usize
        ensures { result ≡ pair_place self }
    {
        match self {
            Section::Settings => 0,
            Section::Contracts => 8,
            Section::Calls => 16,
        }
    }

    // Where the length stands in that pair.
    pub(crate) fn length_place(self) -> usize
        ensures { result ≡ length_place self }
    {
        self.pair_place() + 4
    }
}

impl Breach {
    // As above: `u8::from` would be no plainer.
    pub fn number(self) -> u8
        ensures { result ≡ breach_number self }
    {
        self as u8
    }
}
