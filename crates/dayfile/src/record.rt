// The sections of a file and their records, each a part of the caller's bytes with its place in the file.
ghost use Rattle.std.specs.Prelude.{◌≡◌, ◌+◌, ◌<◌, ◌≤◌, length};

use crate::fault::Section;

pub mod reading;

// A section: its bytes, and where they stand.
#[derive(Clone, Copy)]
pub(crate) struct Span<'a> {
    pub(crate) section: Section,
    pub(crate) bytes: &'a [u8],
    pub(crate) place: usize,
    ghost in_file: { place + length bytes.now ≤ 60000 },
}

// What is left of a section of records of W bytes, and how many records came before.
#[derive(Drop)]
pub(crate) struct Reader<'a, const W: usize> {
    pub(crate) rest: Span<'a>,
    pub(crate) passed: usize,
    ghost wide: { (0 < W) × (W ≤ 60000) },
    ghost counted: { passed ≤ rest.place },
}

// A record of W bytes: its section, its bytes, where they stand, and its ordinal in the section, from 1.
#[derive(Clone, Copy)]
pub(crate) struct Record<'a, const W: usize> {
    pub(crate) section: Section,
    pub(crate) bytes: &'a [u8; W],
    pub(crate) place: usize,
    pub(crate) ordinal: usize,
    ghost in_file: { place + W ≤ 60000 },
}
