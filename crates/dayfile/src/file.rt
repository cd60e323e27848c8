// What a sound day file says: its settings, its listing, and where its calls stand.
ghost use Rattle.std.specs.Prelude.{◌≡◌, ◌+◌, ◌*◌, ◌≤◌, length};
ghost use Rattle.dayfile.specs.Numbered.{Numbered};

use ledger::settings::Settings;
use margin::listing::Listing;

pub mod methods;
pub mod view;

// The calls are handed out from the bytes that the file was read from. They stay the caller's: a file outlives them, as its settings
// and its listing do, so it holds the place and the count of its calls and no slice of them.
#[derive(Clone, Copy)]
pub struct DayFile {
    settings: Settings,
    listing: Listing,
    calls: usize,
    call_count: usize,
    ghost calls_inside: { calls + 24 * call_count ≤ 60000 },
}

// The calls that some bytes have at the places of a file's calls, as far as they are not handed out yet. They may be any bytes, so that
// nothing is known of a record: that is what it lacks of `Calls`, and why there are two.
#[derive(Drop)]
pub struct CallsIn<'a> {
    rest: &'a [u8],
}

// A sound day file with its calls at hand, so that they are handed out without its bytes. These have to live as long: it has a slice of
// them.
#[derive(Clone, Copy)]
pub struct DayFileView<'a> {
    file: DayFile,
    calls: &'a [u8],
    ghost counted: { length calls.now ≡ 24 * file.call_count },
    ghost calls_inside: { length calls.now ≤ 60000 },
    ghost numbered: { Numbered calls.now },
}

// The calls of a sound file that are not handed out yet. Each record has the number of a call.
#[derive(Drop)]
pub struct Calls<'a> {
    rest: &'a [u8],
    ghost numbered: { Numbered rest.now },
}
