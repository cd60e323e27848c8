// Playing a day file on a book.
ghost use Rattle.std.specs.Prelude.{◌≡◌, length, IfOk, IfSome, OnOk};
ghost use Rattle.std.specs.Fmt.{with_newline};
ghost use Rattle.std.specs.Io.KnownBytes.{Appends};
ghost use Rattle.margin.specs.Listing.{listed};
ghost use Rattle.margin.specs.Meaning.{meaning, raised_meaning};
ghost use Rattle.ledger.specs.Runs.{Kept};
ghost use Rattle.ledger.specs.Keeps.{KeptBy};
ghost use Rattle.book.specs.Book.{tables_of};
ghost use Rattle.replay.specs.Lines.{LineOf, answer_of};
ghost use Rattle.replay.specs.Replayed.{DayWritten, FileReport, Replayed, TextOf, TextWritten};

use crate::failure::Failure;
use crate::report::{CallLine, EndLine, OpeningLine, Report};
use crate::text::fault_line;
use book::Book;
use dayfile::fault::Fault;
use dayfile::file::DayFile;
use ledger::call::Call;
use ledger::settings::{BaseScale, Settings};
use margin::listing::Listing;
use margin::scale::listed::ListedScale;
use margin::scale::raised::RaisedScale;
use margin::scale::standard::StandardScale;
use margin::scale::{CombinationScale, LegScale};
use std::alloc::{AllocError, Global};
use std::fmt::Display;
use std::io;
use std::io::Write;

// The day, how many contracts are listed, and the opening balance.
fn opening_line(settings: &Settings, listing: &Listing) -> OpeningLine
    ensures { result ≡ record { day = settings.now.day; contracts = length (listed listing.now); balance = settings.now.opening } }
{
    OpeningLine {
        day: settings.day,
        contracts: listing.contracts().len(),
        balance: settings.opening,
    }
}

// The funds of the book.
fn end_line(book: &Book) -> EndLine
    ensures { result ≡ record { balance = (tables_of book.now).funds.balance; held = (tables_of book.now).funds.held; reserves = (tables_of book.now).funds.reserved; cash = (tables_of book.now).funds.cash } }
{
    EndLine {
        balance: book.balance(),
        held: book.margin_held(),
        reserves: book.reserves(),
        cash: book.cash_total(),
    }
}

// Makes a call on the book, and tells its line.
fn play_call<S: CombinationScale>(book: &mut Book, scale: &S, place: usize, call: Call) -> CallLine
    requires { Kept (meaning S.LegScale.leg_of S.CombinationScale.pair_of scale.now) (tables_of book.old) }
    ensures line { LineOf (meaning S.LegScale.leg_of S.CombinationScale.pair_of scale.now) (tables_of book.old) place call result (tables_of book.new) }
    ensures law { KeptBy (meaning S.LegScale.leg_of S.CombinationScale.pair_of scale.now) (tables_of book.old) call (answer_of result.outcome result.balance) (tables_of book.new) }
{
    let outcome = book.apply(scale, call).map(|(number, _)| number);
    CallLine {
        place,
        call,
        outcome,
        balance: book.balance(),
    }
}

// Plays the calls of a file on a book opened by its settings.
fn play<S: CombinationScale>(
    heap: Global,
    file: &DayFile,
    bytes: &[u8],
    scale: &S,
) -> Result<Report, AllocError>
    ensures { IfOk result (FileReport (meaning S.LegScale.leg_of S.CombinationScale.pair_of scale.now) bytes.now file.now) }
{
    let settings = file.settings();
    let listing = file.listing();
    let opening = opening_line(&settings, listing);
    let mut book = Book::open(&settings, listing);
    let mut calls = Vec::new(heap);
    for call in file.calls(bytes) {
        let place = calls.len() + 1;
        calls.push(play_call(&mut book, scale, place, call))?;
    }
    Ok(Report {
        opening,
        calls,
        end: end_line(&book),
    })
}

// A scale, raised twice as the settings say.
fn raised<S: CombinationScale>(base: S, settings: &Settings) -> RaisedScale<RaisedScale<S>>
    ensures { result ≡ record { base = record { base = base; percent = settings.now.first_raise }; percent = settings.now.second_raise } }
{
    let first = RaisedScale {
        base,
        percent: settings.first_raise,
    };
    RaisedScale {
        base: first,
        percent: settings.second_raise,
    }
}

// Plays the file over a scale, raised twice as the settings say.
fn play_raised<S: CombinationScale + Drop>(
    heap: Global,
    file: &DayFile,
    bytes: &[u8],
    base: S,
) -> Result<Report, AllocError>
    ensures { IfOk result (FileReport (raised_meaning file.now.settings.second_raise.value (raised_meaning file.now.settings.first_raise.value (meaning S.LegScale.leg_of S.CombinationScale.pair_of base))) bytes.now file.now) }
{
    let scale = raised(base, &file.settings());
    play(heap, file, bytes, &scale)
}

// Writes a line, and has it leave the writer.
fn write_line<W: Write, D: Display + Drop>(out: &mut W, line: D) -> io::Result<()>
    ensures { OnOk result (IfSome (with_newline (D.output line)) (Appends (W.contents out.old) (W.contents out.new))) }
{
    out.writeln(line)?;
    out.flush()
}

// Plays the calls of a file on a book opened by its settings, and writes each line of the report as soon as it can be told.
// The loop of `play` again, which keeps its lines: this one keeps none, so that it asks for no memory. One loop for both would need a
// trait of our own for what takes the lines.
fn write_day<W: Write, S: CombinationScale>(
    out: &mut W,
    file: &DayFile,
    bytes: &[u8],
    scale: &S,
) -> io::Result<()>
    ensures { OnOk result (DayWritten (meaning S.LegScale.leg_of S.CombinationScale.pair_of scale.now) bytes.now file.now (W.contents out.old) (W.contents out.new)) }
{
    let settings = file.settings();
    let listing = file.listing();
    write_line(out, opening_line(&settings, listing))?;
    let mut book = Book::open(&settings, listing);
    for (k, call) in file.calls(bytes).enumerate() {
        write_line(out, play_call(&mut book, scale, k + 1, call))?;
    }
    write_line(out, end_line(&book))
}

// The same over a scale, raised twice as the settings say.
fn write_raised<W: Write, S: CombinationScale + Drop>(
    out: &mut W,
    file: &DayFile,
    bytes: &[u8],
    base: S,
) -> io::Result<()>
    ensures { OnOk result (DayWritten (raised_meaning file.now.settings.second_raise.value (raised_meaning file.now.settings.first_raise.value (meaning S.LegScale.leg_of S.CombinationScale.pair_of base))) bytes.now file.now (W.contents out.old) (W.contents out.new)) }
{
    let scale = raised(base, &file.settings());
    write_day(out, file, bytes, &scale)
}

// Writes the report of a day file line by line, or the line of its fault. It allocates nothing.
pub fn write_report<W: Write>(out: &mut W, bytes: &[u8]) -> io::Result<()>
    ensures { OnOk result (TextWritten bytes.now (W.contents out.old) (W.contents out.new)) }
{
    match DayFile::read(bytes) {
        Ok(file) => match file.settings().scale {
            BaseScale::Standard => write_raised(out, &file, bytes, StandardScale),
            BaseScale::Listed => write_raised(out, &file, bytes, ListedScale),
        },
        Err(fault) => write_line(out, Fault::from(fault)),
    }
}

// The report of a day file, or its fault.
pub fn replay(heap: Global, bytes: &[u8]) -> Result<Report, Failure>
    ensures { Replayed bytes.now result }
{
    let file = DayFile::read(bytes)?;
    // A match, since the two base scales are types of their own.
    Ok(match file.settings().scale {
        BaseScale::Standard => play_raised(heap, &file, bytes, StandardScale)?,
        BaseScale::Listed => play_raised(heap, &file, bytes, ListedScale)?,
    })
}

// The text of a day file's report: its lines, or the line of the file's fault. There is none only where memory is wanting.
pub fn report_text(heap: Global, bytes: &[u8]) -> Result<Vec<u8>, AllocError>
    ensures { IfOk result (λ text. TextOf bytes.now text.items) }
{
    match replay(heap, bytes) {
        Ok(report) => report.text(heap),
        Err(Failure::Faulty(fault)) => fault_line(heap, &Fault::from(fault)),
        Err(Failure::OutOfMemory) => Err(AllocError),
    }
}
