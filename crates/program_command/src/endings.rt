//! How the program ended: its status, and the line that reports it.
ghost use Rattle.std.specs.Prelude.{◌≡◌, codes};
ghost use Rattle.nr_command_options.specs.Inputs.{macro_path, reading_of};
ghost use Rattle.nr_command.specs.Opening.{name_of};
ghost use Rattle.filters.specs.Endings.{Tells};
ghost use Rattle.program_command.specs.Endings.{line_of, limit_text, placed, status_of, reported, reported_at, unshown_line, why_text};

use document_sources::Why;
use filters::put_all;
use itoa::Buffer;
use nr_command_options::Input;
use nr_engine::Measure;
use nr_units::sink::Sink;
use program_options::{Usage, usage_line};

/// A place in a text.
#[derive(Clone, Copy)]
pub struct Place<'a> {
    /// The name of the text; `-` is standard input.
    pub name: &'a str,
    /// The line, from 1 on; 0 before the first.
    pub line: u64,
}

/// How the program ended.
#[derive(Drop)]
pub enum Ending<'a> {
    /// All went out.
    Done,
    /// All went out of texts of which the first has this name, but characters of these names.
    Unshown(&'a str, Vec<u8>),
    /// The next move would have passed a limit.
    Limit(Place<'a>, Measure),
    /// What goes out of a table at once has no room.
    NoRoom(Place<'a>),
    /// The texts have 2^40 bytes or more.
    TooLong,
    /// A word is bad.
    BadWord(Usage<'a>),
    /// A text can't be opened. Those before it were, and none after it was asked for.
    CannotOpen(Input<'a>),
    /// The macro file of that name is not in the program.
    NoMacros(&'a str),
    /// A text failed.
    ReadFault(Place<'a>),
    /// The output failed.
    WriteFault,
    /// There was not enough memory.
    OutOfMemory,
    /// The texts ask for other programs. Nothing was printed.
    NeedsOthers,
    /// All went out but a text that is named at that place.
    LeftOut(Place<'a>, Why),
    /// The folder of texts that may be named can't be found. Nothing was printed.
    NoFolder(&'a str),
}

/// The status of an ending.
fn status(ending: &Ending<'_>) -> u8
    ensures { result ≡ status_of ending.now }
{
    match ending {
        Ending::Done | Ending::Unshown(_, _) => 0,
        Ending::Limit(_, _) | Ending::NoRoom(_) | Ending::TooLong => 1,
        Ending::BadWord(_) => 2,
        Ending::CannotOpen(_)
        | Ending::NoMacros(_)
        | Ending::ReadFault(_)
        | Ending::LeftOut(_, _)
        | Ending::NoFolder(_) => 3,
        Ending::WriteFault => 4,
        Ending::OutOfMemory => 5,
        Ending::NeedsOthers => 6,
    }
}

/// What is limited.
fn limit_text(which: Measure) -> &'static str
    ensures { result.now ≡ limit_text which }
{
    match which {
        Measure::Stored => "stored bytes",
        Measure::Depth => "input depth",
        Measure::LineCells => "line cells",
        Measure::PageCells => "page cells",
        Measure::Expansions => "expansions",
        Measure::Moves => "moves",
    }
}

/// Why a text is left out.
fn why_text(why: Why) -> &'static str
    ensures { result.now ≡ why_text why }
{
    match why {
        Why::Nothing => "is not in the folder",
        Why::Outside => "is out of the folder",
        Why::TooLong => "makes too many bytes",
        Why::Unreadable => "can't be read",
        Why::TooMany => "is one too many",
    }
}

/// Writes a line of the program.
fn put_line<E: Sink>(what: &str, name: &str, errors: &mut E)
    ensures { Tells (E.held errors.old) (E.held errors.new) (E.failures errors.old) (E.failures errors.new)
        (reported what.now name.now) }
{
    let parts = [b"nulbiko: ", what.as_bytes(), name.as_bytes(), b"\n"];
    let _ = put_all(&parts, errors);
}

/// Writes the line of texts of which characters of these names are not shown.
fn put_unshown<E: Sink>(name: &str, names: &[u8], errors: &mut E)
    ensures { Tells (E.held errors.old) (E.held errors.new) (E.failures errors.old) (E.failures errors.new)
        (unshown_line name.now names.now) }
{
    let parts = [
        b"nulbiko: ",
        name.as_bytes(),
        b": characters not shown:",
        names,
        b"\n",
    ];
    let _ = put_all(&parts, errors);
}

/// Writes a line about a place in a text.
fn put_placed<E: Sink>(place: Place<'_>, what: &str, end: &str, errors: &mut E)
    ensures { Tells (E.held errors.old) (E.held errors.new) (E.failures errors.old) (E.failures errors.new)
        (reported_at place.entry.name.now place.entry.line what.now end.now) }
{
    let mut digits = Buffer::new();
    put_at(place.name, digits.format(place.line), what, end, errors);
}

/// The same, with the digits of the line.
fn put_at<E: Sink>(name: &str, line: &str, what: &str, end: &str, errors: &mut E)
    ensures { Tells (E.held errors.old) (E.held errors.new) (E.failures errors.old) (E.failures errors.new)
        (placed name.now line.now what.now end.now) }
{
    let parts = [
        b"nulbiko: ",
        name.as_bytes(),
        b":",
        line.as_bytes(),
        b": ",
        what.as_bytes(),
        end.as_bytes(),
        b"\n",
    ];
    let _ = put_all(&parts, errors);
}

/// Writes the line of a text that can't be opened.
fn put_unopened<E: Sink>(input: Input<'_>, errors: &mut E)
    ensures { Tells (E.held errors.old) (E.held errors.new) (E.failures errors.old) (E.failures errors.new)
        (reported (codes "cannot open ") (name_of (reading_of input.entry))) }
{
    match input {
        Input::Macros(file) => put_path(file.folder, file.name, errors),
        Input::File(name) => put_line("cannot open ", name, errors),
        Input::Standard => put_line("cannot open ", "-", errors),
    }
}

/// The same of a macro file.
fn put_path<E: Sink>(folder: &str, name: &str, errors: &mut E)
    ensures { Tells (E.held errors.old) (E.held errors.new) (E.failures errors.old) (E.failures errors.new)
        (reported (codes "cannot open ") (macro_path folder.now name.now)) }
{
    let parts = [
        b"nulbiko: cannot open ",
        folder.as_bytes(),
        b"/tmac.",
        name.as_bytes(),
        b"\n",
    ];
    let _ = put_all(&parts, errors);
}

/// Reports how the program ended, as far as `errors` takes the line, and gives the status. Nothing is reported where all
/// went out, and where a text asks for other programs, which the status alone says.
pub(crate) fn tell<E: Sink>(ending: Ending<'_>, errors: &mut E) -> u8
    ensures status { result ≡ status_of ending.entry }
    ensures reported { Tells (E.held errors.old) (E.held errors.new) (E.failures errors.old)
        (E.failures errors.new) (line_of ending.entry) }
{
    let status = status(&ending);
    put_ending(ending, errors);
    status
}

/// Writes the line of an ending.
fn put_ending<E: Sink>(ending: Ending<'_>, errors: &mut E)
    ensures { Tells (E.held errors.old) (E.held errors.new) (E.failures errors.old) (E.failures errors.new)
        (line_of ending.entry) }
{
    match ending {
        Ending::Done | Ending::NeedsOthers => {}
        Ending::Unshown(name, names) => put_unshown(name, &names, errors),
        Ending::Limit(place, which) => {
            put_placed(place, limit_text(which), " limit passed", errors)
        }
        Ending::NoRoom(place) => put_placed(place, "no room for a table", "", errors),
        Ending::TooLong => put_line("input too long", "", errors),
        Ending::BadWord(usage) => {
            let _ = usage_line(&usage, errors);
        }
        Ending::CannotOpen(input) => put_unopened(input, errors),
        Ending::NoMacros(name) => put_line("no macros of the name ", name, errors),
        Ending::ReadFault(place) => put_placed(place, "read fault", "", errors),
        Ending::LeftOut(place, why) => {
            put_placed(place, "the text that .so names ", why_text(why), errors)
        }
        Ending::NoFolder(path) => put_line("no folder ", path, errors),
        Ending::WriteFault => put_line("write fault", "", errors),
        Ending::OutOfMemory => put_line("out of memory", "", errors),
    }
}
