// How a program ended: its status, and the line that reports it.
ghost use Rattle.std.specs.Prelude.{◌≡◌};
ghost use Rattle.filters.specs.Endings.{Tells, line_of, status_of, reported, reported_named, reported_of};

use super::lines::put_all;
use itoa::Buffer;
use nr_units::sink::Sink;

/// How a program ended.
#[derive(Clone, Copy)]
pub enum Ending<'a> {
    /// All went out.
    Done,
    /// All went out, and something was wrong with a text, which is reported by now.
    Complained,
    /// A text has 2^40 bytes or more: its name, where the program reports it.
    TooLong(Option<&'a str>),
    /// A text failed after so many bytes: its name, where the program reports it.
    ReadFault(Option<&'a str>, u64),
    /// The output failed.
    WriteFault,
    /// What is wrong with the words of the command line, and the word that is, if it is one.
    BadWord(&'static str, &'a str),
    /// A file that can't be opened.
    CannotOpen(&'a str),
    /// A file that can't be read.
    CannotRead(&'a str),
    /// There was not enough memory for the words, the files or the buffers.
    OutOfMemory,
}

/// The status of an ending.
fn status(ending: Ending<'_>) -> u8
    ensures { result ≡ status_of ending.entry }
{
    match ending {
        Ending::Done => 0,
        Ending::Complained | Ending::TooLong(_) => 1,
        Ending::BadWord(_, _) => 2,
        Ending::ReadFault(_, _) | Ending::CannotOpen(_) | Ending::CannotRead(_) => 3,
        Ending::WriteFault => 4,
        Ending::OutOfMemory => 5,
    }
}

/// Writes a line of the program, with a word at its end, as far as `errors` takes it.
fn put_line<E: Sink>(program: &str, what: &str, word: &str, errors: &mut E)
    ensures { Tells (E.held errors.old) (E.held errors.new) (E.failures errors.old) (E.failures errors.new)
        (reported program.now what.now word.now) }
{
    let parts = [
        program.as_bytes(),
        b": ",
        what.as_bytes(),
        word.as_bytes(),
        b"\n",
    ];
    let _ = put_all(&parts, errors);
}

/// Writes a line about the text of this name.
fn put_named_line<E: Sink>(program: &str, name: &str, what: &str, word: &str, errors: &mut E)
    ensures { Tells (E.held errors.old) (E.held errors.new) (E.failures errors.old) (E.failures errors.new)
        (reported_named program.now name.now what.now word.now) }
{
    let parts = [
        program.as_bytes(),
        b": ",
        name.as_bytes(),
        b": ",
        what.as_bytes(),
        word.as_bytes(),
        b"\n",
    ];
    let _ = put_all(&parts, errors);
}

/// Writes a line about a text, by its name where the program reports it.
fn put_line_of<E: Sink>(program: &str, name: Option<&str>, what: &str, word: &str, errors: &mut E)
    ensures { Tells (E.held errors.old) (E.held errors.new) (E.failures errors.old) (E.failures errors.new)
        (reported_of program.now name.entry what.now word.now) }
{
    match name {
        Some(name) => put_named_line(program, name, what, word, errors),
        None => put_line(program, what, word, errors),
    }
}

/// Writes the line that reports an ending, as far as `errors` takes it, and nothing where all went out.
fn put_ending<E: Sink>(program: &str, ending: Ending<'_>, errors: &mut E)
    ensures { Tells (E.held errors.old) (E.held errors.new) (E.failures errors.old) (E.failures errors.new)
        (line_of program.now ending.entry) }
{
    match ending {
        Ending::Done | Ending::Complained => {}
        Ending::TooLong(name) => put_line_of(program, name, "input too long", "", errors),
        Ending::ReadFault(name, at) => {
            let mut digits = Buffer::new();
            put_line_of(
                program,
                name,
                "read fault at byte ",
                digits.format(at),
                errors,
            )
        }
        Ending::WriteFault => put_line(program, "write fault", "", errors),
        Ending::BadWord(what, word) => put_line(program, what, word, errors),
        Ending::CannotOpen(name) => put_line(program, "cannot open ", name, errors),
        Ending::CannotRead(name) => put_line(program, "cannot read ", name, errors),
        Ending::OutOfMemory => put_line(program, "out of memory", "", errors),
    }
}

/// Tells how the program of this name ended, as far as `errors` takes the line, and gives the status.
///
/// Proved: Status and line report how a program ended. The line goes out whole, or a prefix of it where a call
/// failed; nothing where all went out.
pub fn tell<E: Sink>(program: &str, ending: Ending<'_>, errors: &mut E) -> u8
    ensures status { result ≡ status_of ending.entry }
    ensures reported { Tells (E.held errors.old) (E.held errors.new) (E.failures errors.old)
        (E.failures errors.new) (line_of program.now ending.entry) }
{
    put_ending(program, ending, errors);
    status(ending)
}
