//! The letters of options (groff's nroff(1) and groff(1), "Options"; CSTR 54, "Usage").
ghost use Rattle.std.specs.Prelude.{◌≡◌};
ghost use Rattle.program_options.specs.Names.{letter_of};

use crate::plain::{Change, Faces, Says};

/// The letters of options that change nothing on a terminal.
const PASSED_LETTERS: &[u8] = b"CEGJNRSUeghjkqstu";

/// The letters of such options that ask for a value.
const PASSED_VALUES: &[u8] = b"DFIWf";

/// The letters of options that other programs have, and this one has not.
const LEFT_OUT_LETTERS: &[u8] = b"VXal";

/// An option that asks for a value.
#[derive(Clone, Copy)]
pub(crate) enum Valued {
    /// `-m`: a macro file, by its name.
    Macros,
    /// `-M`: the folder of the macro files.
    Folder,
    /// `-r`: a register.
    Register,
    /// `-d`: a string.
    Text,
    /// `-T`: what pages are printed in.
    Device,
    /// `-K`: the coding of the texts.
    Coding,
    /// `-n`: the first page's number.
    First,
    /// `-o`: the pages to print.
    Pages,
    /// `-w`: the cells of a line, or a warning.
    Width,
    /// `-L`: a limit.
    Limit,
    /// `-P`: what groff gives the program that prints.
    Output,
    /// `--width`: the cells of a line.
    Cells,
    /// `--faces`: how bold and underlined text goes out.
    Faces,
    /// `--within`: the folder that `.so` may read of.
    Within,
    /// One that changes nothing on a terminal.
    Passed,
}

/// What an option's letter stands for.
#[derive(Clone, Copy)]
pub(crate) enum Letter {
    /// An option that asks for a value.
    Asks(Valued),
    /// One that sets something by itself.
    Sets(Change),
    /// One that changes nothing on a terminal.
    Passed,
    /// One that other programs have, and this one has not.
    LeftOut,
    /// None.
    Unknown,
}

/// What a letter stands for.
pub(crate) fn letter_of(letter: u8) -> Letter
    ensures { result ≡ letter_of letter }
{
    if PASSED_LETTERS.contains(&letter) {
        return Letter::Passed;
    }
    if PASSED_VALUES.contains(&letter) {
        return Letter::Asks(Valued::Passed);
    }
    if LEFT_OUT_LETTERS.contains(&letter) {
        return Letter::LeftOut;
    }
    match letter {
        b'm' => Letter::Asks(Valued::Macros),
        b'M' => Letter::Asks(Valued::Folder),
        b'r' => Letter::Asks(Valued::Register),
        b'd' => Letter::Asks(Valued::Text),
        b'T' => Letter::Asks(Valued::Device),
        b'K' => Letter::Asks(Valued::Coding),
        b'n' => Letter::Asks(Valued::First),
        b'o' => Letter::Asks(Valued::Pages),
        b'w' => Letter::Asks(Valued::Width),
        b'L' => Letter::Asks(Valued::Limit),
        b'P' => Letter::Asks(Valued::Output),
        b'b' => Letter::Sets(Change::Bold),
        b'c' => Letter::Sets(Change::Faces(Faces::Off)),
        b'v' => Letter::Sets(Change::Says(Says::Version)),
        b'p' => Letter::Sets(Change::Paged),
        b'z' | b'Z' => Letter::Sets(Change::Checks),
        b'i' => Letter::Sets(Change::Input),
        _ => Letter::Unknown,
    }
}
