//! Lines that tbl obeys: `.TS`, `.TE` and `.T&`, and how far the beginning of a line may be one.
ghost use Rattle.std.specs.Prelude.{◌≡◌};
ghost use Rattle.tbl_reader.specs.Commands as specs;

use super::passing::may_command;

/// The beginning of a line that passes, as far as it was read.
#[derive(Clone, Copy)]
pub(crate) enum Start {
    /// Nothing yet.
    Nothing,
    /// `.`
    Dot,
    /// `.T`
    DotT,
    /// The command, if its name ends here.
    Name,
    /// The command.
    Command,
    /// It is none.
    Other,
}

/// Whether a byte ends the name of a command that its line doesn't end.
pub(crate) fn ends_name(byte: u8) -> bool
    ensures { result ≡ specs.ends_name byte }
{
    matches!(byte, b' ' | b'\t' | b'\\')
}

/// Whether a line is the command `.T` and this letter.
pub(crate) fn is_command(line: &[u8], letter: u8) -> bool
    ensures { result ≡ specs.is_command letter line.now }
{
    line.len() > 2
        && line[0] == b'.'
        && line[1] == b'T'
        && line[2] == letter
        && (line.len() == 3 || ends_name(line[3]))
}

/// What is so if a condition holds, or else another beginning.
fn start_if(holds: bool, start: Start) -> Start
    ensures { result ≡ specs.start_if holds start }
{
    if holds { start } else { Start::Other }
}

impl Start {
    /// With one byte more, which ends no line. The command is `.T` and this letter.
    pub(crate) fn with(self, byte: u8, letter: u8) -> Start
        ensures { result ≡ specs.start_with letter byte self }
    {
        match self {
            Start::Nothing => start_if(byte == b'.', Start::Dot),
            Start::Dot => start_if(byte == b'T', Start::DotT),
            Start::DotT => start_if(byte == letter, Start::Name),
            Start::Name => start_if(ends_name(byte), Start::Command),
            Start::Command => Start::Command,
            Start::Other => Start::Other,
        }
    }

    /// Whether a line that begins so, and goes on with these bytes, is no command.
    pub(crate) fn is_free(self, bytes: &[u8]) -> bool
        ensures { result ≡ specs.is_free self bytes.now }
    {
        match self {
            Start::Nothing => !may_command(bytes),
            Start::Other => true,
            _ => false,
        }
    }

    /// Whether a line that ends so is the command.
    pub(crate) fn is_command(self) -> bool
        ensures { result ≡ specs.begins_command self }
    {
        matches!(self, Start::Name | Start::Command)
    }
}

/// The beginning of these bytes of a line.
pub(crate) fn start_of(bytes: &[u8], letter: u8) -> Start
    ensures { result ≡ specs.start_of letter bytes.now }
{
    let mut start = Start::Nothing;
    for byte in bytes {
        start = start.with(*byte, letter);
    }
    start
}
