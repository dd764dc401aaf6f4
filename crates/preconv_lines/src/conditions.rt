//! Conditions: groff's on names become 1 or 0.
ghost use Rattle.std.specs.Prelude.{◌≡◌};
ghost use Rattle.preconv_lines.specs.Half.{offered};
ghost use Rattle.preconv_lines.specs.Conditions as specs;

use super::half::{Asked, Half, Line, Seen};
use nr_units::Name;
use preconv_characters::{Said, begins_number, is_known};

impl Half {
    /// A condition on a name begins.
    fn asks(&mut self, asked: Asked) -> Seen
        ensures { offered self.new result ≡ specs.asking asked self.old }
    {
        self.line = Line::Asked(asked);
        self.name = Name::new();
        Seen::taken(Said::Nothing)
    }

    /// A byte before a condition, or its first.
    pub(crate) fn before_condition(&mut self, byte: u8) -> Seen
        ensures { offered self.new result ≡ specs.before_condition byte self.old }
    {
        match byte {
            b'\n' => self.says(byte, Line::Start),
            b' ' | b'\t' | b'!' => self.says(byte, Line::Condition),
            b'n' | b't' | b'o' | b'e' => self.says(byte, Line::Part),
            b'v' => self.says(b'0', Line::Part),
            b'd' => self.asks(Asked::Defined),
            b'c' | b'F' => self.asks(Asked::Always),
            b'r' | b'm' | b'S' => self.asks(Asked::Never),
            _ if begins_number(byte) => self.says(byte, Line::Number),
            _ => self.says(byte, Line::Strings(byte, false)),
        }
    }

    /// A byte of a number that is a condition.
    pub(crate) fn in_number(&mut self, byte: u8) -> Seen
        ensures { offered self.new result ≡ specs.in_number byte self.old }
    {
        match byte {
            b'\n' => self.says(byte, Line::Start),
            b' ' | b'\t' => self.says(byte, Line::Part),
            _ => self.says(byte, Line::Number),
        }
    }

    /// A byte of strings that are compared.
    pub(crate) fn in_strings(&mut self, delimiter: u8, ended: bool, byte: u8) -> Seen
        ensures { offered self.new result ≡ specs.in_strings delimiter ended byte self.old }
    {
        if byte == b'\n' {
            return self.says(byte, Line::Start);
        }
        if byte != delimiter {
            return self.says(byte, Line::Strings(delimiter, ended));
        }
        if ended {
            return self.says(byte, Line::Part);
        }
        self.says(byte, Line::Strings(delimiter, true))
    }

    /// What a condition on a name comes to.
    fn answer(&self, asked: Asked) -> u8
        ensures { result ≡ specs.answer asked self.now }
    {
        let holds = match asked {
            Asked::Defined => is_known(self.name.as_bytes()),
            Asked::Always => true,
            Asked::Never => false,
        };
        if holds { b'1' } else { b'0' }
    }

    /// The name has ended.
    fn answers(&mut self, asked: Asked, line: Line) -> Seen
        ensures { offered self.new result ≡ specs.answering asked line self.old }
    {
        let said = Said::Byte(self.answer(asked));
        self.line = line;
        Seen::left(said)
    }

    /// A byte of the name that a condition asks for.
    pub(crate) fn in_asked(&mut self, asked: Asked, byte: u8) -> Seen
        ensures { offered self.new result ≡ specs.in_asked asked byte self.old }
    {
        match byte {
            b'\n' => self.answers(asked, Line::Request),
            b' ' | b'\t' if self.name.is_empty() => Seen::taken(Said::Nothing),
            b' ' | b'\t' => self.answers(asked, Line::Part),
            _ => {
                if !self.name.is_full() {
                    self.name.push(byte);
                }
                Seen::taken(Said::Nothing)
            }
        }
    }
}
