// The escapes of a line are read: their letters, and the names of strings.
ghost use Rattle.std.specs.Prelude.{◌≡◌};
ghost use Rattle.man_lint.specs.Escapes as specs;

use super::names::is_escape;
use nr_units::Name;

/// Where an escape is read.
#[derive(Clone, Copy)]
pub enum Escape {
    /// None is.
    Plain,
    /// After a backslash.
    Begun,
    /// After the asterisk of a string.
    String,
    /// Before the first byte of a name of two.
    Two,
    /// Before the second.
    One,
    /// In a name between brackets.
    Long,
}

/// What is whole with a byte.
#[derive(Clone, Copy)]
pub enum Found {
    /// Nothing.
    Nothing,
    /// An escape that is none.
    Unknown,
    /// The name of a string.
    String,
}

/// What is half read of an escape.
#[derive(Clone, Copy)]
pub struct Escaping {
    /// Where it is read.
    pub escape: Escape,
    /// The first bytes of the name of a string.
    pub name: Name,
}

impl Escaping {
    /// Nothing is.
    pub fn none() -> Escaping
        ensures { result ≡ specs.none }
    {
        Escaping {
            escape: Escape::Plain,
            name: Name::new(),
        }
    }

    /// The next byte comes after a backslash.
    pub fn is_begun(&self) -> bool
        ensures { result ≡ specs.is_begun self.now.escape }
    {
        matches!(self.escape, Escape::Begun)
    }

    /// A byte comes.
    pub fn take(&mut self, byte: u8) -> Found
        ensures escaping { self.new ≡ specs.taken byte self.old }
        ensures found { result ≡ specs.found byte self.old }
    {
        if self.is_begun() {
            return self.begin(byte);
        }
        if byte == b'\\' {
            self.escape = Escape::Begun;
            return Found::Nothing;
        }
        match self.escape {
            Escape::String => self.begin_string(byte),
            Escape::Two => self.first_of_two(byte),
            Escape::One => self.last_of_two(byte),
            Escape::Long => self.in_brackets(byte),
            _ => Found::Nothing,
        }
    }

    /// After a backslash.
    fn begin(&mut self, byte: u8) -> Found
        ensures escaping { self.new ≡ specs.begun byte self.old }
        ensures found { result ≡ specs.found_begun byte }
    {
        self.escape = if byte == b'*' {
            Escape::String
        } else {
            Escape::Plain
        };
        if is_escape(byte) {
            Found::Nothing
        } else {
            Found::Unknown
        }
    }

    /// After the asterisk of a string.
    fn begin_string(&mut self, byte: u8) -> Found
        ensures escaping { self.new ≡ specs.string_begun byte self.old }
        ensures found { result ≡ specs.found_string byte }
    {
        self.name = Name::new();
        match byte {
            b'(' => self.escape = Escape::Two,
            b'[' => self.escape = Escape::Long,
            _ => {
                self.add(byte);
                self.escape = Escape::Plain;
                return Found::String;
            }
        }
        Found::Nothing
    }

    /// The first byte of a name of two.
    fn first_of_two(&mut self, byte: u8) -> Found
        ensures escaping { self.new ≡ specs.two_begun byte self.old }
        ensures found { result ≡ specs.nothing }
    {
        self.add(byte);
        self.escape = Escape::One;
        Found::Nothing
    }

    /// The second.
    fn last_of_two(&mut self, byte: u8) -> Found
        ensures escaping { self.new ≡ specs.two_ended byte self.old }
        ensures found { result ≡ specs.whole }
    {
        self.add(byte);
        self.escape = Escape::Plain;
        Found::String
    }

    /// In a name between brackets, which a blank ends too.
    fn in_brackets(&mut self, byte: u8) -> Found
        ensures escaping { self.new ≡ specs.in_brackets byte self.old }
        ensures found { result ≡ specs.found_in_brackets byte }
    {
        if matches!(byte, b']' | b' ') {
            self.escape = Escape::Plain;
            return Found::String;
        }
        self.add(byte);
        Found::Nothing
    }

    /// A byte of a name, where there is room for it.
    fn add(&mut self, byte: u8)
        ensures { self.new ≡ specs.added byte self.old }
    {
        if !self.name.is_full() {
            self.name.push(byte);
        }
    }
}
