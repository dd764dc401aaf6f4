// The words of a macro's line.
ghost use Rattle.std.specs.Prelude.{◌≡◌};
ghost use Rattle.mdoc_command.specs.Wording as specs;

use super::names::{
    has_value, is_display_kind, is_flag, is_list_kind, is_mark, needs_words, takes_none,
};
use super::telling::Kind;
use mdoc_layout::{is_library, is_standard, is_version};
use nr_units::Name;

/// What of the options of a list or a display comes.
#[derive(Clone, Copy)]
pub enum Options {
    /// An option.
    Next,
    /// The word of one.
    Value,
    /// The widths of columns.
    Columns,
    /// Nothing more: this word asks nothing. One with quotes or escapes is not kept.
    Excess(Name),
}

/// What came of the line of a macro.
#[derive(Clone, Copy)]
pub struct Wording {
    /// Its words are read.
    pub reading: bool,
    /// The line, from 1 on.
    pub line: u64,
    /// The macro.
    pub name: Name,
    /// The first word, where it has neither quotes nor escapes.
    pub first: Name,
    /// How many words came, marks aside: two are many.
    pub words: u8,
    /// One of them is the kind of a list or a display.
    pub kind: bool,
    /// What of its options comes.
    pub options: Options,
}

/// Whether a word is one that a macro doesn't know.
fn is_unknown(name: &[u8], word: Name) -> bool
    ensures { result ≡ specs.is_unknown name.now word }
{
    if name == b"St".as_slice() {
        !is_standard(word)
    } else if name == b"Lb".as_slice() {
        !is_library(word)
    } else if name == b"At".as_slice() {
        !is_version(word)
    } else {
        false
    }
}

/// Whether a word is the kind of what a macro begins.
fn is_kind(name: &[u8], word: &[u8]) -> bool
    ensures { result ≡ specs.is_kind name.now word.now }
{
    (name == b"Bl".as_slice() && is_list_kind(word))
        || (name == b"Bd".as_slice() && is_display_kind(word))
}

/// Whether a macro wants a kind.
fn wants_kind(name: &[u8]) -> bool
    ensures { result ≡ specs.wants_kind name.now }
{
    name == b"Bl".as_slice() || name == b"Bd".as_slice()
}

/// What comes after a word where an option may.
fn options_by(name: &[u8], word: Name) -> Options
    ensures { result ≡ specs.options_by name.now word }
{
    let bytes = word.as_bytes();
    if has_value(name, bytes) {
        Options::Value
    } else if name == b"Bl".as_slice() && bytes == b"-column".as_slice() {
        Options::Columns
    } else if is_kind(name, bytes) || is_flag(name, bytes) {
        Options::Next
    } else {
        Options::Excess(word)
    }
}

/// What comes after a word of the line of a list or a display.
fn options_after(options: Options, name: &[u8], word: Name) -> Options
    ensures { result ≡ specs.options_after options name.now word }
{
    match options {
        Options::Next => options_by(name, word),
        Options::Value => Options::Next,
        _ => options,
    }
}

impl Wording {
    /// No line.
    pub fn none() -> Wording
        ensures { result ≡ specs.no_line }
    {
        Wording {
            reading: false,
            line: 0,
            name: Name::new(),
            first: Name::new(),
            words: 0,
            kind: false,
            options: Options::Next,
        }
    }

    /// The line of this macro begins.
    pub fn of(name: Name, line: u64) -> Wording
        ensures { result ≡ specs.line_of name line }
    {
        Wording {
            reading: true,
            line,
            name,
            first: Name::new(),
            words: 0,
            kind: false,
            options: Options::Next,
        }
    }

    /// A word is read as an option, where the macro has them.
    fn asks(&mut self, word: Name)
        ensures { self.new ≡ specs.asking word self.old }
    {
        if wants_kind(self.name.as_bytes()) {
            self.options = options_after(self.options, self.name.as_bytes(), word);
        }
    }

    /// A word with quotes or escapes comes.
    pub fn takes_other(&mut self)
        ensures { self.new ≡ specs.taking_other self.old }
    {
        self.asks(Name::new());
        self.counts();
    }

    /// Whether the line begins the section of the page's name.
    pub fn names_section(&self) -> bool
        ensures { result ≡ specs.names_section self.now }
    {
        self.name.as_bytes() == b"Sh".as_slice()
            && self.first.as_bytes() == b"NAME".as_slice()
            && self.words == 1
    }

    /// One word more.
    fn counts(&mut self)
        ensures { self.new ≡ specs.more self.old }
    {
        if self.words < 2 {
            self.words += 1;
        }
    }

    /// A word comes: one without bytes is a comment.
    pub fn takes(&mut self, word: Name)
        ensures { self.new ≡ specs.taking word self.old }
    {
        if word.is_empty() {
            return;
        }
        self.asks(word);
        if is_mark(word.as_bytes()) {
            return;
        }
        if self.words == 0 {
            self.first = word;
        }
        self.kind = self.kind || is_kind(self.name.as_bytes(), word.as_bytes());
        self.counts();
    }

    /// What is wrong with the words of the line.
    pub fn fault(&self) -> Option<Kind>
        ensures { result ≡ specs.fault self.now }
    {
        if wants_kind(self.name.as_bytes()) && !self.kind {
            return Some(Kind::NoKind(self.name));
        }
        match self.options {
            Options::Excess(word) => Some(Kind::Excess(self.name, word)),
            _ => self.words_fault(),
        }
    }

    /// What is wrong with words that are no options.
    fn words_fault(&self) -> Option<Kind>
        ensures { result ≡ specs.words_fault self.now }
    {
        let name = self.name.as_bytes();
        if name == b"Xr".as_slice() && self.words == 1 {
            return Some(Kind::NoSection(self.name, self.first));
        }
        if takes_none(name) && self.words > 0 {
            return Some(Kind::Words(self.name));
        }
        if needs_words(name) && self.words == 0 {
            return Some(Kind::Empty(self.name));
        }
        if !self.first.is_empty() && is_unknown(name, self.first) {
            return Some(Kind::BadWord(self.name, self.first));
        }
        None
    }
}
