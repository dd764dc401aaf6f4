// What a control line calls: a macro or a request, and its first words.
ghost use Rattle.std.specs.Prelude.{◌≡◌};
ghost use Rattle.man_lint.specs.Calls as specs;

use super::names::grown;
use nr_units::Name;

/// What a control line calls. Of longer names and words the first 32 bytes are kept.
#[derive(Clone, Copy)]
pub struct Call {
    /// The name of a macro or request; the empty name in a line that calls nothing.
    pub name: Name,
    /// The first word, without its escapes.
    pub first: Name,
    /// The second word.
    pub second: Name,
    /// So many words began; three are many.
    pub words: u8,
    /// The first word has an escape.
    pub escaped: bool,
    /// It stands after a condition.
    pub conditional: bool,
}

impl Call {
    /// None yet, after a condition or not.
    pub fn none(conditional: bool) -> Call
        ensures { result ≡ specs.no_call conditional }
    {
        Call {
            name: Name::new(),
            first: Name::new(),
            second: Name::new(),
            words: 0,
            escaped: false,
            conditional,
        }
    }

    /// A byte of its name comes, or of the word that began last.
    pub fn add(&mut self, byte: u8)
        ensures { self.new ≡ specs.added byte self.old }
    {
        if self.words == 0 {
            self.name = grown(self.name, byte);
        } else if self.words == 1 {
            self.first = grown(self.first, byte);
        } else if self.words == 2 {
            self.second = grown(self.second, byte);
        }
    }

    /// A word begins.
    pub fn begin_word(&mut self)
        ensures { self.new ≡ specs.with_word self.old }
    {
        if self.words < 3 {
            self.words += 1;
        }
    }

    /// An escape stands in the word that began last.
    pub fn escape(&mut self)
        ensures { self.new ≡ specs.with_escape self.old }
    {
        if self.words == 1 {
            self.escaped = true;
        }
    }
}
