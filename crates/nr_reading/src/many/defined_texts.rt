//! Bytes in the midst of a text that is being defined.
ghost use Rattle.std.specs.Prelude.{◌≡◌};
ghost use Rattle.nr_reading.specs.Many.InDefinition.{is_in_definition};

use crate::half::Half;
use crate::mode::Mode;

impl Half {
    /// Whether the next item is read in the midst of a string's text, or of a line of a definition that is kept, after no part
    /// of an escape.
    #[inline]
    pub fn is_in_definition(&self) -> bool
        ensures { result ≡ is_in_definition self.now }
    {
        let is_kept = match self.reading.mode {
            Mode::StringText => true,
            Mode::Body => self.notes.defining.keeps,
            _ => false,
        };
        is_kept && self.reads_next()
    }
}
