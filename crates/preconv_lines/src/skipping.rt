//! Escapes whose text is dropped.
ghost use Rattle.std.specs.Prelude.{◌≡◌};
ghost use Rattle.preconv_lines.specs.Half.{offered};
ghost use Rattle.preconv_lines.specs.Skipping as specs;

use super::half::{Escape, Half, Seen};
use nr_units::Name;
use preconv_characters::Said;

impl Half {
    /// An escape that is dropped with a text begins.
    pub(crate) fn skip(&mut self) -> Seen
        ensures { offered self.new result ≡ specs.skip self.old }
    {
        self.kept = Name::new();
        self.escape = Escape::Skip;
        Seen::taken(Said::Nothing)
    }

    /// The delimiter of a text that is dropped.
    pub(crate) fn skip_from(&mut self, byte: u8) -> Seen
        ensures { offered self.new result ≡ specs.skip_from byte self.old }
    {
        if byte == b'\n' {
            return self.abandoned();
        }
        self.escape = Escape::Skipped(byte);
        Seen::taken(Said::Nothing)
    }

    /// A byte of a text that is dropped.
    pub(crate) fn skipped(&mut self, end: u8, byte: u8) -> Seen
        ensures { offered self.new result ≡ specs.skipped end byte self.old }
    {
        if byte == b'\n' {
            return self.abandoned();
        }
        if byte == end {
            return self.dropped();
        }
        Seen::taken(Said::Nothing)
    }

    /// `\?` begins.
    pub(crate) fn embed(&mut self) -> Seen
        ensures { offered self.new result ≡ specs.embed self.old }
    {
        self.kept = Name::new();
        self.escape = Escape::Embedded(false);
        Seen::taken(Said::Nothing)
    }

    /// A byte in `\?..\?`.
    pub(crate) fn embedded(&mut self, backslash: bool, byte: u8) -> Seen
        ensures { offered self.new result ≡ specs.embedded backslash byte self.old }
    {
        if byte == b'\n' {
            return self.abandoned();
        }
        if backslash && byte == b'?' {
            return self.dropped();
        }
        self.escape = Escape::Embedded(byte == b'\\');
        Seen::taken(Said::Nothing)
    }
}
