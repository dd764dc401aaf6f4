//! Escapes.
ghost use Rattle.std.specs.Prelude.{◌≡◌};
ghost use Rattle.preconv_lines.specs.Half.{offered};
ghost use Rattle.preconv_lines.specs.Escapes as specs;

use super::half::{Escape, Half, Seen};
use preconv_characters::{Mark, Said};

impl Half {
    /// A byte after `\$`.
    fn argument(&mut self, byte: u8) -> Seen
        ensures { offered self.new result ≡ specs.argument byte self.old }
    {
        let doubled = self.kept.len() > 2;
        match byte {
            b'*' => {
                self.places(Mark::Other);
                self.ended(Said::Arguments(doubled))
            }
            b'@' => {
                self.places(Mark::Other);
                self.ended(Said::QuotedArguments(doubled))
            }
            b'\n' => self.abandoned(),
            _ => self.ends_with(byte),
        }
    }

    /// A byte of a note, whose newline is hidden.
    fn noted(&mut self, byte: u8) -> Seen
        ensures { offered self.new result ≡ specs.noted byte self.old }
    {
        if byte == b'\n' {
            return self.newline_hidden();
        }
        Seen::taken(Said::Nothing)
    }

    /// A byte that comes while an escape is half read. One that is longer than what is kept goes out.
    pub(crate) fn in_escape(&mut self, byte: u8) -> Seen
        ensures { offered self.new result ≡ specs.in_escape byte self.old }
    {
        if self.kept.is_full() {
            return self.abandoned();
        }
        match self.escape {
            Escape::Plain => self.abandoned(),
            Escape::Begun => self.after_backslash(byte),
            Escape::Argument => self.argument(byte),
            Escape::Target(kind) => self.target(kind, byte),
            Escape::FontEscape => self.font_escape(byte),
            Escape::Pair(kind) => self.pair(kind, byte),
            Escape::Bracket(kind) => self.bracketed(kind, byte),
            Escape::Nested(kind) => self.nested(kind, byte),
            Escape::Delimiter(kind) => self.delimiter(kind, byte),
            Escape::Delimited(kind, end) => self.spelled_up_to(end, kind, byte),
            Escape::Skip => self.skip_from(byte),
            Escape::Skipped(end) => self.skipped(end, byte),
            Escape::Embedded(backslash) => self.embedded(backslash, byte),
            Escape::Note => self.noted(byte),
            Escape::Hyphen => self.after_hyphen(byte),
            Escape::Sentence => self.after_sentence(byte),
        }
    }
}
