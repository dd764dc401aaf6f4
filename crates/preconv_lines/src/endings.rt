//! How an escape goes on and ends.
ghost use Rattle.std.specs.Prelude.{◌≡◌};
ghost use Rattle.preconv_lines.specs.Half.{abandoned, offered, without_escape};
ghost use Rattle.preconv_lines.specs.Endings as specs;

use super::half::{Escape, Half, Seen};
use nr_units::Name;
use preconv_characters::{Mark, Said};

impl Half {
    /// One more byte of an escape, or of a name in it, is kept where there is room.
    pub(crate) fn keep(&mut self, byte: u8)
        ensures { self.new ≡ specs.keeping byte self.old }
    {
        if !self.kept.is_full() {
            self.kept.push(byte);
        }
    }

    pub(crate) fn spell(&mut self, byte: u8)
        ensures { self.new ≡ specs.spelling byte self.old }
    {
        if !self.spelled.is_full() {
            self.spelled.push(byte);
        }
    }

    /// No escape is half read any more.
    pub fn forget(&mut self)
        ensures { self.new ≡ without_escape self.old }
    {
        self.escape = Escape::Plain;
        self.kept = Name::new();
        self.spelled = Name::new();
    }

    /// The escape goes on after a byte.
    pub(crate) fn goes_on(&mut self, byte: u8, escape: Escape) -> Seen
        ensures { offered self.new result ≡ specs.going_on byte escape self.old }
    {
        self.keep(byte);
        self.escape = escape;
        Seen::taken(Said::Nothing)
    }

    /// The escape has ended, and this is said for it.
    pub(crate) fn ended(&mut self, said: Said) -> Seen
        ensures { offered self.new result ≡ specs.ended said self.old }
    {
        self.forget();
        self.line = self.line.with_text();
        Seen::taken(said)
    }

    /// It was that of a font, for which this is said.
    pub(crate) fn ended_font(&mut self, said: Said) -> Seen
        ensures { offered self.new result ≡ specs.ended_font said self.old }
    {
        self.forget();
        self.line = self.line.with_font();
        Seen::taken(said)
    }

    /// It was that of a size, and goes out as it was kept.
    pub(crate) fn ended_size(&mut self) -> Seen
        ensures { offered self.new result ≡ specs.ended_size self.old }
    {
        self.places(Mark::Other);
        let kept = self.kept;
        self.ended_font(Said::Kept(kept))
    }

    /// It has ended, and goes out as it was kept.
    pub(crate) fn ended_kept(&mut self) -> Seen
        ensures { offered self.new result ≡ specs.ended_kept self.old }
    {
        self.places(Mark::Other);
        let kept = self.kept;
        self.ended(Said::Kept(kept))
    }

    /// It ends with this byte, and goes out as it is.
    pub(crate) fn ends_with(&mut self, byte: u8) -> Seen
        ensures { offered self.new result ≡ specs.ends_with byte self.old }
    {
        self.keep(byte);
        self.ended_kept()
    }

    /// It has ended, and nothing is said for it, but what keeps a text line from being taken for another.
    pub(crate) fn dropped(&mut self) -> Seen
        ensures { offered self.new result ≡ specs.dropped self.old }
    {
        let said = if self.line.is_beginning() {
            Said::Escape(b'&')
        } else {
            Said::Nothing
        };
        self.ended(said)
    }

    /// It is none: what was kept goes out, and the character that comes is read anew.
    pub(crate) fn abandoned(&mut self) -> Seen
        ensures { offered self.new result ≡ abandoned self.old }
    {
        let kept = self.kept;
        let ended = self.ended(Said::Kept(kept));
        Seen::left(ended.said)
    }

    /// It has ended, and goes out as it was kept, or as the byte of this character.
    pub(crate) fn kept_or(&mut self, code: u32) -> Seen
        ensures { offered self.new result ≡ specs.kept_or code self.old }
    {
        self.places(Mark::Other);
        let kept = self.kept;
        self.ended(Said::Native(kept, code))
    }
}
