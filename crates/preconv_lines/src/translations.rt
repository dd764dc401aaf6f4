//! Translations of bytes to bytes by `.tr`.
ghost use Rattle.std.specs.Prelude.{◌≡◌};
ghost use Rattle.preconv_lines.specs.Half.{offered};
ghost use Rattle.preconv_lines.specs.Translations as specs;
ghost use Rattle.preconv_lines.specs.Lines.{in_translation, pairing, translation_ended, translation_on};

use super::half::{Half, Line, Pair, Seen};
use preconv_characters::Said;

/// No byte is translated.
#[tactic(auto, unfolding(crate::specs::Translations::no_translations))]
pub(crate) fn no_translations() -> [u8; 128]
    ensures { result ≡ specs.no_translations }
{
    [0; 128]
}

impl Half {
    /// What a byte becomes, 0 if it stays.
    pub(crate) fn translated(&self, byte: u8) -> u8
        ensures { result ≡ specs.translated byte self.now.translations }
    {
        if byte < 128 {
            self.translations[usize::from(byte)]
        } else {
            0
        }
    }

    /// One byte becomes another from here on.
    fn pairs(&mut self, first: u8, second: u8)
        ensures { self.new ≡ pairing first second self.old }
    {
        self.translating = true;
        if first < 128 {
            self.translations[usize::from(first)] = second;
        }
    }

    /// The line ends: a byte without another becomes a blank.
    fn translation_ended(&mut self, pair: Pair)
        ensures { self.new ≡ translation_ended pair self.old }
    {
        match pair {
            Pair::Second(first) => self.pairs(first, b' '),
            _ => {}
        }
    }

    /// One more byte, but a newline.
    fn translation_on(&mut self, pair: Pair, byte: u8) -> Seen
        ensures { offered self.new result ≡ translation_on pair byte self.old }
    {
        match pair {
            Pair::First if byte == b' ' => self.says(byte, Line::Translation(Pair::First)),
            Pair::First => self.says(byte, Line::Translation(Pair::Second(byte))),
            Pair::Second(first) => {
                self.pairs(first, byte);
                self.says(byte, Line::Translation(Pair::First))
            }
            Pair::Other => self.says(byte, Line::Translation(Pair::First)),
        }
    }

    /// A byte of a line of `.tr`: of each two characters the first becomes the second.
    pub(crate) fn in_translation(&mut self, pair: Pair, byte: u8) -> Seen
        ensures { offered self.new result ≡ in_translation pair byte self.old }
    {
        match byte {
            b'\r' => Seen::taken(Said::Nothing),
            b'\n' => {
                self.translation_ended(pair);
                self.says(byte, Line::Start)
            }
            _ => self.translation_on(pair, byte),
        }
    }
}
