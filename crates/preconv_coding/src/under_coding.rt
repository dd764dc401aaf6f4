//! A source whose text is read as UTF-8.
ghost use Rattle.std.specs.Prelude.{◌≡◌};

use super::names::Coding;
use super::part::{Part, decided};
use super::tag::Tells;
use nr_units::Name;
use nr_units::source::{Fault, Source};

/// A coding that a text names, and that is not known: its text is read as if it named none.
#[derive(Clone, Copy)]
pub struct Unknown {
    /// The name, in lowercase.
    pub name: Name,
    /// The line that names it.
    pub line: u8,
}

/// The text of a source in UTF-8. Where it begins with the mark of UTF-16 these are its characters, U+FFFD for what is none.
/// Else they are its bytes, but for the mark of UTF-8; after the name of a set of eight bits in its first two lines, as
/// `coding: koi8-r`, a byte is a character of the set. It fails at no call where the source is known to fail at none.
///
/// Proved: What a source gives under its coding is one function of the bytes that came, however they came: `text_of`,
/// whose definition takes in each byte with what is half read.
#[derive(Drop)]
pub struct UnderCoding<S> {
    source: S,
    part: Part,
    /// The text that came and was not given yet.
    ready: Name,
}

impl<S: Source + Drop> UnderCoding<S> {
    ghost use Rattle.preconv_coding.specs.Laws.{AsciiStays, OthersStay, PlainStays, SetsAreRead, WideIsRead};
    ghost use Rattle.preconv_coding.specs.UnderCoding.{coded_supply, text_supply, unknown_in};

    /// The text of this source, of which nothing was read.
    ///
    /// Proved: A text in UTF-16 after its mark is read as its characters, for every list of characters and either
    /// order of bytes. (`wide` of `UnderCoding::over`)
    /// Proved: A text that begins with no byte of a mark, and has no `:` in its first two lines, is as it was: text
    /// in UTF-8 and any other. (`plain` of `UnderCoding::over`)
    /// Proved: A text whose first line is `.\" -*- coding: NAME -*-`, for any name of a set of eight bits, is read as
    /// the characters of that set, each byte after the line as one, for every list of bytes; where it names what is
    /// no such set, known or not, it is as it was. (`named`, `others` of `UnderCoding::over`; the names in names.rt,
    /// the sets in tables.rt)
    /// Proved: A text of ASCII is the same in every set. (`ascii` of `UnderCoding::over`)
    pub fn over(source: S) -> Self
        ensures supply { ⟦<UnderCoding<S> as Source>⟧.supply result ≡ text_supply (S.supply source) }
        ensures failures { ⟦<UnderCoding<S> as Source>⟧.failures result ≡ S.failures source }
        // A text without a mark, in whose first two lines stands no `:`, is as it was.
        ensures plain { PlainStays }
        // A text in UTF-16 is read as its characters.
        ensures wide { WideIsRead }
        // A text is read as the characters of the set that its first line names.
        ensures named { SetsAreRead }
        // A text whose first line names UTF-8, ASCII, or what is not known, is as it was.
        ensures others { OthersStay }
        // A text of ASCII is the same in every set.
        ensures ascii { AsciiStays }
    {
        UnderCoding {
            source,
            part: Part::Start,
            ready: Name::new(),
        }
    }

    /// The text of this source, of which nothing was read, under a coding, whatever it says of itself.
    ///
    /// Proved: Under a coding that is named beside it a text is read as the characters of its set, each byte as one,
    /// or as it is. (`UnderCoding::under`)
    pub fn under(source: S, coding: Coding) -> Self
        ensures supply { ⟦<UnderCoding<S> as Source>⟧.supply result ≡ coded_supply coding (S.supply source) }
        ensures failures { ⟦<UnderCoding<S> as Source>⟧.failures result ≡ S.failures source }
    {
        UnderCoding {
            source,
            part: decided(Tells::Reads(coding)),
            ready: Name::new(),
        }
    }

    /// The coding that the text names, as far as it was read, if that is not known.
    pub fn unknown(&self) -> Option<Unknown>
        ensures { result ≡ unknown_in self.now.part }
    {
        match self.part {
            Part::Unknown(head) => Some(Unknown {
                name: head.name,
                line: if head.second { 2 } else { 1 },
            }),
            _ => None,
        }
    }
}

impl<S: Source + Drop> Source for UnderCoding<S> {
    ghost use Rattle.preconv_coding.specs.UnderCoding.{supply_from, hand_of};

    ghost supply = { λ s. supply_from s.part s.ready (S.supply s.source) };

    ghost at_hand = { λ s. hand_of s.part s.ready (S.at_hand s.source) };

    ghost failures = { λ s. S.failures s.source };

    fn next(&mut self) -> Result<Option<u8>, Fault> {
        while self.ready.is_empty() {
            match self.source.next() {
                Ok(Some(byte)) => {
                    let step = self.part.takes(byte);
                    self.part = step.part;
                    self.ready = step.text;
                }
                Ok(None) => {
                    let text = self.part.ends();
                    if text.is_empty() {
                        return Ok(None);
                    }
                    self.part = Part::Plain;
                    self.ready = text;
                }
                Err(fault) => return Err(fault),
            }
        }
        let byte = self.ready.as_bytes()[0];
        self.ready = Name::of(&self.ready.as_bytes()[1..]);
        Ok(Some(byte))
    }

    /// Proved: Bytes that go out as they are come many at once where the source has them at hand. (`window`, `skip`
    /// of `UnderCoding`)
    #[inline]
    fn window(&self) -> &[u8] {
        if self.ready.is_empty() && self.part.is_plain() {
            self.source.window()
        } else {
            &[]
        }
    }

    #[inline]
    fn skip(&mut self, n: usize) {
        if n > 0 {
            self.source.skip(n);
        }
    }
}
