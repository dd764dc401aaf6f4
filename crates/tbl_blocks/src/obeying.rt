//! What requests change of where a block is read.
ghost use Rattle.std.specs.Prelude.{◌≡◌};
ghost use Rattle.tbl_blocks.specs.Reading as specs;

use super::arguments::number_or;
use super::parts::{Font, Join, Seen};
use super::reading::{Face, Manner, Margins, Reading};
use super::requests::Request;

/// Whether lines are spread under `.ad` with this argument.
fn is_even(argument: &[u8]) -> bool
    ensures { result ≡ specs.is_even argument.now }
{
    match argument.split_first() {
        Some((b'l' | b'c' | b'r', _rest)) => false,
        _ => true,
    }
}

impl Reading {
    /// The next line alone is in a font.
    pub(crate) fn waits_for(self, font: Font) -> Reading
        ensures { result ≡ specs.waits_for font self }
    {
        Reading {
            once: Some(font),
            ..self
        }
    }

    /// The indent is this one from here on, and that of lists, too.
    fn margin(self, margin: usize) -> Reading
        ensures { result ≡ specs.margin_set margin self }
    {
        Reading {
            margins: Margins {
                indent: margin,
                margin,
                ..self.margins
            },
            ..self
        }
        .breaks(0)
    }

    /// A paragraph begins.
    pub(crate) fn paragraph(self) -> Reading
        ensures { result ≡ specs.paragraph self }
    {
        let read = self.margin(self.margins.margin);
        if self.begun { read.breaks(1) } else { read }
    }

    /// The next lines are indented by so much more than those outside of a list, and so are those of lists that follow.
    fn indented_by(self, by: usize) -> Reading
        ensures { result ≡ specs.indented_by by self }
    {
        let margin = self.margins.margin;
        Reading {
            margins: Margins {
                indent: margin.saturating_add(by),
                margin,
                by,
            },
            ..self
        }
    }

    /// Its first line stands at the margin, and the others are indented.
    fn hanging(self, by: usize) -> Reading
        ensures { result ≡ specs.hanging by self }
    {
        self.paragraph().indented_by(by)
    }

    /// The next line is a tag, and text after it is indented so far.
    fn waits_for_tag(self, by: usize) -> Reading
        ensures { result ≡ specs.waits_for_tag by self }
    {
        Reading {
            tag: Some(by),
            ..self.paragraph()
        }
    }

    /// A tag of so many cells has ended: text after it stands beside it, indented so far, or below where there is no room.
    pub(crate) fn tagged(self, cells: usize, by: usize) -> Reading
        ensures { result ≡ specs.tagged cells by self }
    {
        let read = Reading {
            tag: None,
            ..self.indented_by(by)
        };
        if cells > 0 && cells < by {
            Reading {
                join: Join::Fixed(by - cells),
                ..read
            }
        } else {
            read.breaks(0)
        }
    }

    /// Lines are filled from here on, or not.
    fn filling(self, fills: bool) -> Reading
        ensures { result ≡ specs.filling_set fills self }
    {
        Reading { fills, ..self }.breaks(0)
    }

    /// Full lines are spread from here on, or not.
    fn spreading(self, spread: bool) -> Reading
        ensures { result ≡ specs.spreading_set spread self }
    {
        Reading {
            seen: Seen {
                spread,
                ..self.seen
            },
            ..self
        }
    }

    /// What prints is defined or asked for.
    fn defining(self) -> Reading
        ensures { result ≡ specs.defining self }
    {
        Reading {
            seen: Seen {
                defines: true,
                ..self.seen
            },
            ..self
        }
    }

    /// `.ft`
    fn font(self, name: &[u8]) -> Reading
        ensures { result ≡ specs.font_set name.now self }
    {
        match name.split_first() {
            None => self.faced(self.face.back()),
            Some((b'P', _rest)) => self.faced(self.face.back()),
            Some((letter, _rest)) => self.faced(self.face.set(Font::of(*letter))),
        }
    }

    /// What a request does that has no words, with its first argument.
    pub(crate) fn obeyed(self, request: Request, argument: &[u8]) -> Reading
        ensures { result ≡ specs.obeyed request argument.now self }
    {
        let Margins {
            indent: _,
            margin,
            by,
        } = self.margins;
        match request {
            Request::Break => self.breaks(0),
            Request::Space => self.breaks(number_or(argument, 1)),
            Request::Ragged => self.spreading(false),
            Request::Adjust => self.spreading(is_even(argument)),
            Request::Font => self.font(argument),
            Request::Keep => self.filling(false),
            Request::Fill => self.filling(true),
            Request::Paragraph => self.paragraph(),
            Request::Tagged => self.waits_for_tag(number_or(argument, by)),
            Request::Hanging => self.hanging(number_or(argument, by)),
            Request::Indent => self.margin(number_or(argument, 0)),
            Request::Deeper => self.margin(margin.saturating_add(number_or(argument, by))),
            Request::Back => self.margin(margin.saturating_sub(by)),
            Request::Defines => self.defining(),
            _ => self,
        }
    }

    /// A word of a request begins, after so many others.
    pub(crate) fn word_begun(self, count: usize, manner: Manner) -> Reading
        ensures { result ≡ specs.word_begun count manner self }
    {
        let font = if count % 2 == 0 {
            manner.first
        } else {
            manner.second
        };
        let join = if count > 0 && !manner.joined {
            Join::Gap(1)
        } else {
            self.join
        };
        Reading {
            face: Face::of(font),
            join,
            ..self
        }
    }
}
