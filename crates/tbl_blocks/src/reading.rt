//! Where a block is read: what stands before the next part, its font, and the word under way.
ghost use Rattle.std.specs.Prelude.{◌≡◌};
ghost use Rattle.tbl_blocks.specs.Reading as specs;

use super::addresses::Address;
use super::parts::{Font, Join, Part, Seen};
use super::units::{Does, Unit, is_letter, is_plain, is_stop};

/// The most empty lines that `.sp` gives.
const MOST_SPACE: usize = 50;

/// What lists are indented where nothing says it.
const INDENT: usize = 7;

/// The font, and the one before.
#[derive(Clone, Copy)]
pub(crate) struct Face {
    pub font: Font,
    pub last: Font,
}

/// What lines are indented.
#[derive(Clone, Copy)]
pub(crate) struct Margins {
    /// The next ones.
    pub indent: usize,
    /// Those outside of a list.
    pub margin: usize,
    /// Those of a list are indented by so much more, where it doesn't say it.
    pub by: usize,
}

/// What the last unit of a word printed.
#[derive(Clone, Copy)]
pub(crate) enum Last {
    /// A letter.
    Letter,
    /// A hyphen after a letter.
    Hyphen,
    /// A dash.
    Dash,
    /// None of these.
    Other,
}

/// The word under way.
#[derive(Clone, Copy)]
pub(crate) struct Word {
    /// Where its next part begins.
    pub from: usize,
    /// How many cells that takes so far.
    pub cells: usize,
    /// It has printed something.
    pub begun: bool,
    /// What it printed last.
    pub last: Last,
    /// How many bytes to come belong to the unit before them.
    pub more: usize,
}

/// How the words of a request are printed.
#[derive(Clone, Copy)]
pub(crate) struct Manner {
    /// The font of the first, the third and so on.
    pub first: Font,
    /// That of the others.
    pub second: Font,
    /// They are joined.
    pub joined: bool,
}

/// What is read of a block.
#[derive(Clone, Copy)]
pub(crate) struct Reading {
    /// The font of its words.
    pub face: Face,
    /// The font of the next line alone.
    pub once: Option<Font>,
    /// The next line is a tag, and text after it is indented so far.
    pub tag: Option<usize>,
    /// An address stands after what is read.
    pub address: Option<Address>,
    /// What stands before the next part.
    pub join: Join,
    /// What lines are indented.
    pub margins: Margins,
    /// Lines are filled.
    pub fills: bool,
    /// What was printed last ends a sentence.
    pub ends: bool,
    /// It has a part.
    pub begun: bool,
    /// The word under way.
    pub word: Word,
    /// What was seen of it.
    pub seen: Seen,
}

impl Face {
    /// This font alone.
    pub(crate) fn of(font: Font) -> Face
        ensures { result ≡ specs.face_of font }
    {
        Face { font, last: font }
    }

    /// Another font.
    pub(crate) fn set(self, font: Font) -> Face
        ensures { result ≡ specs.set_face font self }
    {
        Face {
            font,
            last: self.font,
        }
    }

    /// The font before.
    pub(crate) fn back(self) -> Face
        ensures { result ≡ specs.face_back self }
    {
        Face {
            font: self.last,
            last: self.font,
        }
    }
}

impl Last {
    /// Whether no word is cut after it.
    fn cuts_none(self) -> bool
        ensures { result ≡ specs.cuts_none self }
    {
        matches!(self, Last::Letter | Last::Other)
    }
}

impl Word {
    /// A word that begins at a place.
    pub(crate) fn at(from: usize) -> Word
        ensures { result ≡ specs.word_at from }
    {
        Word {
            from,
            cells: 0,
            begun: false,
            last: Last::Other,
            more: 0,
        }
    }

    /// Whether it may be cut before a unit that prints: between letters after a hyphen, and after a dash.
    fn is_cut_before(self, unit: Unit) -> bool
        ensures { result ≡ specs.is_cut_before unit self }
    {
        match self.last {
            Last::Hyphen => matches!(unit.does, Does::Letter),
            Last::Dash => unit.cells > 0,
            _ => false,
        }
    }

    /// With a unit that prints, or is nothing.
    fn printed(self, unit: Unit) -> Word
        ensures { result ≡ specs.word_printed unit self }
    {
        let last = match (unit.does, self.last) {
            (Does::Letter, _) => Last::Letter,
            (Does::Hyphen, Last::Letter) => Last::Hyphen,
            (Does::Dash, _) => Last::Dash,
            (Does::Nothing, last) => last,
            _ => Last::Other,
        };
        Word {
            cells: self.cells.saturating_add(unit.cells),
            begun: self.begun || unit.cells > 0,
            last,
            ..self
        }
    }
}

impl Seen {
    /// Nothing yet.
    fn nothing(spread: bool) -> Seen
        ensures { result ≡ specs.nothing_seen spread }
    {
        Seen {
            spread,
            sure: true,
            defines: false,
        }
    }
}

/// With one blank more before the next part.
fn with_blank(join: Join, fills: bool) -> Join
    ensures { result ≡ specs.with_blank fills join }
{
    match join {
        Join::Line { space, indent } => Join::Line { space, indent },
        _ => {
            let blanks = join.blanks().saturating_add(1);
            if fills {
                Join::Gap(blanks)
            } else {
                Join::Fixed(blanks)
            }
        }
    }
}

impl Reading {
    /// A block begins, with its words in a font and its full lines spread or not.
    pub(crate) fn begin(font: Font, spread: bool) -> Reading
        ensures { result ≡ specs.reading_of font spread }
    {
        Reading {
            face: Face::of(font),
            once: None,
            tag: None,
            address: None,
            join: Join::Line {
                space: 0,
                indent: 0,
            },
            margins: Margins {
                indent: 0,
                margin: 0,
                by: INDENT,
            },
            fills: true,
            ends: false,
            begun: false,
            word: Word::at(0),
            seen: Seen::nothing(spread),
        }
    }

    /// The part of the word that ends before a place.
    pub(crate) fn part(&self, to: usize) -> Part
        ensures { result ≡ specs.part_to to self.now }
    {
        Part {
            start: self.word.from,
            end: to,
            cells: self.word.cells,
            font: self.face.font,
            join: self.join,
            indent: self.margins.indent,
            bracketed: false,
        }
    }

    /// That part is read.
    pub(crate) fn end_part(&mut self, to: usize)
        ensures { self.new ≡ specs.after_part to self.old }
    {
        self.join = Join::Glued;
        self.begun = true;
        self.word.from = to;
        self.word.cells = 0;
    }

    /// Whether the part under way ends before a unit.
    pub(crate) fn parts_before(&self, unit: Unit) -> bool
        ensures { result ≡ specs.parts_before unit self.now }
    {
        match unit.does {
            Does::Blank | Does::Font(_) | Does::Back | Does::Comment => true,
            Does::Point | Does::Cut => true,
            _ => self.fills && self.word.is_cut_before(unit),
        }
    }

    /// A word may be cut here, if it has begun.
    fn cut_join(&self, join: Join) -> Join
        ensures { result ≡ specs.cut_join join self.now }
    {
        if self.word.begun && self.fills {
            join
        } else {
            self.join
        }
    }

    /// Whether a sentence ends with a unit.
    fn ends_after(&self, does: Does) -> bool
        ensures { result ≡ specs.ends_after does self.now }
    {
        match does {
            Does::Stop => true,
            Does::Nothing => self.ends,
            _ => false,
        }
    }

    /// A unit is read that prints, or is nothing.
    fn print(&mut self, unit: Unit)
        ensures { self.new ≡ specs.printed unit self.old }
    {
        if self.fills && self.word.is_cut_before(unit) {
            self.join = Join::Cut;
        }
        self.ends = self.ends_after(unit.does);
        self.word = self.word.printed(unit);
        self.seen.sure = self.seen.sure && unit.is_sure();
    }

    /// A unit is read, after which the next one begins at a place.
    fn read(&mut self, unit: Unit, next: usize)
        ensures { self.new ≡ specs.unit_read unit next self.old }
    {
        match unit.does {
            Does::Blank => {
                self.join = with_blank(self.join, self.fills);
                self.word = Word::at(next);
            }
            Does::Font(font) => {
                self.face = self.face.set(font);
                self.word.from = next;
            }
            Does::Back => {
                self.face = self.face.back();
                self.word.from = next;
            }
            Does::Point => {
                self.join = self.cut_join(Join::Point);
                self.word.from = next;
            }
            Does::Cut => {
                self.join = self.cut_join(Join::Cut);
                self.word.from = next;
            }
            Does::Comment => self.word.from = next,
            _ => self.print(unit),
        }
    }

    /// A unit at a place is read.
    pub(crate) fn take(&mut self, unit: Unit, at: usize)
        ensures { self.new ≡ specs.taken unit at self.old }
    {
        let next = at.saturating_add(1).saturating_add(unit.more);
        self.read(unit, next);
        self.word.more = unit.more;
    }

    /// Whether a byte is plain, and no part ends before it.
    pub(crate) fn is_quiet(&self, byte: u8) -> bool
        ensures { result ≡ specs.is_quiet byte self.now }
    {
        is_plain(byte) && self.word.last.cuts_none()
    }

    /// Such a byte is read.
    pub(crate) fn print_plain(&mut self, byte: u8)
        ensures { self.new ≡ specs.plain_read byte self.old }
    {
        let letter = is_letter(byte);
        self.ends = is_stop(byte) && !letter;
        self.word = Word {
            from: self.word.from,
            cells: self.word.cells.saturating_add(1),
            begun: true,
            last: if letter { Last::Letter } else { Last::Other },
            more: 0,
        };
    }

    /// A byte that belongs to the unit before it is read.
    pub(crate) fn skip(&mut self)
        ensures { self.new ≡ specs.skipped self.old }
    {
        self.word.more = self.word.more.saturating_sub(1);
    }

    /// The line ends here, and so many empty ones follow.
    pub(crate) fn breaks(self, more: usize) -> Reading
        ensures { result ≡ specs.breaks more self }
    {
        let before = match self.join {
            Join::Line { space, indent: _ } => space,
            _ => 0,
        };
        Reading {
            join: Join::Line {
                space: before.saturating_add(more).min(MOST_SPACE),
                indent: self.margins.indent,
            },
            ..self
        }
    }

    /// A line of text ends: a gap, wider after a sentence, or a line's end where lines stay as they are.
    pub(crate) fn line_ends(self) -> Reading
        ensures { result ≡ specs.line_ends self }
    {
        if !self.fills {
            return self.breaks(0);
        }
        let join = match self.join {
            Join::Line { space, indent } => Join::Line { space, indent },
            _ => Join::Gap(if self.ends { 2 } else { 1 }),
        };
        Reading { join, ..self }
    }

    /// A line of text begins with so many blanks.
    pub(crate) fn indented(self, blanks: usize) -> Reading
        ensures { result ≡ specs.indented blanks self }
    {
        if blanks == 0 {
            return self;
        }
        let read = self.breaks(0);
        match read.join {
            Join::Line { space, indent } => Reading {
                join: Join::Line {
                    space,
                    indent: indent.saturating_add(blanks),
                },
                ..read
            },
            _ => read,
        }
    }

    /// Its words are in these fonts from here on.
    pub(crate) fn faced(self, face: Face) -> Reading
        ensures { result ≡ specs.faced face self }
    {
        Reading { face, ..self }
    }

    /// A line begins: the font of this line alone is set, if there is one.
    pub(crate) fn once_set(self) -> Reading
        ensures { result ≡ specs.once_set self }
    {
        match self.once {
            None => self,
            Some(font) => self.faced(Face::of(font)),
        }
    }

    /// It has ended.
    pub(crate) fn once_left(self) -> Reading
        ensures { result ≡ specs.once_left self }
    {
        match self.once {
            None => self,
            Some(_) => Reading {
                face: Face::of(Font::Roman),
                once: None,
                ..self
            },
        }
    }

    /// Whether empty lines stand at the end of what was read.
    pub(crate) fn ends_in_space(self) -> bool
        ensures { result ≡ specs.ends_in_space self }
    {
        match self.join {
            Join::Line { space, indent: _ } => space > 0 && self.begun,
            _ => false,
        }
    }

    /// The line without text that is the last of them.
    pub(crate) fn space_part(self, place: usize) -> Part
        ensures { result ≡ specs.space_part place self }
    {
        let space = match self.join {
            Join::Line { space, indent: _ } => space,
            _ => 0,
        };
        Part {
            start: place,
            end: place,
            join: Join::Line {
                space: space.saturating_sub(1),
                indent: 0,
            },
            ..Part::nothing()
        }
    }
}
