//! The formats of a table: bytes become calls of macros.
ghost use Rattle.std.specs.Prelude.{◌≡◌, ◌+◌, ◌≤◌, ◌++◌, length};
ghost use Rattle.tbl_reader.specs.Formats as specs;

use super::numbers::one_more;
use super::options::small;
use tbl_blocks::Font;
use tbl_table::Kind;

/// The greatest number of columns.
const COLUMNS: usize = 64;

/// The greatest number of format lines.
const LINES: usize = 256;

/// What part of a format is half read.
#[derive(Clone, Copy)]
pub(crate) enum Part {
    /// None: a column or what modifies it may come.
    Keys,
    /// `f`
    Font,
    /// `f` and a letter, after which another may stand.
    FontMore,
    /// `f(` and a name, by its last letter.
    FontName(u8),
    /// `w`
    Width,
    /// `w(` and a part of a width, in which a digit or an escape stands or not.
    WidthIn(bool),
    /// Digits of a width or of the space after a column.
    Digits,
    /// `p`, `v` or `m`, what follows which has no effect.
    Size(u8),
    /// Digits of that number.
    SizeDigits,
    /// It stands in parentheses after this letter.
    SizeIn(u8),
}

/// What is half read of formats.
#[derive(Clone, Copy)]
pub(crate) struct Formats {
    /// Which part.
    pub part: Part,
    /// A line of formats has begun.
    pub begun: bool,
    /// The bars that were read before the next column.
    pub bars: usize,
    /// The columns of the line.
    pub cells: usize,
    /// The most columns of a line.
    pub columns: usize,
    /// The lines.
    pub lines: usize,
    /// A column has numbers.
    pub numeric: bool,
    /// The first byte that was no part of a format, or lacks what it needs.
    pub bad: Option<u8>,
    /// There are too many columns or lines.
    pub many: bool,
}

/// A call of a macro, or a part of one.
#[derive(Clone, Copy)]
pub enum Call {
    /// None.
    Nothing,
    /// A column, with the bars before it.
    Cell(Kind, usize),
    /// The end of a line, with the bars at it.
    Bars(usize),
    /// The font of a column.
    Font(Font),
    /// The width of a column begins.
    Width,
    /// The space after a column begins with this digit.
    Gap(u8),
    /// A byte of that.
    Byte(u8),
    /// A column that is as wide as its like.
    Equal,
    /// A column that is widened.
    Wide,
    /// A column whose text doesn't count.
    Zero,
    /// A column whose text that goes on below stands at the top of its rows.
    Top,
    /// It stands at their bottom.
    Low,
}

/// What a byte calls: what was called has ended, a line begins, and this.
#[derive(Clone, Copy)]
pub struct Called {
    /// A call ends.
    pub ends: bool,
    /// A line begins.
    pub begins: bool,
    /// What is called.
    pub call: Call,
}

/// The kind of a column.
fn kind_of(key: u8) -> Option<Kind>
    ensures { result ≡ specs.kind_of key }
{
    match key {
        b'l' => Some(Kind::Left),
        b'r' => Some(Kind::Right),
        b'c' => Some(Kind::Centre),
        b'n' => Some(Kind::Number),
        b'a' => Some(Kind::Alpha),
        b's' => Some(Kind::Across),
        b'^' => Some(Kind::Down),
        b'_' | b'-' => Some(Kind::Rule),
        b'=' => Some(Kind::DoubleRule),
        _ => None,
    }
}

impl Called {
    /// This alone.
    fn only(call: Call) -> Called
        ensures { result ≡ specs.only call }
    {
        Called {
            ends: false,
            begins: false,
            call,
        }
    }
}

impl Formats {
    /// Nothing was read; after lines that have so many columns.
    pub(crate) fn new(columns: usize, lines: usize, numeric: bool) -> Formats
        ensures { result ≡ specs.first_formats columns lines numeric }
    {
        Formats {
            part: Part::Keys,
            begun: false,
            bars: 0,
            cells: 0,
            columns,
            lines,
            numeric,
            bad: None,
            many: false,
        }
    }

    /// The letter of a column where nothing stands before it, or above it, that could go on over it.
    fn bad_letter(&self, kind: Kind) -> Option<u8>
        ensures { result ≡ specs.bad_letter kind self.now }
    {
        match kind {
            Kind::Across if self.cells == 0 => Some(b's'),
            Kind::Down if self.lines == 1 => Some(b'^'),
            _ => None,
        }
    }

    /// A byte is no part of a format, or lacks what it needs: the first one is emitted.
    fn blames(&mut self, byte: u8)
        ensures { self.new ≡ specs.blaming byte self.old }
    {
        if self.bad.is_none() {
            self.bad = Some(byte);
        }
    }

    /// A line begins.
    fn line_begins(&mut self)
        ensures { self.new ≡ specs.line_begun self.old }
    {
        self.cells = 0;
        self.many = self.many || self.lines >= LINES;
        self.lines = one_more(self.lines, LINES);
    }

    /// A column is added, before which a line begins or not.
    fn add_cell(&mut self, kind: Kind, begins: bool) -> Called
        ensures { specs.returned self.new result ≡ specs.cell_added kind begins self.old }
    {
        let bars = self.bars;
        self.many = self.many || self.cells >= COLUMNS;
        self.cells = one_more(self.cells, COLUMNS);
        if self.columns < self.cells {
            self.columns = self.cells;
        }
        self.numeric = self.numeric || kind.is_number();
        self.begun = true;
        self.bars = 0;
        Called {
            ends: false,
            begins,
            call: Call::Cell(kind, bars),
        }
    }

    /// A column of this kind is added, or where it can't be of it one of `l`.
    fn add_kind(&mut self, kind: Kind, begins: bool) -> Called
        ensures { specs.returned self.new result ≡ specs.kind_added kind begins self.old }
    {
        match self.bad_letter(kind) {
            Some(letter) => {
                self.blames(letter);
                self.add_cell(Kind::Left, begins)
            }
            None => self.add_cell(kind, begins),
        }
    }

    /// A column comes.
    fn cell(&mut self, kind: Kind) -> Called
        ensures { specs.returned self.new result ≡ specs.cell kind self.old }
    {
        if self.begun {
            return self.add_kind(kind, false);
        }
        self.line_begins();
        self.add_kind(kind, true)
    }

    /// A line ends, if one has begun.
    fn line_ends(&mut self) -> Called
        ensures { specs.returned self.new result ≡ specs.line_ends self.old }
    {
        if !self.begun {
            return Called::only(Call::Nothing);
        }
        let bars = self.bars;
        self.begun = false;
        self.bars = 0;
        Called::only(Call::Bars(bars))
    }

    /// A part begins, and this is called.
    fn goes_on(&mut self, part: Part, call: Call) -> Called
        ensures { specs.returned self.new result ≡ specs.going_on part call self.old }
    {
        self.part = part;
        Called::only(call)
    }

    /// A bar.
    fn bar(&mut self) -> Called
        ensures { specs.returned self.new result ≡ specs.bar self.old }
    {
        self.bars = one_more(self.bars, 2);
        Called::only(Call::Nothing)
    }

    /// A byte that is no part of a format.
    fn bad_byte(&mut self, byte: u8) -> Called
        ensures { specs.returned self.new result ≡ specs.bad_byte byte self.old }
    {
        self.blames(byte);
        Called::only(Call::Nothing)
    }

    /// What modifies the column before it.
    fn modifier(&mut self, key: u8) -> Called
        ensures { specs.returned self.new result ≡ specs.modifier key self.old }
    {
        match key {
            b'b' => Called::only(Call::Font(Font::Bold)),
            b'i' => Called::only(Call::Font(Font::Italic)),
            b'e' => Called::only(Call::Equal),
            b'x' => Called::only(Call::Wide),
            b'z' => Called::only(Call::Zero),
            b't' => Called::only(Call::Top),
            b'd' => Called::only(Call::Low),
            b'u' => Called::only(Call::Nothing),
            b'f' => self.goes_on(Part::Font, Call::Nothing),
            b'w' => self.goes_on(Part::Width, Call::Width),
            b'p' | b'v' | b'm' => self.goes_on(Part::Size(key), Call::Nothing),
            b'0'..=b'9' => self.goes_on(Part::Digits, Call::Gap(key)),
            _ => self.bad_byte(key),
        }
    }

    /// A byte where a column or a modifier may come. A point stands at the end.
    fn key(&mut self, byte: u8) -> Called
        ensures { specs.returned self.new result ≡ specs.key byte self.old }
    {
        match small(byte) {
            b'\n' | b',' => self.line_ends(),
            b' ' | b'\t' | b'.' => Called::only(Call::Nothing),
            b'|' => self.bar(),
            key => match kind_of(key) {
                Some(kind) => self.cell(kind),
                None if self.begun => self.modifier(key),
                None => self.bad_byte(key),
            },
        }
    }

    /// A part has ended before this byte: its call ends, if it has one that is open.
    fn ended(&mut self, ends: bool, byte: u8) -> Called
        ensures { specs.returned self.new result ≡ specs.ended ends byte self.old }
    {
        self.part = Part::Keys;
        let mut called = self.key(byte);
        called.ends = ends;
        called
    }

    /// The part of a letter has ended before what it needs.
    fn cut_short(&mut self, letter: u8, ends: bool, byte: u8) -> Called
        ensures { specs.returned self.new result ≡ specs.cut_short letter ends byte self.old }
    {
        self.blames(letter);
        self.ended(ends, byte)
    }

    /// The name of a font has ended with this letter.
    fn font(&mut self, letter: u8) -> Called
        ensures { specs.returned self.new result ≡ specs.font letter self.old }
    {
        self.goes_on(Part::Keys, Call::Font(Font::of(letter)))
    }

    /// A byte after `f`.
    fn in_font(&mut self, byte: u8) -> Called
        ensures { specs.returned self.new result ≡ specs.in_font byte self.old }
    {
        match byte {
            b'(' => self.goes_on(Part::FontName(b'R'), Call::Nothing),
            b' ' | b'\t' => Called::only(Call::Nothing),
            b'\n' => self.cut_short(b'f', false, byte),
            _ => self.goes_on(Part::FontMore, Call::Font(Font::of(byte))),
        }
    }

    /// A byte after `f` and a letter: a capital letter or a digit is a part of the name.
    fn in_font_more(&mut self, byte: u8) -> Called
        ensures { specs.returned self.new result ≡ specs.in_font_more byte self.old }
    {
        if matches!(byte, b'A'..=b'Z' | b'0'..=b'9') {
            return self.font(byte);
        }
        self.ended(false, byte)
    }

    /// A byte of the name of a font in parentheses.
    fn in_font_name(&mut self, last: u8, byte: u8) -> Called
        ensures { specs.returned self.new result ≡ specs.in_font_name last byte self.old }
    {
        match byte {
            b')' => self.font(last),
            b'\n' => self.cut_short(b'f', false, byte),
            _ => self.goes_on(Part::FontName(byte), Call::Nothing),
        }
    }

    /// A byte after `w`.
    fn in_width(&mut self, byte: u8) -> Called
        ensures { specs.returned self.new result ≡ specs.in_width byte self.old }
    {
        match byte {
            b'(' => self.goes_on(Part::WidthIn(false), Call::Nothing),
            b'0'..=b'9' => self.goes_on(Part::Digits, Call::Byte(byte)),
            b' ' | b'\t' => Called::only(Call::Nothing),
            _ => self.cut_short(b'w', true, byte),
        }
    }

    /// A width in parentheses ends, in which a digit or an escape stands or not.
    fn width_ends(&mut self, said: bool) -> Called
        ensures { specs.returned self.new result ≡ specs.width_ended said self.old }
    {
        if !said {
            self.blames(b'w');
        }
        self.goes_on(Part::Keys, Call::Byte(b'\n'))
    }

    /// A byte of it.
    fn in_width_in(&mut self, said: bool, byte: u8) -> Called
        ensures { specs.returned self.new result ≡ specs.in_width_in said byte self.old }
    {
        match byte {
            b')' => self.width_ends(said),
            b'\n' => self.cut_short(b'w', true, byte),
            b'0'..=b'9' | b'\\' => self.goes_on(Part::WidthIn(true), Call::Byte(byte)),
            _ => Called::only(Call::Byte(byte)),
        }
    }

    /// A byte among digits.
    fn in_digits(&mut self, byte: u8) -> Called
        ensures { specs.returned self.new result ≡ specs.in_digits byte self.old }
    {
        match byte {
            b'0'..=b'9' => Called::only(Call::Byte(byte)),
            _ => self.ended(true, byte),
        }
    }

    /// A byte after `p`, `v` or `m`.
    fn in_size(&mut self, letter: u8, byte: u8) -> Called
        ensures { specs.returned self.new result ≡ specs.in_size letter byte self.old }
    {
        match byte {
            b'(' => self.goes_on(Part::SizeIn(letter), Call::Nothing),
            b'+' | b'-' | b'0'..=b'9' => self.goes_on(Part::SizeDigits, Call::Nothing),
            _ => self.cut_short(letter, false, byte),
        }
    }

    /// A byte among the digits after `p` or `v`.
    fn in_size_digits(&mut self, byte: u8) -> Called
        ensures { specs.returned self.new result ≡ specs.in_size_digits byte self.old }
    {
        match byte {
            b'0'..=b'9' => Called::only(Call::Nothing),
            _ => self.ended(false, byte),
        }
    }

    /// A byte in parentheses after one of these.
    fn in_size_in(&mut self, letter: u8, byte: u8) -> Called
        ensures { specs.returned self.new result ≡ specs.in_size_in letter byte self.old }
    {
        match byte {
            b')' => self.goes_on(Part::Keys, Call::Nothing),
            b'\n' => self.cut_short(letter, false, byte),
            _ => Called::only(Call::Nothing),
        }
    }

    /// A byte comes.
    pub(crate) fn read(&mut self, byte: u8) -> Called
        ensures { specs.returned self.new result ≡ specs.read byte self.old }
    {
        match self.part {
            Part::Keys => self.key(byte),
            Part::Font => self.in_font(byte),
            Part::FontMore => self.in_font_more(byte),
            Part::FontName(last) => self.in_font_name(last, byte),
            Part::Width => self.in_width(byte),
            Part::WidthIn(said) => self.in_width_in(said, byte),
            Part::Digits => self.in_digits(byte),
            Part::Size(letter) => self.in_size(letter, byte),
            Part::SizeDigits => self.in_size_digits(byte),
            Part::SizeIn(letter) => self.in_size_in(letter, byte),
        }
    }
}
