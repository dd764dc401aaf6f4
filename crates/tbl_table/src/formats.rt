//! The formats of a table are read: lines of letters, and what modifies them.
ghost use Rattle.std.specs.Prelude.{◌≡◌};
ghost use Rattle.tbl_table.specs.Formats as specs;
ghost use Rattle.tbl_table.specs.Held as held;

use super::lists::{add_item, item_at, set_item};
use super::table::{Key, Kind, Line, Open, Span, Stand, Table};
use tbl_blocks::Font;

/// The greatest number that a gap may have.
const MOST_GAP: usize = 100_000;

impl Table {
    /// A modifier ends.
    pub fn close(&mut self)
        ensures value { self.new ≡ specs.closed self.old }
        ensures room { held.emptied self.new ≡ held.emptied self.old }
    {
        let end = self.text.len();
        let key = self.last_key();
        match self.open {
            Open::Width(start) if start < end => {
                let width = Some(Span { start, end });
                self.set_last_key(Key { width, ..key });
            }
            Open::Gap(gap) => self.set_last_key(Key {
                gap: Some(gap),
                ..key
            }),
            _ => {}
        }
        self.open = Open::Nothing;
    }

    /// A byte of a modifier.
    pub fn add_byte(&mut self, byte: u8)
        ensures value { self.new ≡ specs.byte_added byte self.old }
        ensures room { held.emptied self.new ≡ held.emptied self.old }
    {
        match self.open {
            Open::Nothing => {}
            Open::Width(_) if byte == b'\n' => self.close(),
            Open::Width(_) => self.add_text(byte),
            Open::Gap(gap) => {
                let digit = usize::from(byte.saturating_sub(b'0'));
                let more = gap.saturating_mul(10).saturating_add(digit);
                self.open = Open::Gap(more.min(MOST_GAP));
            }
        }
    }

    /// The last key, if there is one.
    fn last_key(&self) -> Key
        ensures { result ≡ specs.last_key self.now }
    {
        item_at(&self.keys, self.keys.len().saturating_sub(1), Key::usual())
    }

    /// Another in its place.
    fn set_last_key(&mut self, key: Key)
        ensures value { self.new ≡ specs.with_last_key key self.old }
        ensures room { held.emptied self.new ≡ held.emptied self.old }
    {
        let last = self.keys.len().saturating_sub(1);
        set_item(&mut self.keys, last, key);
    }

    /// The last line of formats, if there is one.
    fn last_line(&self) -> Line
        ensures { result ≡ specs.last_line self.now }
    {
        item_at(
            &self.lines,
            self.lines.len().saturating_sub(1),
            Line::empty(),
        )
    }

    /// Another in its place.
    fn set_last_line(&mut self, line: Line)
        ensures value { self.new ≡ specs.with_last_line line self.old }
        ensures room { held.emptied self.new ≡ held.emptied self.old }
    {
        let last = self.lines.len().saturating_sub(1);
        set_item(&mut self.lines, last, line);
    }

    /// A line of formats begins.
    pub fn begin_line(&mut self)
        ensures value { self.new ≡ specs.line_begun self.old }
        ensures room { held.emptied self.new ≡ held.emptied self.old }
    {
        let first = self.keys.len();
        add_item(
            &mut self.lines,
            Line {
                first,
                count: 0,
                bars: 0,
            },
        );
    }

    /// It ends with so many bars.
    pub fn end_line(&mut self, bars: usize)
        ensures value { self.new ≡ specs.line_ended bars self.old }
        ensures room { held.emptied self.new ≡ held.emptied self.old }
    {
        let line = self.last_line();
        self.set_last_line(Line { bars, ..line });
    }

    /// A key of the line that is read.
    pub fn add_key(&mut self, kind: Kind, bars: usize)
        ensures value { self.new ≡ specs.key_added kind bars self.old }
        ensures room { held.emptied self.new ≡ held.emptied self.old }
    {
        if self.keys.len() >= self.keys.capacity() {
            return;
        }
        let key = Key::usual();
        add_item(&mut self.keys, Key { kind, bars, ..key });
        let line = self.last_line();
        let count = line.count.saturating_add(1);
        self.set_last_line(Line { count, ..line });
    }

    /// The font of the last key.
    pub fn set_font(&mut self, font: Font)
        ensures value { self.new ≡ specs.font_set font self.old }
        ensures room { held.emptied self.new ≡ held.emptied self.old }
    {
        let key = self.last_key();
        self.set_last_key(Key {
            font: Some(font),
            ..key
        });
    }

    /// The last key has `e`.
    pub fn set_equal(&mut self)
        ensures value { self.new ≡ specs.equal_set self.old }
        ensures room { held.emptied self.new ≡ held.emptied self.old }
    {
        let key = self.last_key();
        self.set_last_key(Key { equal: true, ..key });
    }

    /// It has `x`.
    pub fn set_wide(&mut self)
        ensures value { self.new ≡ specs.wide_set self.old }
        ensures room { held.emptied self.new ≡ held.emptied self.old }
    {
        let key = self.last_key();
        self.set_last_key(Key { wide: true, ..key });
    }

    /// It has `z`.
    pub fn set_zero(&mut self)
        ensures value { self.new ≡ specs.zero_set self.old }
        ensures room { held.emptied self.new ≡ held.emptied self.old }
    {
        let key = self.last_key();
        self.set_last_key(Key { zero: true, ..key });
    }

    /// Where its fields stand that go on over rows below.
    pub fn set_stand(&mut self, stand: Stand)
        ensures value { self.new ≡ specs.stand_set stand self.old }
        ensures room { held.emptied self.new ≡ held.emptied self.old }
    {
        let key = self.last_key();
        self.set_last_key(Key { stand, ..key });
    }

    /// A width begins.
    pub fn begin_width(&mut self)
        ensures value { self.new ≡ specs.width_begun self.old }
        ensures room { held.emptied self.new ≡ held.emptied self.old }
    {
        self.open = Open::Width(self.text.len());
    }

    /// A space begins with this digit.
    pub fn begin_gap(&mut self, digit: u8)
        ensures value { self.new ≡ specs.gap_begun digit self.old }
        ensures room { held.emptied self.new ≡ held.emptied self.old }
    {
        self.open = Open::Gap(usize::from(digit.saturating_sub(b'0')));
    }

    /// Formats begin, after `.T&` or at first.
    pub fn formats_begin(&mut self)
        ensures value { self.new ≡ specs.formats_begun self.old }
        ensures room { held.emptied self.new ≡ held.emptied self.old }
    {
        self.next_line = self.lines.len();
    }

    /// They have ended: without a letter they are one of `l`.
    pub fn formats_end(&mut self)
        ensures value { self.new ≡ specs.formats_ended self.old }
        ensures room { held.emptied self.new ≡ held.emptied self.old }
    {
        self.close();
        if self.next_line >= self.lines.len() {
            self.next_line = self.lines.len();
            self.begin_line();
            self.add_key(Kind::Left, 0);
        }
        if self.rows.len() == 0 && self.items.len() == 0 {
            self.rows_from = self.text.len();
        }
        self.from = self.text.len();
    }
}
