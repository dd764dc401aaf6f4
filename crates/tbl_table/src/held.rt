//! What is held of a table, by number, and what stands for what isn't there.

ghost use Rattle.std.specs.Prelude.{◌≡◌, ◌-◌};
ghost use Rattle.tbl_table.specs.Held as held;

use super::lists::item_at;
use super::table::{Field, Form, Frame, Item, Key, Kind, Line, Looks, Row, Span, Stand, Table};

impl Kind {
    /// Whether its fields are numbers.
    pub fn is_number(self) -> bool
        ensures { result ≡ held.is_number self }
    {
        matches!(self, Kind::Number)
    }

    /// Whether it makes a rule of an empty field.
    pub fn is_ruling(self) -> bool
        ensures { result ≡ held.is_ruling self }
    {
        matches!(self, Kind::Rule | Kind::DoubleRule)
    }
}

impl Key {
    /// A column without a letter.
    pub fn usual() -> Key
        ensures { result ≡ held.usual }
    {
        Key {
            kind: Kind::Left,
            bars: 0,
            font: None,
            width: None,
            gap: None,
            equal: false,
            wide: false,
            zero: false,
            stand: Stand::Middle,
        }
    }
}

impl Looks {
    /// Without options.
    pub fn plain() -> Looks
        ensures { result ≡ held.plain }
    {
        Looks {
            center: false,
            expand: false,
            frame: Frame::Open,
            nokeep: false,
            nofit: false,
        }
    }
}

impl Line {
    /// One without keys.
    pub fn empty() -> Line
        ensures { result ≡ held.no_line }
    {
        Line {
            first: 0,
            count: 0,
            bars: 0,
        }
    }
}

impl Row {
    /// One without fields.
    pub fn empty() -> Row
        ensures { result ≡ held.no_row }
    {
        Row {
            first: 0,
            end: 0,
            line: 0,
            item: 0,
        }
    }
}

impl Field {
    /// A field without text.
    pub fn empty() -> Field
        ensures { result ≡ held.no_field }
    {
        Field {
            form: Form::Text,
            span: Span { start: 0, end: 0 },
            prefix: None,
        }
    }

    /// Whether it is text, and has some.
    pub fn has_text(self) -> bool
        ensures { result ≡ held.has_text self }
    {
        matches!(self.form, Form::Text) && self.span.start < self.span.end
    }
}

impl Table {
    /// The bytes of a part of the text.
    pub fn bytes(&self, span: Span) -> &[u8]
        ensures { result.now ≡ held.text_of self.now span }
    {
        let text = self.text.as_slice();
        if span.start <= span.end && span.end <= text.len() {
            &text[span.start..span.end]
        } else {
            b""
        }
    }

    /// The key of a column in a line of formats.
    pub fn key(&self, line: Line, column: usize) -> Key
        ensures { result ≡ held.key self.now line column }
    {
        if column >= line.count {
            return Key::usual();
        }
        item_at(&self.keys, line.first.saturating_add(column), Key::usual())
    }

    /// The bars before a column in a line of formats, or at its end.
    pub fn bars_in(&self, line: Line, column: usize) -> usize
        ensures { result ≡ held.bars_in self.now line column }
    {
        if column == line.count {
            return line.bars;
        }
        self.key(line, column).bars
    }

    /// A line of formats.
    pub fn line(&self, number: usize) -> Line
        ensures { result ≡ held.line self.now number }
    {
        item_at(&self.lines, number, Line::empty())
    }

    /// A row.
    pub fn row(&self, number: usize) -> Row
        ensures { result ≡ held.row self.now number }
    {
        item_at(&self.rows, number, Row::empty())
    }

    /// A field that was read.
    pub fn field(&self, number: usize) -> Field
        ensures { result ≡ held.field self.now number }
    {
        item_at(&self.fields, number, Field::empty())
    }

    /// An item.
    pub fn item(&self, number: usize) -> Item
        ensures { result ≡ held.item self.now number }
    {
        item_at(&self.items, number, Item::Rule)
    }

    /// Whether fields print something, from one up to another.
    #[tactic(auto, using(crate::proofs::Nexts::prints_next))]
    pub fn some_print(&self, first: usize, end: usize) -> bool
        ensures { result ≡ held.some_print (end - first) self.now first }
    {
        for number in first..end {
            let field = self.field(number);
            if field.has_text() || matches!(field.form, Form::Block) {
                return true;
            }
        }
        false
    }

    /// Whether it has a box.
    pub fn is_boxed(&self) -> bool
        ensures { result ≡ held.is_boxed self.now }
    {
        !matches!(self.looks.frame, Frame::Open)
    }

    /// Whether each field has one.
    pub fn is_all_boxed(&self) -> bool
        ensures { result ≡ held.is_all self.now.looks.frame }
    {
        matches!(self.looks.frame, Frame::All)
    }

    /// Whether it has two.
    pub fn is_double(&self) -> bool
        ensures { result ≡ held.is_double self.now.looks.frame }
    {
        matches!(self.looks.frame, Frame::Double)
    }
}
