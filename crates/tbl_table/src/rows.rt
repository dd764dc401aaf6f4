//! The rows of a table are read, with the rules and the requests among them.
ghost use Rattle.std.specs.Prelude.{◌≡◌};
ghost use Rattle.tbl_table.specs.Formats.{text_added};
ghost use Rattle.tbl_table.specs.Held as held;
ghost use Rattle.tbl_table.specs.Rows as specs;

use super::lists::add_item;
use super::table::{COLUMNS, Field, Form, Item, LINES, Line, Row, Span, Table};

/// Whether a text ends with `\\c`.
fn joins(text: &[u8]) -> bool
    ensures { result ≡ specs.joins text.now }
{
    text.len() >= 2 && text[text.len() - 2] == b'\\' && text[text.len() - 1] == b'c'
}

/// Whether a request is a comment.
fn is_comment(text: &[u8]) -> bool
    ensures { result ≡ specs.is_comment text.now }
{
    text.len() >= 3 && text[1] == b'\\' && text[2] == b'"'
}

impl Table {
    /// A byte of text is held, if there is room.
    pub fn add_text(&mut self, byte: u8)
        ensures value { self.new ≡ text_added byte self.old }
        ensures room { held.emptied self.new ≡ held.emptied self.old }
    {
        add_item(&mut self.text, byte);
    }

    /// A field whose text was added ends.
    fn push_field(&mut self, form: Form, end: usize, prefix: Option<usize>)
        ensures value { self.new ≡ specs.field_pushed form end prefix self.old }
        ensures room { held.emptied self.new ≡ held.emptied self.old }
    {
        let span = Span {
            start: self.from,
            end,
        };
        add_item(&mut self.fields, Field { form, span, prefix });
        self.from = self.text.len();
    }

    /// A field without text, or one that stands for another.
    pub fn add_mark(&mut self, form: Form)
        ensures value { self.new ≡ specs.mark_added form self.old }
        ensures room { held.emptied self.new ≡ held.emptied self.old }
    {
        let end = self.text.len();
        self.from = end;
        self.push_field(form, end, None);
    }

    /// A field of text. A `\\c` at its end would join rows, and is dropped.
    pub fn add_field(&mut self, text: &[u8], prefix: Option<usize>)
        ensures value { self.new ≡ specs.field_added text.now prefix self.old }
        ensures room { held.emptied self.new ≡ held.emptied self.old }
    {
        self.from = self.text.len();
        if text.len() <= self.text.capacity() - self.text.len() {
            self.text.extend(text);
        }
        let end = self.text.len();
        let joined = if joins(text) { 2 } else { 0 };
        self.push_field(Form::Text, end.saturating_sub(joined), prefix);
    }

    /// A block or a request begins.
    pub fn text_begins(&mut self)
        ensures value { self.new ≡ specs.text_begun self.old }
        ensures room { held.emptied self.new ≡ held.emptied self.old }
    {
        self.from = self.text.len();
    }

    /// A block ends.
    pub fn block_ends(&mut self)
        ensures value { self.new ≡ specs.block_ended self.old }
        ensures room { held.emptied self.new ≡ held.emptied self.old }
    {
        let end = self.text.len();
        self.push_field(Form::Block, end, None);
    }

    /// A request ends. A comment is none.
    pub fn request_ends(&mut self)
        ensures value { self.new ≡ specs.request_ended self.old }
        ensures room { held.emptied self.new ≡ held.emptied self.old }
    {
        let span = Span {
            start: self.from,
            end: self.text.len(),
        };
        if !is_comment(self.bytes(span)) {
            add_item(&mut self.items, Item::Request(span));
        }
        self.from = self.text.len();
    }

    /// Whether a line of formats takes no row.
    fn is_rule(&self, line: Line) -> bool
        ensures { result ≡ specs.is_rule self.now line }
    {
        for column in 0..line.count {
            if !self.key(line, column).kind.is_ruling() {
                return false;
            }
        }
        true
    }

    /// A rule across the table.
    pub fn add_rule(&mut self)
        ensures value { self.new ≡ specs.rule_added self.old }
        ensures room { held.emptied self.new ≡ held.emptied self.old }
    {
        add_item(&mut self.items, Item::Rule);
    }

    /// Lines of formats that are rules take no row.
    fn skip_rules(&mut self)
        ensures value { self.new ≡ specs.rules_skipped self.old }
        ensures room { held.emptied self.new ≡ held.emptied self.old }
    {
        for number in self.next_line..self.lines.len().saturating_sub(1) {
            if !self.is_rule(self.line(number)) {
                return;
            }
            self.add_rule();
            self.next_line = number + 1;
        }
    }

    /// The row ends.
    pub fn end_row(&mut self)
        ensures value { self.new ≡ specs.row_ended self.old }
        ensures room { held.emptied self.new ≡ held.emptied self.old }
    {
        self.skip_rules();
        let number = self.rows.len();
        let item = self.items.len();
        if number >= self.rows.capacity() || item >= self.items.capacity() {
            return;
        }
        let first = self.row_from;
        let end = self.fields.len();
        add_item(
            &mut self.rows,
            Row {
                first,
                end,
                line: self.next_line,
                item,
            },
        );
        add_item(&mut self.items, Item::Row(number));
        self.row_from = end;
        if self.next_line.saturating_add(1) < self.lines.len() {
            self.next_line = self.next_line.saturating_add(1);
        }
    }

    /// Whether there is no room for more text.
    pub fn is_full(&self) -> bool
        ensures { result ≡ specs.is_full self.now }
    {
        self.text.len() >= self.text.capacity()
    }

    /// How many fields the row has that is read.
    pub fn row_len(&self) -> usize
        ensures { result ≡ specs.row_len self.now }
    {
        self.fields.len().saturating_sub(self.row_from)
    }

    /// Whether the rows that were read should go out before another comes.
    pub fn is_tight(&self) -> bool
        ensures { result ≡ specs.is_tight self.now }
    {
        self.text.len().saturating_sub(self.rows_from) >= self.most_text
            || self.rows.capacity() - self.rows.len() < 2
            || self.fields.capacity() - self.fields.len() < COLUMNS + 2
            || self.items.capacity() - self.items.len() < LINES + 2
    }
}
