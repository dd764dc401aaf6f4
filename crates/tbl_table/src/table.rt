//! A table as it was read: its options, its formats, and its rows with their fields.

ghost use Rattle.std.specs.Prelude.{◌≡◌, ◌+◌, IfOk};
ghost use Rattle.tbl_table.specs.Held as held;
ghost use Rattle.tbl_table.specs.Table as specs;

use super::signs::Signs;
use nr_vectors::{CountedAlloc, FixedVec};
use std::alloc::AllocError;
use tbl_blocks::Font;

/// The greatest number of columns.
pub const COLUMNS: usize = 64;

/// The greatest number of lines of formats.
pub const LINES: usize = 256;

/// The frame of a table.
#[derive(Clone, Copy)]
pub enum Frame {
    /// None.
    Open,
    /// A box around it.
    Single,
    /// A box around each field.
    All,
    /// A box of two lines.
    Double,
}

/// What the options of a table say of its looks.
#[derive(Clone, Copy)]
pub struct Looks {
    /// It stands in the middle of the line.
    pub center: bool,
    /// It is as wide as the line.
    pub expand: bool,
    /// Its frame.
    pub frame: Frame,
    /// It may be cut by the end of a page.
    pub nokeep: bool,
    /// It stays as wide as it is, where it is wider than the line.
    pub nofit: bool,
}

/// A part of the text that is held.
#[derive(Clone, Copy)]
pub struct Span {
    /// Where it begins.
    pub start: usize,
    /// Where it ends.
    pub end: usize,
}

/// What a field is.
#[derive(Clone, Copy)]
pub enum Form {
    /// Text, or nothing.
    Text,
    /// A rule through the column.
    Rule,
    /// A rule as wide as what stands in the column.
    Inner,
    /// A byte that is repeated over its width.
    Repeat(u8),
    /// Nothing: the field above goes on.
    Above,
    /// A text block.
    Block,
}

/// A field of a row.
#[derive(Clone, Copy)]
pub struct Field {
    /// What it is.
    pub form: Form,
    /// Its text.
    pub span: Span,
    /// How many bytes of a number stand before the place where it is aligned.
    pub prefix: Option<usize>,
}

/// Where a field stands that goes on over rows below.
#[derive(Clone, Copy)]
pub enum Stand {
    /// At the top of its rows.
    Top,
    /// In their middle.
    Middle,
    /// At their bottom.
    Low,
}

/// What a letter of the formats says of its fields.
#[derive(Clone, Copy)]
pub enum Kind {
    /// `l`: they stand at the left.
    Left,
    /// `r`: at the right.
    Right,
    /// `c`: in the middle.
    Centre,
    /// `n`: numbers are aligned.
    Number,
    /// `a`: together in the middle, at the left of the widest.
    Alpha,
    /// `s`: the field to the left goes on.
    Across,
    /// `^`: the field above goes on, where there is no other.
    Down,
    /// `_`: a rule, where there is no field.
    Rule,
    /// `=`: one of two lines.
    DoubleRule,
}

/// A letter of a line of formats, and what modifies it.
#[derive(Clone, Copy)]
pub struct Key {
    /// What the letter says.
    pub kind: Kind,
    /// The bars before it.
    pub bars: usize,
    /// Its font, if it says one.
    pub font: Option<Font>,
    /// What `w` says.
    pub width: Option<Span>,
    /// The space after it.
    pub gap: Option<usize>,
    /// `e`
    pub equal: bool,
    /// `x`
    pub wide: bool,
    /// `z`
    pub zero: bool,
    /// `t`, `d` or none.
    pub stand: Stand,
}

/// A line of formats.
#[derive(Clone, Copy)]
pub struct Line {
    /// Its first key.
    pub first: usize,
    /// How many it has.
    pub count: usize,
    /// The bars at its end.
    pub bars: usize,
}

/// A row.
#[derive(Clone, Copy)]
pub struct Row {
    /// Its first field.
    pub first: usize,
    /// Behind its last one.
    pub end: usize,
    /// Its line of formats.
    pub line: usize,
    /// Which item it is.
    pub item: usize,
}

/// What stands below one another in a table.
#[derive(Clone, Copy)]
pub enum Item {
    /// A row.
    Row(usize),
    /// A rule across the table.
    Rule,
    /// A line of a request.
    Request(Span),
}

/// What is read of a key's modifier.
#[derive(Clone, Copy)]
pub enum Open {
    /// None.
    Nothing,
    /// A width, whose text begins here.
    Width(usize),
    /// A space so far.
    Gap(usize),
}

/// A table, as far as it was read.
///
/// Proved: What a call reads into a table is what the definition makes of it: options, letters and what modifies
/// them, fields, blocks, rules, requests, rows. (`Table`, formats.rt, rows.rt)
#[derive(Drop)]
pub struct Table {
    pub looks: Looks,
    /// What frames and rules are drawn with.
    pub signs: Signs,
    pub text: FixedVec<u8>,
    pub keys: FixedVec<Key>,
    pub lines: FixedVec<Line>,
    pub fields: FixedVec<Field>,
    pub rows: FixedVec<Row>,
    pub items: FixedVec<Item>,
    pub open: Open,
    /// The line of formats of the next row.
    pub next_line: usize,
    /// The first field of the row that is read.
    pub row_from: usize,
    /// Where its block or request begins.
    pub from: usize,
    /// Where the text of rows begins.
    pub rows_from: usize,
    /// How many bytes of rows are held before they should go out.
    pub most_text: usize,
}

/// Three lists with room for so many.
fn three_lists<A: Copy, B: Copy, C: Copy>(
    alloc: &mut CountedAlloc,
    first: usize,
    second: usize,
    third: usize,
) -> Result<(FixedVec<A>, FixedVec<B>, FixedVec<C>), AllocError>
    ensures first { IfOk result (λ made. made.0 ≡ specs.room_for first) }
    ensures second { IfOk result (λ made. made.1 ≡ specs.room_for second) }
    ensures third { IfOk result (λ made. made.2 ≡ specs.room_for third) }
    ensures taken { IfOk result (λ made. alloc.new ≡ alloc.old + first + second + third) }
{
    Ok((
        FixedVec::new(alloc, first)?,
        FixedVec::new(alloc, second)?,
        FixedVec::new(alloc, third)?,
    ))
}

impl Table {
    /// Takes the memory for a table of so many bytes, whose rows have so many at most, and which is drawn with these.
    ///
    /// Proved: A table is made of as many elements of memory as its limits ask for, by the count of the allocator.
    /// (`taken` of what `Table::new` ensures)
    pub fn new(
        alloc: &mut CountedAlloc,
        most: usize,
        row: usize,
        signs: Signs,
    ) -> Result<Table, AllocError>
        ensures value { IfOk result (λ made. made ≡ specs.first_table signs most row) }
        ensures taken { IfOk result (λ made. alloc.new ≡ alloc.old + specs.memory_of most row) }
    {
        let bytes = most.saturating_add(row).saturating_add(64);
        let rows = most / COLUMNS + 2;
        let items = rows * 2 + 2 * LINES;
        let (text, keys, lines) = three_lists(alloc, bytes, COLUMNS * LINES, LINES)?;
        let (fields, rows, items) = three_lists(alloc, bytes, rows, items)?;
        Ok(Table {
            looks: Looks::plain(),
            signs,
            text,
            keys,
            lines,
            fields,
            rows,
            items,
            open: Open::Nothing,
            next_line: 0,
            row_from: 0,
            from: 0,
            rows_from: 0,
            most_text: most,
        })
    }

    /// A table begins: nothing is held of another.
    ///
    /// Proved: A table keeps the room that it has: each call that changes it says so, and one that begins a table
    /// leaves nothing else. (`room` of what these ensure; `begin`)
    pub fn begin(&mut self)
        ensures { self.new ≡ held.emptied self.old }
    {
        self.looks = Looks::plain();
        self.text.clear();
        self.keys.clear();
        self.lines.clear();
        self.open = Open::Nothing;
        self.next_line = 0;
        self.rows_from = 0;
        self.forget_rows();
    }

    /// How it looks.
    pub fn set_looks(&mut self, looks: Looks)
        ensures value { self.new ≡ specs.looking looks self.old }
        ensures room { held.emptied self.new ≡ held.emptied self.old }
    {
        self.looks = looks;
    }

    /// Its rows are forgotten.
    pub fn forget_rows(&mut self)
        ensures value { self.new ≡ specs.forgotten self.old }
        ensures room { held.emptied self.new ≡ held.emptied self.old }
    {
        let kept = self.rows_from.min(self.text.len());
        self.text.truncate(kept);
        self.fields.clear();
        self.rows.clear();
        self.items.clear();
        self.row_from = 0;
        self.from = self.rows_from;
    }

    /// The greatest number of columns of a line.
    pub fn width(&self) -> usize
        ensures { result ≡ specs.width self.now }
    {
        let mut most = 0;
        for line in self.lines.as_slice() {
            most = line.count.max(most);
        }
        most.min(COLUMNS)
    }
}
