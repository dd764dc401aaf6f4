//! What lines outside of tables say of those that follow: that the page is a manual page, whether lines are spread, how long they are
//! and what they are indented, and which strings and registers are defined in plain text.
ghost use Rattle.std.specs.Prelude.{◌≡◌, ◌+◌, ◌<◌, ◌≤◌, IfOk, drop, length};
ghost use Rattle.tbl_columns.specs.Held.{emptied};
ghost use Rattle.tbl_setting.specs.Watching as specs;

use super::arguments::{
    accepted, after_arguments, after_blanks, argument, argument_len, definition_at, number_of,
};
use super::conditions::{held_after, is_left_out};
use super::lengths::{cells_said, paper_cells};
use super::margins::{INDENT, Margins, or_number};
use super::papers::Paper;
use super::requests::{Request, request_of};
use nr_units::Name;
use nr_vectors::{CountedAlloc, FixedVec};
use std::alloc::AllocError;
use tbl_blocks::{Known, name_of, request_in};
use tbl_columns::{Grid, Room};
use tbl_table::{add_item, set_item};

/// How many bytes of a line are heard.
const KEPT: usize = 128;

/// The greatest length of a string's name that is known.
const NAME: usize = 32;

/// What is known of the page around its tables.
#[derive(Drop)]
pub(crate) struct Around {
    /// It is a manual page.
    pub manual: bool,
    /// A section of it has begun, whose text is indented.
    pub within: bool,
    /// Full lines are spread.
    pub spreads: bool,
    /// How many cells a line has, and had before.
    pub cells: usize,
    pub last_cells: usize,
    /// Its lines are copied, and say nothing.
    pub copies: bool,
    /// The condition of the last `.ie` held, so that nothing of `.el` is done.
    pub held: bool,
    pub margins: Margins,
    pub paper: Paper,
}

/// What was heard.
#[derive(Drop)]
pub(crate) struct Watch {
    /// The line that is heard.
    line: FixedVec<u8>,
    around: Around,
}

/// Whether a line that begins with a byte is a request's.
fn is_control(byte: u8) -> bool
    ensures { result ≡ specs.is_control byte }
{
    byte == b'.' || byte == b'\''
}

/// Whether a line is one.
fn begins_control(line: &[u8]) -> bool
    ensures { result ≡ specs.begins_control line.now }
{
    match line.split_first() {
        None => false,
        Some((first, _rest)) => is_control(*first),
    }
}

/// Whether a line ends those that are copied.
fn ends_copy(line: &[u8]) -> bool
    ensures { result ≡ specs.ends_copy line.now }
{
    matches!(line, [b'.', b'.', ..])
}

/// How many bytes stand before a newline.
fn line_len(text: &[u8]) -> usize
    ensures value { result ≡ specs.line_len text.now }
    ensures within { result ≤ length text.now }
{
    let mut len = 0;
    for byte in text {
        if *byte == b'\n' {
            return len;
        }
        len += 1;
    }
    len
}

impl Around {
    /// Nothing is known but that a line has so many cells.
    fn begin(&mut self, cells: usize)
        ensures { self.new ≡ specs.nothing_known cells self.old }
    {
        self.manual = false;
        self.within = false;
        self.spreads = true;
        self.cells = cells;
        self.last_cells = cells;
        self.copies = false;
        self.held = false;
        self.margins.begin();
        self.paper = Paper::new();
    }

    /// What lines are indented.
    fn indent(&self) -> usize
        ensures { result ≡ specs.indent self.now }
    {
        if !self.manual {
            return self.margins.parts().saturating_add(self.paper.left);
        }
        if self.within {
            self.margins.sum().saturating_add(INDENT)
        } else {
            0
        }
    }

    /// The line in which tables stand that follow.
    fn room(&self, fits: bool) -> Room
        ensures { result ≡ specs.room_of fits self.now }
    {
        Room {
            line: self.cells.saturating_sub(self.paper.right),
            indent: self.indent(),
            fits: fits && self.manual,
        }
    }

    /// `.ll`
    fn set_length(&mut self, text: &[u8])
        ensures { self.new ≡ specs.length_set text.now self.old }
    {
        let cells = or_number(cells_said(text, self.cells), self.last_cells);
        self.last_cells = self.cells;
        self.cells = cells;
    }

    /// `.nr LL`, by which a paper says how long its lines are; `.nr QI` and `.nr qi`, what a quote takes; `.nr PI`, what a part does.
    fn set_paper(&mut self, name: &[u8], text: &[u8])
        ensures { self.new ≡ specs.paper_set name.now text.now self.old }
    {
        let said = paper_cells(text);
        if name == b"LL".as_slice() {
            self.cells = or_number(said, self.cells);
        } else if name == b"QI".as_slice() || name == b"qi".as_slice() {
            self.paper.quote = said;
        } else if name == b"PI".as_slice() {
            self.paper.part = or_number(said, self.paper.part);
        }
    }

    /// A section begins.
    fn begin_section(&mut self)
        ensures { self.new ≡ specs.section_begun self.old }
    {
        self.within = true;
        self.margins.begin();
    }

    /// `.ad`
    fn set_spread(&mut self, text: &[u8])
        ensures { self.new ≡ specs.adjusted text.now self.old }
    {
        self.spreads = !matches!(text, [b'l' | b'c' | b'r', ..]);
    }

    /// `.IP`
    fn set_tag(&mut self, said: Option<usize>)
        ensures { self.new ≡ specs.tagged said self.old }
    {
        let said = self.said_or_part(said);
        self.margins.set_tag(said);
    }

    /// `.RS`
    fn go_deeper(&mut self, said: Option<usize>)
        ensures { self.new ≡ specs.deeper said self.old }
    {
        let said = self.said_or_part(said);
        self.margins.go_deeper(said);
    }

    /// A request, with its name and its arguments.
    fn obey(&mut self, request: Request, text: &[u8])
        ensures { self.new ≡ specs.obeyed request text.now self.old }
    {
        let first = argument(text, 0);
        match request {
            Request::Title => self.manual = true,
            Request::Section => self.begin_section(),
            Request::Paragraph => self.margins.end_tag(),
            Request::Item => self.set_tag(number_of(argument(text, 1))),
            Request::Tagged => self.margins.set_tag(number_of(first)),
            Request::Deeper => self.go_deeper(number_of(first)),
            Request::Back => self.margins.go_back(),
            Request::Indent => self.margins.set_more(first),
            Request::Ragged => self.spreads = false,
            Request::Adjust => self.set_spread(first),
            Request::Length => self.set_length(first),
            Request::Copy => self.copies = true,
            Request::Paper(name) if !self.manual => self.obey_paper(name, text),
            Request::Paper(_) | Request::Register | Request::Other => {}
        }
    }

    /// A line of a request.
    fn hear_request(&mut self, text: &[u8], grid: &mut Grid)
        ensures value { specs.hearing self.new grid.new ≡ specs.request_heard text.now (specs.hearing self.old grid.old) }
        ensures room { emptied grid.new ≡ emptied grid.old }
    {
        let request = request_of(name_of(text));
        if matches!(request, Request::Register) {
            grid.room = self.room(false);
            grid.set_register(argument(text, 0), after_arguments(text, 1));
            self.set_paper(argument(text, 0), argument(text, 1));
            return;
        }
        self.obey(request, text);
    }

    /// A line whose request is done, or may be.
    fn hear_done(&mut self, line: &[u8], grid: &mut Grid)
        ensures value { specs.hearing self.new grid.new ≡ specs.done_heard line.now (specs.hearing self.old grid.old) }
        ensures room { emptied grid.new ≡ emptied grid.old }
    {
        match definition_at(line) {
            Some(place) => hear_string(after_blanks(&line[place..]), grid),
            None => self.hear_request(accepted(request_in(line)), grid),
        }
    }

    /// A line that begins with a control character.
    fn hear_control(&mut self, line: &[u8], grid: &mut Grid)
        ensures value { specs.hearing self.new grid.new ≡ specs.control_heard line.now (specs.hearing self.old grid.old) }
        ensures room { emptied grid.new ≡ emptied grid.old }
    {
        let request = request_in(line);
        let left_out = is_left_out(request, self.held);
        self.held = held_after(request, self.held);
        if !left_out {
            self.hear_done(line, grid);
        }
    }

    /// A line that has ended. One of two points ends those that are copied.
    fn hear_line(&mut self, line: &[u8], grid: &mut Grid)
        ensures value { specs.hearing self.new grid.new ≡ specs.line_heard line.now (specs.hearing self.old grid.old) }
        ensures room { emptied grid.new ≡ emptied grid.old }
    {
        if self.copies {
            self.copies = !ends_copy(line);
        } else if begins_control(line) {
            self.hear_control(line, grid);
        }
    }
}

impl Watch {
    /// Takes the memory. Nothing was heard; a line has so many cells.
    pub(crate) fn new(alloc: &mut CountedAlloc, cells: usize) -> Result<Watch, AllocError>
        ensures value { IfOk result (λ made. made ≡ specs.first_watch cells) }
        ensures taken { IfOk result (λ made. alloc.new ≡ alloc.old + specs.memory) }
    {
        let line = FixedVec::new(alloc, KEPT)?;
        let margins = Margins::new(alloc)?;
        let around = Around {
            manual: false,
            within: false,
            spreads: true,
            cells,
            last_cells: cells,
            copies: false,
            held: false,
            margins,
            paper: Paper::new(),
        };
        Ok(Watch { line, around })
    }

    /// Nothing was heard; a line has so many cells.
    pub(crate) fn begin(&mut self, cells: usize)
        ensures { self.new ≡ specs.begun cells self.old }
    {
        self.line.clear();
        self.around.begin(cells);
    }

    /// Whether full lines of blocks are spread.
    pub(crate) fn spreads(&self) -> bool
        ensures { result ≡ self.now.around.spreads }
    {
        self.around.spreads
    }

    /// The line in which tables stand that follow.
    pub(crate) fn room(&self, fits: bool) -> Room
        ensures { result ≡ specs.room_of fits self.now.around }
    {
        self.around.room(fits)
    }

    /// A line has ended.
    fn end_line(&mut self, grid: &mut Grid)
        ensures value { specs.watching self.new grid.new ≡ specs.line_ended (specs.watching self.old grid.old) }
        ensures room { emptied grid.new ≡ emptied grid.old }
    {
        self.around.hear_line(self.line.as_slice(), grid);
        self.line.clear();
    }

    /// Whether a line of text is under way, which says nothing.
    fn is_text(&self) -> bool
        ensures { result ≡ specs.is_text self.now.line.items }
    {
        match self.line.as_slice().split_first() {
            None => false,
            Some((first, _rest)) => !is_control(*first),
        }
    }

    /// How many of these bytes belong to such a line.
    fn text_len(&self, text: &[u8]) -> usize
        ensures value { result ≡ specs.text_len text.now self.now }
        ensures within { result ≤ length text.now }
    {
        if self.is_text() { line_len(text) } else { 0 }
    }

    /// A byte passes.
    fn hear_byte(&mut self, byte: u8, grid: &mut Grid)
        ensures value { specs.watching self.new grid.new ≡ specs.byte_heard byte (specs.watching self.old grid.old) }
        ensures room { emptied grid.new ≡ emptied grid.old }
    {
        if byte == b'\n' {
            self.end_line(grid);
        } else if !self.is_text() {
            add_item(&mut self.line, byte);
        }
    }

    /// Bytes of a line of a request that is under way are held, as many as have room. Tells how many there are.
    fn hold(&mut self, text: &[u8]) -> usize
        ensures count { result ≡ specs.request_len text.now self.old }
        ensures within { result ≤ length text.now }
        ensures value { self.new ≡ specs.held result text.now self.old }
    {
        if !begins_control(self.line.as_slice()) {
            return 0;
        }
        let len = line_len(text);
        let room = self.line.capacity() - self.line.len();
        self.line.extend_prefix(text, len.min(room));
        len
    }

    /// The first of these bytes pass: those of a line that is under way, or one. Tells how many.
    fn hear_some(&mut self, text: &[u8], grid: &mut Grid) -> usize
        requires { 0 < length text.now }
        ensures some { 0 < result }
        ensures within { result ≤ length text.now }
        ensures value { specs.heard (drop result text.now) (specs.watching self.new grid.new)
            ≡ specs.heard text.now (specs.watching self.old grid.old) }
        ensures room { emptied grid.new ≡ emptied grid.old }
    {
        let len = self.text_len(text);
        if len > 0 {
            return len;
        }
        let held = self.hold(text);
        if held > 0 {
            return held;
        }
        self.hear_byte(text[0], grid);
        1
    }

    /// Bytes pass.
    pub(crate) fn hear(&mut self, text: &[u8], grid: &mut Grid)
        ensures value { specs.watching self.new grid.new ≡ specs.heard text.now (specs.watching self.old grid.old) }
        ensures room { emptied grid.new ≡ emptied grid.old }
    {
        let mut at = 0;
        while at < text.len() {
            at += self.hear_some(&text[at..], grid);
        }
    }
}

/// The text of a string after its name of so many bytes: a quote before it is none of it.
fn string_of(text: &[u8], name: usize) -> &[u8]
    ensures { result.now ≡ specs.string_of text.now name }
{
    if name >= text.len() {
        return b"";
    }
    match &text[name + 1..] {
        [b'"', rest @ ..] => rest,
        rest => rest,
    }
}

/// The number of a string that is known, by its name.
fn string_number(name: &[u8], strings: &[Known]) -> Option<usize>
    ensures { result ≡ specs.string_number name.now strings.now }
{
    for (number, string) in strings.iter().enumerate() {
        if string.name.as_bytes() == name {
            return Some(number);
        }
    }
    None
}

/// A string is defined: it is known, if its text takes as many cells as it shows, or if it was known before.
fn define(name: &[u8], text: &[u8], grid: &mut Grid)
    ensures value { grid.new ≡ specs.string_defined name.now text.now grid.old }
    ensures room { emptied grid.new ≡ emptied grid.old }
{
    if name.is_empty() || name.len() > NAME {
        return;
    }
    let extent = grid.blocks.extent(text);
    let known = Known {
        name: Name::of(name),
        cells: extent.cells,
    };
    match string_number(name, grid.blocks.strings.as_slice()) {
        Some(number) => set_item(&mut grid.blocks.strings, number, known),
        None if extent.sure => add_item(&mut grid.blocks.strings, known),
        None => {}
    }
}

/// A line that defines a string, after `.ds`.
fn hear_string(text: &[u8], grid: &mut Grid)
    ensures value { grid.new ≡ specs.string_heard text.now grid.old }
    ensures room { emptied grid.new ≡ emptied grid.old }
{
    let len = argument_len(text);
    define(&text[..len], string_of(text, len), grid);
}
