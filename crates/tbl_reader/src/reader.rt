//! A page is read: lines that pass at once, and those of a table line by line.
ghost use Rattle.std.specs.Prelude.{◌≡◌, ◌+◌, ◌^◌, ◌<◌, ◌≤◌, min, length, take, drop, true, IfOk};
ghost use Rattle.tbl_reader.specs.Commands.{begins_command, is_free};
ghost use Rattle.tbl_reader.specs.Pages.{forgotten, with_state, rest_of, line_of, memory_of};
ghost use Rattle.tbl_reader.specs.States.{first_state};
ghost use Rattle.tbl_reader.specs.Telling.{Tells};
ghost use Rattle.tbl_reader.specs.Reading as reading;
ghost use Rattle.tbl_reader.specs.RowLines as rows;
ghost use Rattle.tbl_reader.specs.Outside as specs;
ghost use Rattle.tbl_reader.specs.declared.state.Mode.TheVariants.{Passing, Plain, BlockLine};
ghost use Rattle.tbl_reader.specs.declared.command.Start.TheVariants.{Nothing};

use super::command::{Start, is_command, start_of};
use super::complaint::Kind;
use super::passing::{Lines, free_lines, line_len};
use super::state::{Mode, State};
use super::telling::{Setter, Tell};
use nr_vectors::{CountedAlloc, FixedVec};
use std::alloc::AllocError;
use std::marker::Model;

/// How many bytes are kept at most.
#[derive(Clone, Copy)]
pub struct Limits {
    /// Of the options and formats of a table.
    pub formats: usize,
    /// Of a line of a row, with those that go on from it.
    pub row: usize,
}

/// What is known of a page, with what is kept of its lines.
#[derive(Drop)]
pub struct Reader {
    pub(crate) state: State,
    pub(crate) limits: Limits,
    /// The options and formats so far; or the line so far, with those that it goes on from.
    pub(crate) kept: FixedVec<u8>,
    /// Where the formats begin in it, or the field.
    pub(crate) from: usize,
    /// Where the line begins in it.
    pub(crate) start: usize,
}

impl Model for Reader {
    ghost use Rattle.std.specs.Prelude.{◌<◌};
    ghost use Rattle.tbl_reader.specs.Pages.{Page};

    ghost Value = { Page };

    ghost view = { λ r. record {
      state = r.state;
      limits = r.limits;
      kept = r.kept.items;
      from = r.from;
      start = r.start;
    } };

    ghost invariant = { λ r. (r.limits.formats < r.kept.capacity) × (r.limits.row < r.kept.capacity) };
}

impl Reader {
    /// Takes the memory for what is kept.
    ///
    /// Proved: A page is read with one byte of memory more than the greater of the two limits, by the count of the
    /// allocator. (`taken` of what `Reader::new` ensures)
    pub fn new(alloc: &mut CountedAlloc, limits: Limits) -> Result<Reader, AllocError>
        ensures formats { IfOk result
            (λ made. made.limits.formats ≡ min limits.formats 18446744073709551614) }
        ensures row { IfOk result (λ made. made.limits.row ≡ min limits.row 18446744073709551614) }
        ensures taken { IfOk result (λ made. alloc.new ≡ alloc.old + memory_of made.limits) }
    {
        let room = limits.formats.max(limits.row).saturating_add(1);
        let kept = FixedVec::new(alloc, room)?;
        Ok(Reader {
            state: State::new(),
            limits: Limits {
                formats: limits.formats.min(room - 1),
                row: limits.row.min(room - 1),
            },
            kept,
            from: 0,
            start: 0,
        })
    }

    /// A page begins.
    pub fn begins(&mut self)
        ensures { self.new ≡ forgotten (with_state first_state self.old) }
    {
        self.state = State::new();
        self.forgets();
    }

    /// What is kept from where the formats begin, or the field.
    pub(crate) fn rest(&self) -> &[u8]
        ensures { result.now ≡ rest_of self.now }
    {
        tail_from(self.kept.as_slice(), self.from)
    }

    /// What is kept of the line.
    pub(crate) fn line(&self) -> &[u8]
        ensures { result.now ≡ line_of self.now }
    {
        tail_from(self.kept.as_slice(), self.start)
    }

    /// Nothing is kept.
    pub(crate) fn forgets(&mut self)
        ensures { self.new ≡ forgotten self.old }
    {
        self.kept.clear();
        self.from = 0;
        self.start = 0;
    }

    /// How much may be kept.
    pub(crate) fn limit(&self) -> usize
        ensures { result ≡ reading.limit_of self.now }
    {
        match self.state.mode {
            Mode::Head => self.limits.formats,
            _ => self.limits.row,
        }
    }

    /// Bytes of lines outside of tables. Tells how many were taken, as all below do.
    fn passes<S: Setter>(&mut self, start: Start, bytes: &[u8], setter: &mut S) -> usize
        requires some { 0 < length bytes.now }
        requires lines { self.old.state.line + length bytes.now < 2 ^ 64 }
        requires mode { self.old.state.mode ≡ Passing start }
        requires fits { reading.Fits self.old }
        ensures { reading.Took S.shows S.hears bytes.now self.old self.new setter.old setter.new result }
    {
        if matches!(start, Start::Nothing) {
            let lines = free_lines(bytes);
            if lines.len > 0 {
                return self.passes_lines(lines, bytes, setter);
            }
        }
        if start.is_free(bytes) {
            return self.passes_line(start, bytes, setter);
        }
        self.passes_byte(start, bytes[0], setter);
        1
    }

    /// A byte of a line outside of tables.
    fn passes_byte<S: Setter>(&mut self, start: Start, byte: u8, setter: &mut S)
        requires { self.old.state.line + 1 < 2 ^ 64 }
        ensures page { self.new ≡ (specs.passed byte start self.old).page }
        ensures emitted { Tells S.shows S.hears (specs.passed byte start self.old).pieces setter.old setter.new }
    {
        setter.tell(Tell::Pass, &[byte]);
        if byte == b'\n' {
            return self.passed_line(start, setter);
        }
        self.state.mode = Mode::Passing(start.with(byte, b'S'));
    }

    /// Whole lines that are no commands.
    fn passes_lines<S: Setter>(&mut self, lines: Lines, bytes: &[u8], setter: &mut S) -> usize
        requires some { 0 < lines.len }
        requires within { lines.len ≤ length bytes.now }
        requires few { lines.count ≤ lines.len }
        requires free { reading.AreFree lines bytes.now }
        requires lines { self.old.state.line + length bytes.now < 2 ^ 64 }
        requires mode { self.old.state.mode ≡ Passing Nothing }
        requires fits { reading.Fits self.old }
        ensures { reading.Took S.shows S.hears bytes.now self.old self.new setter.old setter.new result }
    {
        setter.tell(Tell::Pass, &bytes[..lines.len]);
        self.state.line += lines.count as u64;
        self.state.mode = Mode::Passing(Start::Nothing);
        lines.len
    }

    /// The rest of a line that is no command, as far as it came; a newline alone ends it.
    ///
    /// Proved: The lines of a table that isn't set, and lines of a text block that are too long to be kept, are said
    /// as the definition says byte by byte, however many bytes come at once, and so is the rest of a line outside of
    /// tables that is no command. (`passes_line`, `passes_plain`, `takes_block` of `Reader`)
    fn passes_line<S: Setter>(&mut self, start: Start, bytes: &[u8], setter: &mut S) -> usize
        requires some { 0 < length bytes.now }
        requires lines { self.old.state.line + length bytes.now < 2 ^ 64 }
        requires mode { self.old.state.mode ≡ Passing start }
        requires free { is_free start bytes.now ≡ true }
        requires fits { reading.Fits self.old }
        ensures { reading.Took S.shows S.hears bytes.now self.old self.new setter.old setter.new result }
    {
        let len = line_len(bytes);
        if len == bytes.len() {
            setter.tell(Tell::Pass, bytes);
            self.state.mode = Mode::Passing(Start::Other);
            return len;
        }
        setter.tell(Tell::Pass, &bytes[..len + 1]);
        self.state.line += 1;
        self.state.mode = Mode::Passing(Start::Nothing);
        len + 1
    }

    /// A line that passed ends, and began so.
    fn passed_line<S: Setter>(&mut self, start: Start, setter: &mut S)
        requires { self.old.state.line + 1 < 2 ^ 64 }
        ensures page { self.new ≡ (specs.line_passed (begins_command start) self.old).page }
        ensures emitted { Tells S.shows S.hears (specs.line_passed (begins_command start) self.old).pieces
            setter.old setter.new }
    {
        self.state.mode = Mode::Passing(Start::Nothing);
        if start.is_command() {
            self.state.begins_table();
            self.forgets();
            setter.tell(Tell::Table(self.state.begun), b"");
        }
        self.state.line += 1;
    }

    /// Bytes of lines of a table that isn't set.
    fn passes_plain<S: Setter>(&mut self, start: Start, bytes: &[u8], setter: &mut S) -> usize
        requires some { 0 < length bytes.now }
        requires lines { self.old.state.line + length bytes.now < 2 ^ 64 }
        requires mode { self.old.state.mode ≡ Plain start }
        requires fits { reading.Fits self.old }
        ensures { reading.Took S.shows S.hears bytes.now self.old self.new setter.old setter.new result }
    {
        self.passes_plain_byte(start, bytes[0], setter);
        1
    }

    /// A byte of a line of a table that isn't set.
    fn passes_plain_byte<S: Setter>(&mut self, start: Start, byte: u8, setter: &mut S)
        requires { self.old.state.line + 1 < 2 ^ 64 }
        ensures page { self.new ≡ (specs.plain_passed byte start self.old).page }
        ensures emitted { Tells S.shows S.hears (specs.plain_passed byte start self.old).pieces setter.old
            setter.new }
    {
        setter.tell(Tell::Pass, &[byte]);
        if byte == b'\n' {
            return self.passed_plain_line(start, setter);
        }
        self.state.mode = Mode::Plain(start.with(byte, b'E'));
    }

    /// Such a line ends, and began so.
    fn passed_plain_line<S: Setter>(&mut self, start: Start, setter: &mut S)
        requires { self.old.state.line + 1 < 2 ^ 64 }
        ensures page { self.new ≡ (specs.plain_line_passed (begins_command start) self.old).page }
        ensures emitted { Tells S.shows S.hears (specs.plain_line_passed (begins_command start) self.old).pieces
            setter.old setter.new }
    {
        self.state.line += 1;
        self.state.mode = Mode::Plain(Start::Nothing);
        if start.is_command() {
            self.state.mode = Mode::Passing(Start::Nothing);
            setter.tell(Tell::PlainEnd, b"");
        }
    }

    /// Bytes of a line in a text block of which a part was emitted.
    fn takes_block<S: Setter>(&mut self, bytes: &[u8], setter: &mut S) -> usize
        requires some { 0 < length bytes.now }
        requires lines { self.old.state.line + length bytes.now < 2 ^ 64 }
        requires mode { self.old.state.mode ≡ BlockLine }
        requires fits { reading.Fits self.old }
        ensures { reading.Took S.shows S.hears bytes.now self.old self.new setter.old setter.new result }
    {
        let len = line_len(bytes);
        if len > 0 {
            setter.tell(Tell::BlockText, &bytes[..len]);
            return len;
        }
        setter.tell(Tell::BlockText, b"\n");
        self.state.line += 1;
        self.state.mode = Mode::Block;
        1
    }

    /// Bytes of a line that is kept.
    fn keeps<S: Setter>(&mut self, bytes: &[u8], setter: &mut S) -> usize
        requires some { 0 < length bytes.now }
        requires lines { self.old.state.line + length bytes.now < 2 ^ 64 }
        requires kept { reading.is_kept self.old.state.mode ≡ true }
        requires fits { reading.Fits self.old }
        ensures { reading.Took S.shows S.hears bytes.now self.old self.new setter.old setter.new result }
    {
        let len = line_len(bytes);
        if len == 0 {
            self.kept_line_ends(setter);
            return 1;
        }
        let count = self.keeps_prefix(&bytes[..len]);
        self.kept_more(setter);
        count
    }

    /// Bytes that come are kept, one more than may be at most: tells how many.
    fn keeps_prefix(&mut self, bytes: &[u8]) -> usize
        requires some { 0 < length bytes.now }
        requires fits { reading.Fits self.old }
        ensures some { 0 < result }
        ensures within { result ≤ length bytes.now }
        ensures few { length self.old.kept + result ≤ reading.limit_of self.old + 1 }
        ensures page { self.new ≡ reading.with_kept (take result bytes.now) self.old }
    {
        let free = (self.limit() - self.kept.len()).saturating_add(1);
        let count = bytes.len().min(free);
        self.kept.extend(&bytes[..count]);
        count
    }

    /// A line that was kept ends, and another begins.
    fn kept_line_ends<S: Setter>(&mut self, setter: &mut S)
        requires lines { self.old.state.line + 1 < 2 ^ 64 }
        requires kept { reading.is_kept self.old.state.mode ≡ true }
        requires fits { reading.Fits self.old }
        ensures page { self.new ≡ (reading.line_ended self.old).page }
        ensures emitted { Tells S.shows S.hears (reading.line_ended self.old).pieces setter.old setter.new }
    {
        self.line_ends(setter);
        self.state.line += 1;
    }

    /// More of a line is kept than there was, or more than may be.
    fn kept_more<S: Setter>(&mut self, setter: &mut S)
        ensures page { self.new ≡ (reading.kept_more self.old).page }
        ensures emitted { Tells S.shows S.hears (reading.kept_more self.old).pieces setter.old setter.new }
    {
        if self.kept.len() > self.limit() {
            self.overflows(setter);
        }
    }

    /// A line that was kept ends.
    fn line_ends<S: Setter>(&mut self, setter: &mut S)
        ensures page { self.new ≡ (reading.line_ended_in self.old.state.mode self.old).page }
        ensures emitted { Tells S.shows S.hears (reading.line_ended_in self.old.state.mode self.old).pieces
            setter.old setter.new }
    {
        match self.state.mode {
            Mode::Head => self.head_line(setter),
            Mode::Rows => self.line_between(setter),
            Mode::Row => self.row_line(setter),
            Mode::Block => self.block_line(setter),
            _ => {}
        }
    }

    /// More bytes come than may be kept.
    fn overflows<S: Setter>(&mut self, setter: &mut S)
        ensures page { self.new ≡ (reading.overflown self.old).page }
        ensures emitted { Tells S.shows S.hears (reading.overflown self.old).pieces setter.old setter.new }
    {
        match self.state.mode {
            Mode::Head => self.head_overflows(setter),
            Mode::Rows if is_command(self.kept.as_slice(), b'E') => self.long_end(setter),
            Mode::Block => self.block_overflows(setter),
            _ => self.row_overflows(setter),
        }
    }

    /// The line of `.TE`, so far: the rest of it passes.
    pub(crate) fn long_end<S: Setter>(&mut self, setter: &mut S)
        ensures page { self.new ≡ (rows.long_end self.old).page }
        ensures emitted { Tells S.shows S.hears (rows.long_end self.old).pieces setter.old setter.new }
    {
        setter.tell(Tell::TableEnd, b"");
        setter.tell(Tell::Pass, self.kept.as_slice());
        self.state.mode = Mode::Passing(Start::Other);
        self.forgets();
    }

    /// The line of `.TE`.
    pub(crate) fn table_ends<S: Setter>(&mut self, setter: &mut S)
        ensures page { self.new ≡ (rows.table_ended self.old).page }
        ensures emitted { Tells S.shows S.hears (rows.table_ended self.old).pieces setter.old setter.new }
    {
        setter.tell(Tell::TableEnd, b"");
        setter.tell(Tell::Pass, self.kept.as_slice());
        setter.tell(Tell::Pass, b"\n");
        self.state.mode = Mode::Passing(Start::Nothing);
        self.forgets();
    }

    /// The table isn't set further: what is kept of it stands as it is, from here on.
    pub(crate) fn gives_up<S: Setter>(&mut self, kind: Kind, setter: &mut S)
        ensures page { self.new ≡ (specs.given_up kind self.old).page }
        ensures emitted { Tells S.shows S.hears (specs.given_up kind self.old).pieces setter.old setter.new }
    {
        self.state.complains(kind, setter);
        setter.tell(Tell::Plain, b"");
        setter.tell(Tell::Pass, self.rest());
        let start = start_of(self.line(), b'E');
        self.state.mode = Mode::Plain(start);
        self.forgets();
    }

    /// Bytes come, of which there is one at least: so many are taken.
    pub(crate) fn read<S: Setter>(&mut self, bytes: &[u8], setter: &mut S) -> usize
        requires some { 0 < length bytes.now }
        requires lines { self.old.state.line + length bytes.now < 2 ^ 64 }
        requires fits { reading.Fits self.old }
        ensures { reading.Took S.shows S.hears bytes.now self.old self.new setter.old setter.new result }
    {
        match self.state.mode {
            Mode::Passing(start) => self.passes(start, bytes, setter),
            Mode::Plain(start) => self.passes_plain(start, bytes, setter),
            Mode::BlockLine => self.takes_block(bytes, setter),
            _ => self.keeps(bytes, setter),
        }
    }
}

/// What stands after so many bytes.
pub(crate) fn tail_from(bytes: &[u8], from: usize) -> &[u8]
    ensures { result.now ≡ drop from bytes.now }
{
    if from < bytes.len() {
        &bytes[from..]
    } else {
        b""
    }
}
