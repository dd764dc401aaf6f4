//! The bytes of cells are read, one after the other, and what they show goes out.
ghost use Rattle.std.specs.Prelude.{◌≡◌, ◌+◌, ◌*◌, ◌<◌, ◌≤◌, [], ◌∷◌, ◌++◌, drop, length, IfSome, IsTrue};
ghost use Rattle.utf8_own_sink.specs.Cells as specs;
ghost use Rattle.utf8_own_sink.specs.Reading.{IsBare, IsBareLetter, IsResting, Moves, after, begun_after, begun_said, cell_after, cell_said, drawn_all, ended, first, goes_plain, holds, let_go, next_after, next_said, passes, released, released_said, said, ways_past, with_half};
ghost use Rattle.utf8_own_sink.specs.declared.cells.Half.TheVariants.{Nothing};

use super::letters::{Way, put_character};
use super::runs::put_run;
use nr_vectors::cell::Look;
use nr_vectors::slice_vec::SliceVec;
use utf8_own_characters::{Cluster, OwnTable, Read};

/// The most bytes of what comes of one that is read, and of the end.
pub(crate) const MOST: usize = 256;

/// A byte, and how it looks.
#[derive(Clone, Copy)]
pub(crate) struct Cell {
    pub byte: u8,
    pub look: Look,
}

/// What was read of a cell.
#[derive(Clone, Copy)]
pub(crate) enum Half {
    /// Nothing.
    Nothing,
    /// A byte, which another may be struck over.
    Byte(u8),
    /// The same, and a backspace.
    Backspaced(u8),
}

/// What is half read, and how it goes out.
#[derive(Clone, Copy)]
pub(crate) struct Reader {
    /// Of a cell.
    pub half: Half,
    /// How the cell before it looks.
    pub before: Look,
    /// The first half of a pair.
    pub lead: Option<Cell>,
    /// How letters go out.
    pub way: Way,
}

/// A byte that nothing is struck over.
#[inline]
fn plain(byte: u8) -> Cell
    ensures { result ≡ specs.plain byte }
{
    Cell {
        byte,
        look: Look::Plain,
    }
}

/// Whether a byte is struck over another one.
#[inline]
fn strikes(over: u8, byte: u8) -> bool
    ensures { result ≡ specs.strikes over byte }
{
    over == byte || over == b'_'
}

/// A byte that is struck over another, after a cell that looks so.
fn struck(before: Look, over: u8, byte: u8) -> Cell
    ensures { result ≡ specs.struck before over byte }
{
    let line = byte == b'_' && matches!(before, Look::Under);
    let look = if over == byte && !line {
        Look::Bold
    } else {
        Look::Under
    };
    Cell { byte, look }
}

/// The byte of a cell, if there is one.
#[inline]
fn byte_of(lead: Option<Cell>) -> Option<u8>
    ensures { result ≡ specs.byte_of lead }
{
    match lead {
        Some(cell) => Some(cell.byte),
        None => None,
    }
}

/// What comes of a byte where a first half may wait. One of ASCII is its character, whatever the table.
#[inline]
fn read_byte(table: &OwnTable<'_>, lead: Option<u8>, byte: u8) -> Read
    ensures { result ≡ specs.read_byte table.now lead byte }
{
    if byte >= 128 {
        return table.read(lead, byte);
    }
    Read {
        blanks: if lead.is_some() { 1 } else { 0 },
        cluster: Some(Cluster::single(char::from(byte))),
        held: None,
    }
}

/// How a letter looks: a pair as its first half.
#[inline]
fn look_of(lead: Option<Cell>, blanks: u8, look: Look) -> Look
    ensures { result ≡ specs.look_of lead blanks look }
{
    match lead {
        Some(cell) if blanks == 0 => cell.look,
        _ => look,
    }
}

/// The first half of a pair that waits for the other one.
#[inline]
fn waiting(cell: Cell, held: Option<u8>) -> Option<Cell>
    ensures { result ≡ specs.waiting cell held }
{
    match held {
        Some(byte) => Some(Cell {
            byte,
            look: cell.look,
        }),
        None => None,
    }
}

/// Puts a blank for what is no character, and tells the way after it: at most 33 bytes.
fn put_blank(way: Way, out: &mut SliceVec<'_, u8>) -> Way
    requires { length out.old.items + 33 ≤ out.old.capacity }
    ensures items { out.new.items ≡ out.old.items ++ drawn_all way (specs.one_blank ∷ []) }
    ensures few { length out.new.items ≤ length out.old.items + 33 }
    ensures room { out.new.capacity ≡ out.old.capacity }
    ensures way { result ≡ ways_past way (specs.one_blank ∷ []) }
{
    way.put_letter(&Cluster::single(' '), Look::Plain, out)
}

/// Puts a blank for a first half that waits, and tells the way after it: at most 33 bytes.
fn put_alone(way: Way, lead: Option<Cell>, out: &mut SliceVec<'_, u8>) -> Way
    requires { length out.old.items + 33 ≤ out.old.capacity }
    ensures items { out.new.items ≡ out.old.items ++ drawn_all way (specs.alone lead) }
    ensures few { length out.new.items ≤ length out.old.items + 33 }
    ensures room { out.new.capacity ≡ out.old.capacity }
    ensures way { result ≡ ways_past way (specs.alone lead) }
{
    match lead {
        Some(_) => put_blank(way, out),
        None => way,
    }
}

/// Puts blanks for what is no character, two at most, and tells the way after them: at most 66 bytes.
#[inline]
fn put_blanks(way: Way, blanks: u8, out: &mut SliceVec<'_, u8>) -> Way
    requires { length out.old.items + 66 ≤ out.old.capacity }
    ensures items { out.new.items ≡ out.old.items ++ drawn_all way (specs.blanks blanks) }
    ensures few { length out.new.items ≤ length out.old.items + 66 }
    ensures room { out.new.capacity ≡ out.old.capacity }
    ensures way { result ≡ ways_past way (specs.blanks blanks) }
{
    if blanks == 0 {
        return way;
    }
    let way = put_blank(way, out);
    if blanks == 1 {
        return way;
    }
    put_blank(way, out)
}

/// Puts a cluster, if there is one, and tells the way after it: at most 33 bytes.
#[inline(always)]
fn put_cluster(way: Way, cluster: Option<Cluster>, look: Look, out: &mut SliceVec<'_, u8>) -> Way
    requires { length out.old.items + 33 ≤ out.old.capacity }
    ensures items { out.new.items ≡ out.old.items ++ drawn_all way (specs.lettered cluster look) }
    ensures few { length out.new.items ≤ length out.old.items + 33 }
    ensures room { out.new.capacity ≡ out.old.capacity }
    ensures way { result ≡ ways_past way (specs.lettered cluster look) }
{
    match cluster {
        Some(cluster) => way.put_letter(&cluster, look, out),
        None => way,
    }
}

/// Puts what comes of a cell where a first half may wait, and tells the way after it: at most 99 bytes.
#[inline(always)]
fn put_read(way: Way, lead: Option<Cell>, look: Look, read: Read, out: &mut SliceVec<'_, u8>) -> Way
    requires { length out.old.items + 99 ≤ out.old.capacity }
    ensures items { out.new.items ≡ out.old.items ++ drawn_all way (specs.come lead look read) }
    ensures few { length out.new.items ≤ length out.old.items + 99 }
    ensures room { out.new.capacity ≡ out.old.capacity }
    ensures way { result ≡ ways_past way (specs.come lead look read) }
{
    let way = put_blanks(way, read.blanks, out);
    put_cluster(way, read.cluster, look_of(lead, read.blanks, look), out)
}

/// The letter of a cluster without marks that is neither a blank nor a control character.
#[inline(always)]
pub(crate) fn bare_letter(cluster: &Cluster) -> Option<char>
    ensures { IfSome result (λ letter. IsBareLetter cluster.now letter) }
{
    let code = u32::from(cluster.letter);
    if code > 32 && code != 127 && cluster.is_same(&Cluster::single(cluster.letter)) {
        return Some(cluster.letter);
    }
    None
}

impl Reader {
    /// Nothing was read.
    pub(crate) fn new(escapes: bool) -> Reader
        ensures { result ≡ first escapes }
    {
        Reader {
            half: Half::Nothing,
            before: Look::Plain,
            lead: None,
            way: Way::first(escapes),
        }
    }

    /// Whether a cell goes out as its byte.
    #[inline(always)]
    fn passes(&self, cell: Cell) -> bool
        ensures { result ≡ passes self.now cell }
    {
        (cell.byte == b'\n' || matches!(cell.byte, b' '..=b'~'))
            && matches!(cell.look, Look::Plain)
            && self.lead.is_none()
            && self.way.is_plain()
    }

    /// Whether a cell is the first half of a pair, which waits for the other one.
    #[inline(always)]
    fn holds(&self, cell: Cell, table: &OwnTable<'_>) -> bool
        ensures { result ≡ holds table.now self.now cell }
    {
        cell.byte >= 128 && self.lead.is_none() && table.is_lead(cell.byte)
    }

    /// Whether a letter that was read of a cell goes out without what stands before it: it is plain, no look is open, and nothing else comes.
    #[inline(always)]
    fn goes_plain(&self, cell: Cell, read: &Read) -> bool
        ensures { result ≡ goes_plain self.now cell read.now }
    {
        read.blanks == 0
            && read.held.is_none()
            && matches!(look_of(self.lead, read.blanks, cell.look), Look::Plain)
            && self.way.is_plain()
    }

    /// The letter that was read of a cell, where it goes out as its text alone.
    #[inline(always)]
    fn bare(&self, cell: Cell, read: &Read) -> Option<char>
        ensures { IfSome result (λ letter. IsBare self.now cell read.now letter) }
    {
        match read.cluster {
            Some(cluster) if self.goes_plain(cell, read) => bare_letter(&cluster),
            _ => None,
        }
    }

    /// A cell goes out, or waits for the other half of its pair: at most 99 bytes.
    #[inline(always)]
    fn put_cell(&mut self, cell: Cell, table: &OwnTable<'_>, out: &mut SliceVec<'_, u8>)
        requires { length out.old.items + 99 ≤ out.old.capacity }
        ensures items { out.new.items ≡ out.old.items ++ drawn_all self.old.way (specs.letters_of table.now self.old.lead cell) }
        ensures few { length out.new.items ≤ length out.old.items + 99 }
        ensures room { out.new.capacity ≡ out.old.capacity }
        ensures reader { self.new ≡ record self.old {
          before = cell.look;
          lead = specs.lead_after table.now self.old.lead cell;
          way = ways_past self.old.way (specs.letters_of table.now self.old.lead cell);
        } }
    {
        if self.passes(cell) {
            out.push(cell.byte);
            self.before = cell.look;
            return;
        }
        if self.holds(cell, table) {
            self.lead = Some(cell);
            self.before = cell.look;
            return;
        }
        let read = read_byte(table, byte_of(self.lead), cell.byte);
        if let Some(letter) = self.bare(cell, &read) {
            put_character(letter, out);
            self.lead = None;
            self.before = cell.look;
            return;
        }
        self.way = put_read(self.way, self.lead, cell.look, read, out);
        self.lead = waiting(cell, read.held);
        self.before = cell.look;
    }

    /// A byte comes, and nothing of a cell is read: at most 99 bytes go out.
    #[inline(always)]
    fn begin(&mut self, byte: u8, table: &OwnTable<'_>, out: &mut SliceVec<'_, u8>)
        requires { length out.old.items + 99 ≤ out.old.capacity }
        ensures items { out.new.items ≡ out.old.items ++ begun_said table.now byte self.old }
        ensures few { length out.new.items ≤ length out.old.items + 99 }
        ensures room { out.new.capacity ≡ out.old.capacity }
        ensures reader { self.new ≡ begun_after table.now byte self.old }
    {
        if byte > b' ' {
            self.half = Half::Byte(byte);
            return;
        }
        self.put_cell(plain(byte), table, out);
        self.half = Half::Nothing;
    }

    /// A byte comes after another: at most 198 bytes go out.
    #[inline(always)]
    fn go_on(&mut self, held: u8, byte: u8, table: &OwnTable<'_>, out: &mut SliceVec<'_, u8>)
        requires { length out.old.items + 198 ≤ out.old.capacity }
        ensures items { out.new.items ≡ out.old.items ++ next_said table.now held byte self.old }
        ensures few { length out.new.items ≤ length out.old.items + 198 }
        ensures room { out.new.capacity ≡ out.old.capacity }
        ensures reader { self.new ≡ next_after table.now held byte self.old }
    {
        self.put_cell(plain(held), table, out);
        self.begin(byte, table, out);
    }

    /// A byte comes that is struck over another: at most 99 bytes go out.
    fn strike(&mut self, held: u8, byte: u8, table: &OwnTable<'_>, out: &mut SliceVec<'_, u8>)
        requires { length out.old.items + 99 ≤ out.old.capacity }
        ensures items { out.new.items ≡ out.old.items ++ cell_said table.now (specs.struck self.old.before held byte) self.old }
        ensures few { length out.new.items ≤ length out.old.items + 99 }
        ensures room { out.new.capacity ≡ out.old.capacity }
        ensures reader { self.new ≡ with_half Nothing (cell_after table.now (specs.struck self.old.before held byte) self.old) }
    {
        self.put_cell(struck(self.before, held, byte), table, out);
        self.half = Half::Nothing;
    }

    /// A byte comes: at most 198 bytes go out.
    #[inline(always)]
    pub(crate) fn read(&mut self, byte: u8, table: &OwnTable<'_>, out: &mut SliceVec<'_, u8>)
        requires { length out.old.items + 256 ≤ out.old.capacity }
        ensures items { out.new.items ≡ out.old.items ++ said table.now self.old.half byte self.old }
        ensures few { length out.new.items ≤ length out.old.items + 256 }
        ensures room { out.new.capacity ≡ out.old.capacity }
        ensures reader { self.new ≡ after table.now self.old.half byte self.old }
    {
        match self.half {
            Half::Nothing => self.begin(byte, table, out),
            Half::Byte(held) if byte == b'\x08' => self.half = Half::Backspaced(held),
            Half::Backspaced(held) if strikes(held, byte) => self.strike(held, byte, table, out),
            Half::Byte(held) | Half::Backspaced(held) => self.go_on(held, byte, table, out),
        }
    }

    /// Whether nothing is half read and what is plain goes out as it is.
    #[inline(always)]
    fn is_ready(&self) -> bool
        ensures { IsTrue result → IsResting self.now }
    {
        matches!(self.half, Half::Nothing)
            && matches!(self.before, Look::Plain)
            && self.lead.is_none()
            && self.way.is_plain()
    }

    /// What is half read goes out, as nothing is struck over it: at most 99 bytes.
    #[inline(always)]
    fn let_go(&mut self, held: u8, table: &OwnTable<'_>, out: &mut SliceVec<'_, u8>)
        requires { length out.old.items + 99 ≤ out.old.capacity }
        ensures items { out.new.items ≡ out.old.items ++ cell_said table.now (specs.plain held) self.old }
        ensures few { length out.new.items ≤ length out.old.items + 99 }
        ensures room { out.new.capacity ≡ out.old.capacity }
        ensures reader { self.new ≡ let_go table.now held self.old }
    {
        self.put_cell(plain(held), table, out);
        self.half = Half::Nothing;
    }

    /// Bytes come of which at least one is read: tells how many.
    pub(crate) fn read_some(
        &mut self,
        bytes: &[u8],
        table: &OwnTable<'_>,
        out: &mut SliceVec<'_, u8>,
    ) -> usize
        requires some { 0 < length bytes.now }
        requires room { length out.old.items + 256 ≤ out.old.capacity }
        ensures moves { Moves table.now self.old self.new out.old.items out.new.items bytes.now (drop result bytes.now) }
        ensures some { 1 ≤ result }
        ensures within { result ≤ length bytes.now }
        ensures room { out.new.capacity ≡ out.old.capacity }
    {
        let byte = bytes[0];
        match self.half {
            Half::Nothing => self.read_fresh(bytes, table, out),
            Half::Byte(held) if byte == b'\x08' => {
                self.half = Half::Backspaced(held);
                1
            }
            Half::Backspaced(held) if strikes(held, byte) => {
                self.strike(held, byte, table, out);
                1
            }
            Half::Byte(held) | Half::Backspaced(held) => {
                self.let_go(held, table, out);
                self.read_fresh(bytes, table, out)
            }
        }
    }

    /// Puts what is plain at the start of these bytes, where nothing is half read, and tells how many they are.
    #[inline(always)]
    fn put_plain(&self, bytes: &[u8], table: &OwnTable<'_>, out: &mut SliceVec<'_, u8>) -> usize
        ensures moves { Moves table.now self.now self.now out.old.items out.new.items bytes.now (drop result bytes.now) }
        ensures within { result ≤ length bytes.now }
        ensures few { length out.new.items ≤ length out.old.items + 4 * result }
        ensures room { out.new.capacity ≡ out.old.capacity }
    {
        if !self.is_ready() {
            return 0;
        }
        put_run(bytes, table, out)
    }

    /// Bytes come where nothing of a cell is read: tells how many of them are read, one at least.
    #[inline]
    fn read_fresh(
        &mut self,
        bytes: &[u8],
        table: &OwnTable<'_>,
        out: &mut SliceVec<'_, u8>,
    ) -> usize
        requires some { 0 < length bytes.now }
        requires fresh { self.old.half ≡ Nothing }
        requires room { length out.old.items + 99 ≤ out.old.capacity }
        ensures moves { Moves table.now self.old self.new out.old.items out.new.items bytes.now (drop result bytes.now) }
        ensures some { 1 ≤ result }
        ensures within { result ≤ length bytes.now }
        ensures room { out.new.capacity ≡ out.old.capacity }
    {
        let len = self.put_plain(bytes, table, out);
        if len > 0 {
            return len;
        }
        self.begin(bytes[0], table, out);
        1
    }

    /// What is half read of a cell goes out: at most 99 bytes.
    fn release(&mut self, table: &OwnTable<'_>, out: &mut SliceVec<'_, u8>)
        requires { length out.old.items + 99 ≤ out.old.capacity }
        ensures items { out.new.items ≡ out.old.items ++ released_said table.now self.old.half self.old }
        ensures few { length out.new.items ≤ length out.old.items + 99 }
        ensures room { out.new.capacity ≡ out.old.capacity }
        ensures reader { self.new ≡ released table.now self.old.half self.old }
    {
        match self.half {
            Half::Nothing => {}
            Half::Byte(held) | Half::Backspaced(held) => self.put_cell(plain(held), table, out),
        }
    }

    /// The end comes: at most 141 bytes go out.
    pub(crate) fn finish(&mut self, table: &OwnTable<'_>, out: &mut SliceVec<'_, u8>)
        requires { length out.old.items + 256 ≤ out.old.capacity }
        ensures items { out.new.items ≡ out.old.items ++ ended table.now self.old }
        ensures few { length out.new.items ≤ length out.old.items + 256 }
        ensures room { out.new.capacity ≡ out.old.capacity }
    {
        self.release(table, out);
        let way = put_alone(self.way, self.lead, out);
        way.put_end(out);
    }
}
