//! Escapes that name strings of mdoc: what they stand for is read in their place.
ghost use Rattle.std.specs.Prelude.{◌≡◌, ◌+◌, ◌≤◌, ◌++◌, length, slice_index};
ghost use Rattle.mdoc_converter.specs.Reading as specs;
ghost use Rattle.mdoc_converter.specs.Reading.{state};
ghost use Rattle.mdoc_converter.specs.Strings as strings;

use super::pending::Pending;
use super::reader::Reader;
use mdoc_layout::{Block, RowPart, Scan, prefix_of};
use mdoc_words::looked_up;
use nr_vectors::slice_vec::SliceVec;

/// What a byte does to that.
#[derive(Clone, Copy)]
pub(crate) enum Next {
    /// More may come.
    Waits(Pending),
    /// A string is named that stands for these bytes, up to the first NUL.
    Says(u8, u8, u8, u8),
    /// None is named.
    Breaks,
}

/// The strings of mdoc, and what they stand for.
static STRINGS: [(u8, u8, [u8; 4]); 24] = [
    (b'L', b't', *b"<\0\0\0"),
    (b'G', b't', *b">\0\0\0"),
    (b'L', b'e', *b"\\(<="),
    (b'G', b'e', *b"\\(>="),
    (b'N', b'e', *b"\\(!="),
    (b'A', b'm', *b"&\0\0\0"),
    (b'B', b'a', *b"|\0\0\0"),
    (b'P', b'm', *b"\\(+-"),
    (b'I', b'f', *b"inf\0"),
    (b'P', b'i', *b"pi\0\0"),
    (b'N', b'a', *b"NaN\0"),
    (b'l', b'q', *b"\\(lq"),
    (b'r', b'q', *b"\\(rq"),
    (b'L', b'q', *b"\\(lq"),
    (b'R', b'q', *b"\\(rq"),
    (b'l', b'p', *b"(\0\0\0"),
    (b'r', b'p', *b")\0\0\0"),
    (b'a', b'a', *b"\\(aq"),
    (b'g', b'a', *b"\\(ga"),
    (b'u', b'a', *b"\\(ua"),
    (b'v', b'a', *b"\\(va"),
    (b'T', b'm', *b"\\(tm"),
    (b'<', b'=', *b"\\(<="),
    (b'>', b'=', *b"\\(>="),
];

/// What a string stands for.
fn string_named(first: u8, second: u8) -> Option<[u8; 4]>
    ensures { result ≡ strings.string_named first second }
{
    looked_up(&STRINGS, first, second)
}

/// What the name of a string does.
fn named(first: u8, second: u8) -> Next
    ensures { result ≡ strings.named first second }
{
    match string_named(first, second) {
        Some(text) => Next::Says(text[0], text[1], text[2], text[3]),
        None => Next::Breaks,
    }
}

/// Where such escapes are read.
fn takes_strings(scan: Scan) -> bool
    ensures { result ≡ strings.takes_strings scan }
{
    match scan {
        Scan::Asleep(_, _)
        | Scan::Passes
        | Scan::Comment
        | Scan::Control
        | Scan::ControlEscape
        | Scan::Name
        | Scan::Rest
        | Scan::Dropped
        | Scan::Defines
        | Scan::Ignored(_)
        | Scan::Table(RowPart::Control | RowPart::Escape | RowPart::Comment | RowPart::Name) =>
            false,
        _ => true,
    }
}

/// What a name of one letter does.
fn named_by_one(name: u8) -> Next
    ensures { result ≡ strings.named_by_one name }
{
    match name {
        b'q' => Next::Says(b'\\', b'(', b'd', b'q'),
        b'R' => Next::Says(b'\\', b'(', b'r', b'g'),
        _ => Next::Breaks,
    }
}

/// After a star.
fn after_star(byte: u8) -> Next
    ensures { result ≡ strings.after_star byte }
{
    match byte {
        b'(' => Next::Waits(Pending::Open),
        b'[' => Next::Waits(Pending::Bracket),
        _ => named_by_one(byte),
    }
}

/// What a byte does to what was read of an escape, or begins.
fn offered_by(pending: Pending, byte: u8, takes: bool) -> Next
    ensures { result ≡ strings.offered_by pending byte takes }
{
    match pending {
        Pending::Nothing if takes && byte == b'\\' => Next::Waits(Pending::Backslash),
        Pending::Backslash if byte == b'*' => Next::Waits(Pending::Star),
        Pending::Star => after_star(byte),
        Pending::Open => Next::Waits(Pending::Pair(byte)),
        Pending::Pair(first) => named(first, byte),
        Pending::Bracket => Next::Waits(Pending::One(byte)),
        Pending::One(first) if byte == b']' => named_by_one(first),
        Pending::One(first) => Next::Waits(Pending::Two(first, byte)),
        Pending::Two(first, second) if byte == b']' => named(first, second),
        _ => Next::Breaks,
    }
}

impl Reader {
    /// A byte of a text that a NUL ends.
    fn hear_some(
        &mut self,
        byte: u8,
        blocks: &mut SliceVec<'_, Block>,
        out: &mut SliceVec<'_, u8>,
    ) -> u64
        requires room { length out.old.items + 12288 ≤ out.old.capacity }
        requires blocks { 64 ≤ blocks.old.capacity }
        ensures state { state self.new blocks.new.items
            ≡ (specs.heard_some byte (state self.old blocks.old.items)).state }
        ensures items { out.new.items ≡ out.old.items
            ++ (specs.heard_some byte (state self.old blocks.old.items)).bytes }
        ensures steps { result ≡ (specs.heard_some byte (state self.old blocks.old.items)).steps }
        ensures few { length out.new.items ≤ length out.old.items + 12288 }
        ensures quick { result ≤ 16 }
        ensures room { out.new.capacity ≡ out.old.capacity }
        ensures blocks { blocks.new.capacity ≡ blocks.old.capacity }
    {
        if byte == 0 {
            return 0;
        }
        self.hear(byte, blocks, out)
    }

    /// The bytes that a string stands for.
    fn hear_text(
        &mut self,
        text: [u8; 4],
        blocks: &mut SliceVec<'_, Block>,
        out: &mut SliceVec<'_, u8>,
    ) -> u64
        requires room { length out.old.items + 49152 ≤ out.old.capacity }
        requires blocks { 64 ≤ blocks.old.capacity }
        ensures state { state self.new blocks.new.items
            ≡ (specs.heard_text (slice_index text 0) (slice_index text 1) (slice_index text 2)
            (slice_index text 3) (state self.old blocks.old.items)).state }
        ensures items { out.new.items ≡ out.old.items
            ++ (specs.heard_text (slice_index text 0) (slice_index text 1) (slice_index text 2)
            (slice_index text 3) (state self.old blocks.old.items)).bytes }
        ensures steps { result
            ≡ (specs.heard_text (slice_index text 0) (slice_index text 1) (slice_index text 2)
            (slice_index text 3) (state self.old blocks.old.items)).steps }
        ensures few { length out.new.items ≤ length out.old.items + 49152 }
        ensures quick { result ≤ 64 }
        ensures room { out.new.capacity ≡ out.old.capacity }
        ensures blocks { blocks.new.capacity ≡ blocks.old.capacity }
    {
        self.hear_some(text[0], blocks, out)
            + self.hear_some(text[1], blocks, out)
            + self.hear_some(text[2], blocks, out)
            + self.hear_some(text[3], blocks, out)
    }

    /// A backslash and a star.
    fn hear_star(&mut self, blocks: &mut SliceVec<'_, Block>, out: &mut SliceVec<'_, u8>) -> u64
        requires room { length out.old.items + 24576 ≤ out.old.capacity }
        requires blocks { 64 ≤ blocks.old.capacity }
        ensures state { state self.new blocks.new.items
            ≡ (specs.heard_star (state self.old blocks.old.items)).state }
        ensures items { out.new.items ≡ out.old.items
            ++ (specs.heard_star (state self.old blocks.old.items)).bytes }
        ensures steps { result ≡ (specs.heard_star (state self.old blocks.old.items)).steps }
        ensures few { length out.new.items ≤ length out.old.items + 24576 }
        ensures quick { result ≤ 32 }
        ensures room { out.new.capacity ≡ out.old.capacity }
        ensures blocks { blocks.new.capacity ≡ blocks.old.capacity }
    {
        self.hear(b'\\', blocks, out) + self.hear(b'*', blocks, out)
    }

    /// Those, and a byte.
    fn hear_open(
        &mut self,
        byte: u8,
        blocks: &mut SliceVec<'_, Block>,
        out: &mut SliceVec<'_, u8>,
    ) -> u64
        requires room { length out.old.items + 36864 ≤ out.old.capacity }
        requires blocks { 64 ≤ blocks.old.capacity }
        ensures state { state self.new blocks.new.items
            ≡ (specs.heard_then specs.heard_star byte (state self.old blocks.old.items)).state }
        ensures items { out.new.items ≡ out.old.items
            ++ (specs.heard_then specs.heard_star byte (state self.old blocks.old.items)).bytes }
        ensures steps { result
            ≡ (specs.heard_then specs.heard_star byte (state self.old blocks.old.items)).steps }
        ensures few { length out.new.items ≤ length out.old.items + 36864 }
        ensures quick { result ≤ 48 }
        ensures room { out.new.capacity ≡ out.old.capacity }
        ensures blocks { blocks.new.capacity ≡ blocks.old.capacity }
    {
        self.hear_star(blocks, out) + self.hear(byte, blocks, out)
    }

    /// And another.
    fn hear_pair(
        &mut self,
        byte: u8,
        first: u8,
        blocks: &mut SliceVec<'_, Block>,
        out: &mut SliceVec<'_, u8>,
    ) -> u64
        requires room { length out.old.items + 49152 ≤ out.old.capacity }
        requires blocks { 64 ≤ blocks.old.capacity }
        ensures state { state self.new blocks.new.items
            ≡ (specs.heard_then (specs.heard_then specs.heard_star byte) first
            (state self.old blocks.old.items)).state }
        ensures items { out.new.items ≡ out.old.items
            ++ (specs.heard_then (specs.heard_then specs.heard_star byte) first
            (state self.old blocks.old.items)).bytes }
        ensures steps { result
            ≡ (specs.heard_then (specs.heard_then specs.heard_star byte) first
            (state self.old blocks.old.items)).steps }
        ensures few { length out.new.items ≤ length out.old.items + 49152 }
        ensures quick { result ≤ 64 }
        ensures room { out.new.capacity ≡ out.old.capacity }
        ensures blocks { blocks.new.capacity ≡ blocks.old.capacity }
    {
        self.hear_open(byte, blocks, out) + self.hear(first, blocks, out)
    }

    /// And a third.
    fn hear_two(
        &mut self,
        first: u8,
        second: u8,
        blocks: &mut SliceVec<'_, Block>,
        out: &mut SliceVec<'_, u8>,
    ) -> u64
        requires room { length out.old.items + 61440 ≤ out.old.capacity }
        requires blocks { 64 ≤ blocks.old.capacity }
        ensures state { state self.new blocks.new.items
            ≡ (specs.heard_then (specs.heard_then (specs.heard_then specs.heard_star 91) first) second
            (state self.old blocks.old.items)).state }
        ensures items { out.new.items ≡ out.old.items
            ++ (specs.heard_then (specs.heard_then (specs.heard_then specs.heard_star 91) first) second
            (state self.old blocks.old.items)).bytes }
        ensures steps { result
            ≡ (specs.heard_then (specs.heard_then (specs.heard_then specs.heard_star 91) first) second
            (state self.old blocks.old.items)).steps }
        ensures few { length out.new.items ≤ length out.old.items + 61440 }
        ensures quick { result ≤ 80 }
        ensures room { out.new.capacity ≡ out.old.capacity }
        ensures blocks { blocks.new.capacity ≡ blocks.old.capacity }
    {
        self.hear_pair(b'[', first, blocks, out) + self.hear(second, blocks, out)
    }

    /// What was read of an escape that names no string is heard as it is.
    fn hear_raw(
        &mut self,
        pending: Pending,
        blocks: &mut SliceVec<'_, Block>,
        out: &mut SliceVec<'_, u8>,
    ) -> u64
        requires room { length out.old.items + 61440 ≤ out.old.capacity }
        requires blocks { 64 ≤ blocks.old.capacity }
        ensures state { state self.new blocks.new.items
            ≡ (specs.heard_raw pending (state self.old blocks.old.items)).state }
        ensures items { out.new.items ≡ out.old.items
            ++ (specs.heard_raw pending (state self.old blocks.old.items)).bytes }
        ensures steps { result ≡ (specs.heard_raw pending (state self.old blocks.old.items)).steps }
        ensures few { length out.new.items ≤ length out.old.items + 61440 }
        ensures quick { result ≤ 80 }
        ensures room { out.new.capacity ≡ out.old.capacity }
        ensures blocks { blocks.new.capacity ≡ blocks.old.capacity }
    {
        match pending {
            Pending::Nothing => 0,
            Pending::Backslash => self.hear(b'\\', blocks, out),
            Pending::Star => self.hear_star(blocks, out),
            Pending::Open => self.hear_open(b'(', blocks, out),
            Pending::Pair(first) => self.hear_pair(b'(', first, blocks, out),
            Pending::Bracket => self.hear_open(b'[', blocks, out),
            Pending::One(first) => self.hear_pair(b'[', first, blocks, out),
            Pending::Two(first, second) => self.hear_two(first, second, blocks, out),
        }
    }

    /// A byte comes. At most 73728 bytes go out, in 96 steps at most.
    #[inline(always)]
    #[tactic(auto, unfolding(crate::specs::Reading::read))]
    pub(crate) fn read(
        &mut self,
        byte: u8,
        blocks: &mut SliceVec<'_, Block>,
        out: &mut SliceVec<'_, u8>,
    ) -> u64
        requires room { length out.old.items + 73728 ≤ out.old.capacity }
        requires blocks { 64 ≤ blocks.old.capacity }
        ensures state { state self.new blocks.new.items
            ≡ (specs.read byte (state self.old blocks.old.items)).state }
        ensures items { out.new.items ≡ out.old.items
            ++ (specs.read byte (state self.old blocks.old.items)).bytes }
        ensures steps { result ≡ (specs.read byte (state self.old blocks.old.items)).steps }
        ensures few { length out.new.items ≤ length out.old.items + 73728 }
        ensures quick { result ≤ 96 }
        ensures room { out.new.capacity ≡ out.old.capacity }
        ensures blocks { blocks.new.capacity ≡ blocks.old.capacity }
    {
        if byte != b'\\' && matches!(self.pending, Pending::Nothing) {
            return self.hear(byte, blocks, out);
        }
        self.read_any(byte, blocks, out)
    }

    /// Any byte comes, also where something is pending.
    #[tactic(auto, unfolding(crate::specs::Reading::read))]
    fn read_any(
        &mut self,
        byte: u8,
        blocks: &mut SliceVec<'_, Block>,
        out: &mut SliceVec<'_, u8>,
    ) -> u64
        requires room { length out.old.items + 73728 ≤ out.old.capacity }
        requires blocks { 64 ≤ blocks.old.capacity }
        ensures state { state self.new blocks.new.items
            ≡ (specs.read byte (state self.old blocks.old.items)).state }
        ensures items { out.new.items ≡ out.old.items
            ++ (specs.read byte (state self.old blocks.old.items)).bytes }
        ensures steps { result ≡ (specs.read byte (state self.old blocks.old.items)).steps }
        ensures few { length out.new.items ≤ length out.old.items + 73728 }
        ensures quick { result ≤ 96 }
        ensures room { out.new.capacity ≡ out.old.capacity }
        ensures blocks { blocks.new.capacity ≡ blocks.old.capacity }
    {
        let pending = self.pending;
        match offered_by(pending, byte, takes_strings(self.page.scan)) {
            Next::Waits(more) => {
                self.pending = more;
                0
            }
            Next::Says(a, b, c, d) => {
                self.pending = Pending::Nothing;
                self.hear_text([a, b, c, d], blocks, out)
            }
            Next::Breaks => {
                self.pending = Pending::Nothing;
                self.hear_raw(pending, blocks, out) + self.hear(byte, blocks, out)
            }
        }
    }

    /// What is half read of the page goes out.
    fn finish_page(&mut self, blocks: &mut SliceVec<'_, Block>, out: &mut SliceVec<'_, u8>) -> u64
        requires room { length out.old.items + 12544 ≤ out.old.capacity }
        requires blocks { 64 ≤ blocks.old.capacity }
        ensures items { out.new.items ≡ out.old.items
            ++ (specs.page_finished (state self.old blocks.old.items)).bytes }
        ensures steps { result ≡ (specs.page_finished (state self.old blocks.old.items)).steps }
        ensures few { length out.new.items ≤ length out.old.items + 12544 }
        ensures quick { result ≤ 16 }
        ensures room { out.new.capacity ≡ out.old.capacity }
        ensures blocks { blocks.new.capacity ≡ blocks.old.capacity }
    {
        match self.page.scan {
            Scan::Asleep(prefix, _) => {
                out.extend(prefix_of(prefix));
                0
            }
            Scan::Passes => 0,
            Scan::Start | Scan::Table(RowPart::Start) => {
                self.page.freshen(out);
                0
            }
            _ => self.finish_line(blocks, out),
        }
    }

    /// The end comes. At most 73984 bytes go out, in 96 steps at most.
    #[tactic(auto, unfolding(crate::specs::Reading::finished))]
    pub(crate) fn finish(
        &mut self,
        blocks: &mut SliceVec<'_, Block>,
        out: &mut SliceVec<'_, u8>,
    ) -> u64
        requires room { length out.old.items + 73984 ≤ out.old.capacity }
        requires blocks { 64 ≤ blocks.old.capacity }
        ensures items { out.new.items ≡ out.old.items
            ++ (specs.finished (state self.old blocks.old.items)).bytes }
        ensures steps { result ≡ (specs.finished (state self.old blocks.old.items)).steps }
        ensures few { length out.new.items ≤ length out.old.items + 73984 }
        ensures quick { result ≤ 96 }
        ensures room { out.new.capacity ≡ out.old.capacity }
        ensures blocks { blocks.new.capacity ≡ blocks.old.capacity }
    {
        let pending = self.pending;
        self.pending = Pending::Nothing;
        self.hear_raw(pending, blocks, out) + self.finish_page(blocks, out)
    }
}
