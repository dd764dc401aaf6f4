//! A page is turned a part at a time.
ghost use Rattle.std.specs.Prelude.{◌≡◌, ◌+◌, ◌*◌, ◌++◌, ◌<◌, ◌≤◌, [], false, length, take};
ghost use Rattle.mdoc_converter.specs.Reading.{fed, first_state, state};

use super::reader::Reader;
use document_stages::{LEAST_ROOM, Stage};
use mdoc_layout::Block;
use nr_vectors::slice_vec::SliceVec;

/// A page of mdoc(7) becomes one of man(7), and another page stays as it is, as with `convert`.
///
/// Proved: A page that is turned a part at a time comes to the same: what goes out of the parts, one after another,
/// and of the end is `converted`, in whatever parts it comes.
#[derive(Drop)]
pub struct MdocConverter<'a> {
    reader: Reader,
    blocks: SliceVec<'a, Block>,
    // So many steps were made, or more than it can say.
    steps: u64,
    ghost room: { 64 ≤ blocks.capacity },
}

/// How many bytes were read, and in how many steps.
#[derive(Clone, Copy)]
struct Taken {
    count: usize,
    steps: u64,
}

/// Whether no more bytes are read one by one: for what one of them may say there may be no room, or many pass at once.
fn pauses(reader: &Reader, out: &SliceVec<'_, u8>) -> bool
    ensures { result ≡ false → length out.now.items + 73984 ≤ out.now.capacity }
{
    reader.may_pass() || out.capacity() - out.len() < LEAST_ROOM
}

/// Bytes are read, the first of them at least. Tells how many, and in how many steps.
fn read_some(
    reader: &mut Reader,
    bytes: &[u8],
    blocks: &mut SliceVec<'_, Block>,
    out: &mut SliceVec<'_, u8>,
) -> Taken
    requires some { 0 < length bytes.now }
    requires few { length bytes.now ≤ 73984 }
    requires room { length out.old.items + 73984 ≤ out.old.capacity }
    requires blocks { 64 ≤ blocks.old.capacity }
    ensures some { 0 < result.count }
    ensures within { result.count ≤ length bytes.now }
    ensures state { state reader.new blocks.new.items
        ≡ (fed (state reader.old blocks.old.items) (take result.count bytes.now)).state }
    ensures items { out.new.items ≡ out.old.items
        ++ (fed (state reader.old blocks.old.items) (take result.count bytes.now)).bytes }
    ensures steps { result.steps ≡ (fed (state reader.old blocks.old.items) (take result.count bytes.now)).steps }
    ensures few { length out.new.items ≤ length out.old.items + 73984 * result.count }
    ensures room { out.new.capacity ≡ out.old.capacity }
    ensures blocks { blocks.new.capacity ≡ blocks.old.capacity }
{
    let mut steps = reader.read(bytes[0], blocks, out);
    for i in 1..bytes.len() {
        if pauses(reader, out) {
            return Taken { count: i, steps };
        }
        steps += reader.read(bytes[i], blocks, out);
    }
    Taken {
        count: bytes.len(),
        steps,
    }
}

impl<'a> MdocConverter<'a> {
    ghost use Rattle.mdoc_converter.specs.Staged.{counted, said};
    ghost use Rattle.document_stages.specs.Pulling.{fits_always};

    /// A page begins. The room for the lists and displays that are open is 64 at least; what it held is of no account.
    pub fn over(blocks: &'a mut [Block]) -> MdocConverter<'a>
        requires { 64 ≤ length blocks.now }
        ensures says { ⟦<MdocConverter<'a> as Stage>⟧.says result ≡ said first_state }
        ensures fits { ⟦<MdocConverter<'a> as Stage>⟧.fits result ≡ fits_always }
        ensures counts { ⟦<MdocConverter<'a> as Stage>⟧.counts result ≡ counted 0 first_state }
        ensures wants { ⟦<MdocConverter<'a> as Stage>⟧.wants result ≡ 73984 }
    {
        MdocConverter {
            reader: Reader::new(),
            blocks: SliceVec::over(blocks),
            steps: 0,
        }
    }

    /// How many steps were made.
    pub fn steps(&self) -> u64
        ensures { result ≡ ⟦<MdocConverter<'a> as Stage>⟧.counts self.now false [] }
    {
        self.steps
    }
}

impl Stage for MdocConverter<'_> {
    ghost use Rattle.std.specs.Prelude.{refl};
    ghost use Rattle.document_stages.specs.Pulling.{fits_always};
    ghost use Rattle.mdoc_converter.specs.Reading.{state};
    ghost use Rattle.mdoc_converter.specs.Staged.{counted, said};

    ghost says = { λ s. said (state s.reader s.blocks.items) };

    ghost fits = { λ s. fits_always };

    ghost counts = { λ s. counted s.steps (state s.reader s.blocks.items) };

    ghost wants = { λ s. 73984 };

    ghost waits = { λ s. refl };

    fn room(&self) -> usize {
        LEAST_ROOM
    }

    fn turn(&mut self, bytes: &[u8], out: &mut SliceVec<'_, u8>) -> usize {
        if bytes.is_empty() {
            return 0;
        }
        let some = &bytes[..bytes.len().min(LEAST_ROOM)];
        let count = self.reader.passing(some);
        if count > 0 {
            out.extend(&some[..count]);
            self.steps = self.steps.saturating_add(count as u64);
            return count;
        }
        let taken = read_some(&mut self.reader, some, &mut self.blocks, out);
        self.steps = self.steps.saturating_add(taken.steps);
        taken.count
    }

    fn finish(&mut self, out: &mut SliceVec<'_, u8>) -> bool {
        let steps = self.reader.finish(&mut self.blocks, out);
        self.steps = self.steps.saturating_add(steps);
        true
    }

    fn is_full(&self) -> bool {
        false
    }
}
