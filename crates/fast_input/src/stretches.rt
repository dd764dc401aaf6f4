//! Items in a stretch: bytes, or elements of a text.
ghost use Rattle.std.specs.Prelude.{◌<◌, ◌≤◌, length, take, slice_get};
ghost use Rattle.fast_input.specs.Stretches.{AreBytes, EndsRun, byte_items, element_items};

use nr_reading::Items;
use nr_store::Element;

/// Bytes in a stretch.
#[derive(Clone, Copy)]
pub(crate) struct ByteStretch<'a>(pub(crate) &'a [u8]);

/// Elements of a text in a stretch.
#[derive(Clone, Copy)]
pub(crate) struct ElementStretch<'a>(pub(crate) &'a [Element]);

impl<'a> Items for ByteStretch<'a> {
    ghost next_items = { byte_items };

    #[inline(always)]
    fn count(&self) -> usize {
        self.0.len()
    }

    #[inline(always)]
    fn byte(&self, n: usize) -> Option<u8> {
        Some(self.0[n])
    }
}

impl<'a> Items for ElementStretch<'a> {
    ghost next_items = { element_items };

    #[inline(always)]
    fn count(&self) -> usize {
        self.0.len()
    }

    #[inline(always)]
    fn byte(&self, n: usize) -> Option<u8> {
        match self.0[n] {
            Element::Byte(byte) => Some(byte),
            _ => None,
        }
    }
}

/// The first bytes of a stretch that begin no escape and are no newline are put into the chunk, as many as it holds. Answers how many.
#[inline(always)]
pub(crate) fn copy_run<I: Items>(stretch: &I, chunk: &mut [u8]) -> usize
    ensures holds { result ≤ length chunk.old }
    ensures prefix { result ≤ length (I.next_items stretch.now) }
    ensures bytes { AreBytes (take result chunk.new) (I.next_items stretch.now) }
    ensures longest { result < length chunk.old → EndsRun (slice_get (I.next_items stretch.now) result) }
{
    let most = chunk.len().min(stretch.count());
    for n in 0..most {
        let Some(byte) = stretch.byte(n) else {
            return n;
        };
        if byte == b'\\' || byte == b'\n' {
            return n;
        }
        chunk[n] = byte;
    }
    most
}
