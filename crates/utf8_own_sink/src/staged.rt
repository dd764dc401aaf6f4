//! A text is turned a part at a time.
ghost use Rattle.std.specs.Prelude.{◌≡◌, ◌+◌, ◌*◌, ◌++◌, ◌≤◌, length};
ghost use Rattle.document_stages.specs.Pulling.{fits_always};
ghost use Rattle.utf8_own_sink.specs.Reading.{decoding, fed, first};

use super::cells::{MOST, Reader};
use document_stages::Stage;
use nr_vectors::slice_vec::SliceVec;
use utf8_own_characters::OwnTable;

/// The bytes of cells become the characters that they show.
///
/// Proved: A text in the bytes of a page's own table that is turned a part at a time comes to what they are defined to
/// show: what goes out of the parts, one after another, and of the end is `converted`, in whatever parts it comes.
/// (`Decoder`)
#[derive(Drop)]
pub struct Decoder<'a> {
    reader: Reader,
    table: &'a OwnTable<'a>,
}

/// These bytes are read, one after another, and what they come to is put after what waits.
fn read_all(bytes: &[u8], reader: &mut Reader, table: &OwnTable<'_>, out: &mut SliceVec<'_, u8>)
    requires room { length out.old.items + 256 * length bytes.now ≤ out.old.capacity }
    ensures items { out.new.items ≡ out.old.items ++ (fed table.now reader.old bytes.now).bytes }
    ensures few { length out.new.items ≤ length out.old.items + 256 * length bytes.now }
    ensures reader { reader.new ≡ (fed table.now reader.old bytes.now).reader }
    ensures room { out.new.capacity ≡ out.old.capacity }
{
    for byte in bytes {
        reader.read(*byte, table, out);
    }
}

impl<'a> Decoder<'a> {
    /// A text begins. With `escapes` looks stand between escape sequences.
    pub fn over(table: &'a OwnTable<'a>, escapes: bool) -> Decoder<'a>
        ensures says { ⟦<Decoder<'a> as Stage>⟧.says result ≡ decoding table.now (first escapes) }
        ensures fits { ⟦<Decoder<'a> as Stage>⟧.fits result ≡ fits_always }
        ensures wants { ⟦<Decoder<'a> as Stage>⟧.wants result ≡ 256 }
    {
        Decoder {
            reader: Reader::new(escapes),
            table,
        }
    }
}

impl Stage for Decoder<'_> {
    ghost use Rattle.std.specs.Prelude.{refl};
    ghost use Rattle.document_stages.specs.Pulling.{fits_always};
    ghost use Rattle.utf8_own_sink.specs.Reading.{decoding};

    ghost says = { λ s. decoding s.table.now s.reader };

    ghost fits = { λ s. fits_always };

    ghost counts = { λ s ends bytes. 0 };

    ghost wants = { λ s. 256 };

    ghost waits = { λ s. refl };

    fn room(&self) -> usize {
        MOST
    }

    fn turn(&mut self, bytes: &[u8], out: &mut SliceVec<'_, u8>) -> usize {
        let len = bytes.len().min((out.capacity() - out.len()) / MOST);
        read_all(&bytes[..len], &mut self.reader, self.table, out);
        len
    }

    fn finish(&mut self, out: &mut SliceVec<'_, u8>) -> bool {
        self.reader.finish(self.table, out);
        true
    }

    fn is_full(&self) -> bool {
        false
    }
}
