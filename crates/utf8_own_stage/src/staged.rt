//! A text is coded a part at a time.
ghost use Rattle.std.specs.Prelude.{◌≡◌};
ghost use Rattle.document_stages.specs.Pulling.{fits_always};
ghost use Rattle.utf8_own_characters.specs.Table.{Good};
ghost use Rattle.utf8_own_stage.specs.Coding.{coded_text};

use super::coding::{MOST, put_all, put_last};
use super::points::Place;
use document_stages::Stage;
use nr_vectors::slice_vec::SliceVec;
use utf8_own_characters::{Listener, OwnTable};

/// Characters of UTF-8 become the bytes of a page's own table, or what they look like where it lacks them. Between those of East Asia go
/// special characters at which a line may be cut.
#[derive(Drop)]
pub struct Coder<'a> {
    table: &'a OwnTable<'a>,
    listener: Listener,
    place: Place,
    ghost good: { Good table.now },
}

impl<'a> Coder<'a> {
    /// A text begins.
    pub fn over(table: &'a OwnTable<'a>) -> Coder<'a>
        requires { Good table.now }
        ensures says { ⟦<Coder<'a> as Stage>⟧.says result ≡ coded_text table.now }
        ensures fits { ⟦<Coder<'a> as Stage>⟧.fits result ≡ fits_always }
        ensures wants { ⟦<Coder<'a> as Stage>⟧.wants result ≡ 32 }
    {
        Coder {
            table,
            listener: Listener::new(),
            place: Place::new(),
        }
    }
}

impl Stage for Coder<'_> {
    ghost use Rattle.std.specs.Prelude.{refl};
    ghost use Rattle.document_stages.specs.Pulling.{fits_always};
    ghost use Rattle.utf8_own_stage.specs.Coding.{coding};

    ghost says = { λ s. coding s.table.now s.listener s.place };

    ghost fits = { λ s. fits_always };

    ghost counts = { λ s ends bytes. 0 };

    ghost wants = { λ s. 32 };

    ghost waits = { λ s. refl };

    fn room(&self) -> usize {
        MOST
    }

    fn turn(&mut self, bytes: &[u8], out: &mut SliceVec<'_, u8>) -> usize {
        let len = bytes.len().min((out.capacity() - out.len()) / MOST);
        put_all(
            &bytes[..len],
            &mut self.listener,
            &mut self.place,
            self.table,
            out,
        );
        len
    }

    fn finish(&mut self, out: &mut SliceVec<'_, u8>) -> bool {
        put_last(self.listener.held, &mut self.place, self.table, out);
        self.listener.held = None;
        true
    }

    fn is_full(&self) -> bool {
        false
    }
}
