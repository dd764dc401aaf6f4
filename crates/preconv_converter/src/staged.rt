//! A text is turned a part at a time.
ghost use Rattle.std.specs.Prelude.{◌≡◌, [], false};
ghost use Rattle.preconv_converter.specs.Reading.{first_reader};
ghost use Rattle.preconv_converter.specs.Staged.{counted, said};
ghost use Rattle.document_stages.specs.Pulling.{fits_always};

use super::reader::{MOST, Reader};
use document_stages::Stage;
use nr_vectors::slice_vec::SliceVec;
use preconv_characters::Target;

/// Characters and escapes become what the formatter reads, as with `convert`.
///
/// Proved: A text that is turned a part at a time comes to the same: what goes out of the parts, one after another,
/// and of the end is `converted`, in whatever parts it comes.
#[derive(Drop)]
pub struct PreconvConverter {
    reader: Reader,
    // So many steps were made, or more than it can say.
    steps: u64,
}

impl PreconvConverter {
    /// A text begins, whose characters beyond ASCII become this.
    pub fn new(characters: Target) -> PreconvConverter
        ensures says { ⟦<PreconvConverter as Stage>⟧.says result ≡ said (first_reader characters) }
        ensures fits { ⟦<PreconvConverter as Stage>⟧.fits result ≡ fits_always }
        ensures counts { ⟦<PreconvConverter as Stage>⟧.counts result ≡ counted 0 (first_reader characters) }
        ensures wants { ⟦<PreconvConverter as Stage>⟧.wants result ≡ 1536 }
    {
        PreconvConverter {
            reader: Reader::new(characters),
            steps: 0,
        }
    }

    /// How many steps were made.
    pub fn steps(&self) -> u64
        ensures { result ≡ ⟦<PreconvConverter as Stage>⟧.counts self.now false [] }
    {
        self.steps
    }
}

impl Stage for PreconvConverter {
    ghost use Rattle.std.specs.Prelude.{refl};
    ghost use Rattle.document_stages.specs.Pulling.{fits_always};
    ghost use Rattle.preconv_converter.specs.Staged.{counted, said};

    ghost says = { λ s. said s.reader };

    ghost fits = { λ s. fits_always };

    ghost counts = { λ s. counted s.steps s.reader };

    ghost wants = { λ s. 1536 };

    ghost waits = { λ s. refl };

    fn room(&self) -> usize {
        MOST
    }

    fn turn(&mut self, bytes: &[u8], out: &mut SliceVec<'_, u8>) -> usize {
        let len = bytes.len().min(MOST);
        let mut reader = self.reader;
        let taken = reader.take(&bytes[..len], out);
        self.reader = reader;
        if taken.count > 0 {
            self.steps = self.steps.saturating_add(taken.steps);
            return taken.count;
        }
        if bytes.is_empty() {
            return 0;
        }
        let steps = self.reader.read(bytes[0], out);
        self.steps = self.steps.saturating_add(steps);
        1
    }

    fn finish(&mut self, out: &mut SliceVec<'_, u8>) -> bool {
        let steps = self.reader.finish(out);
        self.steps = self.steps.saturating_add(steps);
        true
    }

    fn is_full(&self) -> bool {
        false
    }
}
