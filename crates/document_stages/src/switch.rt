//! A stage that is on or off.
ghost use Rattle.std.specs.Prelude.{◌≡◌, ◌+◌, ◌++◌, ◌<◌, ◌≤◌, length, take};

use super::stage::Stage;
use nr_vectors::slice_vec::SliceVec;

/// A stage, or one that leaves what comes as it is.
#[derive(Drop)]
pub struct Switch<T> {
    stage: T,
    on: bool,
}

impl<T: Stage> Switch<T> {
    ghost use Rattle.document_stages.specs.Switch.{counts_if, fits_if, says_if, wants_if};

    /// The stage, on or off.
    ///
    /// Proved: A stage that is off gives what comes as it is.
    pub fn over(stage: T, on: bool) -> Switch<T>
        ensures says { ⟦<Switch<T> as Stage>⟧.says result ≡ says_if on (T.says stage) }
        ensures fits { ⟦<Switch<T> as Stage>⟧.fits result ≡ fits_if on (T.fits stage) }
        ensures counts { ⟦<Switch<T> as Stage>⟧.counts result ≡ counts_if on (T.counts stage) }
        ensures wants { ⟦<Switch<T> as Stage>⟧.wants result ≡ wants_if on (T.wants stage) }
    {
        Switch { stage, on }
    }

    /// The stage.
    pub fn stage(&self) -> &T {
        &self.stage
    }
}

/// As many of these bytes as there is room for go out as they are. Tells how many.
fn pass(bytes: &[u8], out: &mut SliceVec<'_, u8>) -> usize
    requires room { length out.old.items + 1 ≤ out.old.capacity }
    ensures within { result ≤ length bytes.now }
    ensures some { 0 < length bytes.now → 0 < result }
    ensures items { out.new.items ≡ out.old.items ++ take result bytes.now }
    ensures room { out.new.capacity ≡ out.old.capacity }
{
    let count = bytes.len().min(out.capacity() - out.len());
    out.extend(&bytes[..count]);
    count
}

impl<T: Stage> Stage for Switch<T> {
    ghost use Rattle.document_stages.specs.Switch.{counts_if, fits_if, says_if, waits_if, wants_if};

    ghost says = { λ s. says_if s.on (T.says s.stage) };

    ghost fits = { λ s. fits_if s.on (T.fits s.stage) };

    ghost counts = { λ s. counts_if s.on (T.counts s.stage) };

    ghost wants = { λ s. wants_if s.on (T.wants s.stage) };

    ghost waits = { λ s. waits_if s.on (T.says s.stage) (T.waits s.stage) };

    fn room(&self) -> usize {
        if self.on { self.stage.room() } else { 1 }
    }

    fn turn(&mut self, bytes: &[u8], out: &mut SliceVec<'_, u8>) -> usize {
        if self.on {
            self.stage.turn(bytes, out)
        } else {
            pass(bytes, out)
        }
    }

    fn finish(&mut self, out: &mut SliceVec<'_, u8>) -> bool {
        if self.on {
            self.stage.finish(out)
        } else {
            true
        }
    }

    fn is_full(&self) -> bool {
        self.on && self.stage.is_full()
    }
}
