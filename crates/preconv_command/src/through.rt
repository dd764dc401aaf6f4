//! Two stages, one after the other, are a stage.
ghost use Rattle.std.specs.Prelude.{◌≡◌, ◌+◌, ◌*◌, ◌++◌, ◌≤◌, ℕ, Bool, List, length};

use document_stages::Stage;
use nr_vectors::slice_vec::SliceVec;

/// What the first stage makes the second turns.
///
/// Proved: What goes out of a text that goes through two stages is what the second makes of what the first makes of it.
#[derive(Drop)]
pub(crate) struct Through<'a, S: Stage, T: Stage> {
    pub first: S,
    pub second: T,
    /// What the first makes in one turn.
    pub made: SliceVec<'a, u8>,
    /// The room that a turn needs.
    pub room: usize,
    ghost first_fits: { S.wants first ≤ made.capacity },
    ghost second_fits: { T.wants second * (made.capacity + 1) ≤ room },
}

/// All of these bytes are turned, and what comes of them stands after what waits.
fn turn_all<T: Stage>(bytes: &[u8], stage: &mut T, out: &mut SliceVec<'_, u8>)
    requires room { length out.old.items + T.wants stage.old * length bytes.now ≤ out.old.capacity }
    ensures says { (ends : Bool) → (rest : List ℕ) → out.old.items ++ T.says stage.old ends (bytes.now ++ rest)
        ≡ out.new.items ++ T.says stage.new ends rest }
    ensures few { length out.new.items ≤ length out.old.items + T.wants stage.old * length bytes.now }
    ensures wants { T.wants stage.new ≡ T.wants stage.old }
    ensures room { out.new.capacity ≡ out.old.capacity }
{
    let mut at = 0;
    while at < bytes.len() {
        at += stage.turn(&bytes[at..], out);
    }
}

impl<S: Stage, T: Stage> Stage for Through<'_, S, T> {
    ghost use Rattle.document_stages.specs.Pulling.{fits_always};
    ghost use Rattle.preconv_command.specs.Through.{through, through_waits};

    ghost says = { λ s. through (S.says s.first) (T.says s.second) };

    ghost fits = { λ s. fits_always };

    ghost counts = { λ s ends bytes. 0 };

    ghost wants = { λ s. s.room };

    ghost waits = { λ s. through_waits (S.says s.first) (T.says s.second) (S.waits s.first) (T.waits s.second) };

    fn room(&self) -> usize {
        self.room
    }

    fn turn(&mut self, bytes: &[u8], out: &mut SliceVec<'_, u8>) -> usize {
        self.made.clear();
        let count = self.first.turn(bytes, &mut self.made);
        turn_all(self.made.as_slice(), &mut self.second, out);
        count
    }

    fn finish(&mut self, out: &mut SliceVec<'_, u8>) -> bool {
        self.made.clear();
        self.first.finish(&mut self.made);
        turn_all(self.made.as_slice(), &mut self.second, out);
        self.second.finish(out);
        true
    }

    fn is_full(&self) -> bool {
        false
    }
}
