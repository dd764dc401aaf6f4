//! What turns a text, some bytes after others.
ghost use Rattle.std.specs.Prelude.{◌≡◌, ◌+◌, ◌*◌, ◌++◌, ◌<◌, ◌≤◌, ℕ, List, [], Bool, true, false, IsTrue, length, take};
ghost use Rattle.document_stages.specs.Pulling.{SaysNothing};

use nr_vectors::slice_vec::SliceVec;

/// The room that one turn of a stage may need, whatever the stage.
pub const LEAST_ROOM: usize = 73_984;

/// Turns bytes, some after others, and counts what it does. A stage that makes more of one line than it may is full: it makes
/// nothing from then on.
pub trait Stage {
    /// What goes out of bytes that are to come, and of the end after them, if it comes.
    ghost says: { Self → Bool → List ℕ → List ℕ };

    /// Of these bytes and the end after them no line makes more than it may.
    ghost fits: { Self → List ℕ → Bool };

    /// How much it will have counted once these bytes came, and the end after them, if it comes.
    ghost counts: { Self → Bool → List ℕ → ℕ };

    /// How many bytes go out for one that comes, or for the end, at most: so much room a turn needs.
    ghost wants: { Self → ℕ };

    /// Nothing goes out where nothing comes.
    ghost waits: { (stage : Self) → says stage false [] ≡ [] };

    /// The room that a turn needs, in bytes.
    fn room(&self) -> usize
        ensures { result ≡ wants self.now };

    /// Takes some of these bytes, and puts what comes of them after what waits. Tells how many it took.
    fn turn(&mut self, bytes: &[u8], out: &mut SliceVec<'_, u8>) -> usize
        requires room { length out.old.items + wants self.old ≤ out.old.capacity }
        ensures within { result ≤ length bytes.now }
        ensures some { 0 < length bytes.now → 0 < result }
        ensures says { (ends : Bool) → (rest : List ℕ) → out.old.items ++ says self.old ends (take result bytes.now ++ rest)
            ≡ out.new.items ++ says self.new ends rest }
        ensures fits { (rest : List ℕ) → fits self.old (take result bytes.now ++ rest) ≡ fits self.new rest }
        ensures counts { (ends : Bool) → (rest : List ℕ) → counts self.old ends (take result bytes.now ++ rest)
            ≡ counts self.new ends rest }
        ensures few { length out.new.items ≤ length out.old.items + wants self.old * result }
        ensures wants { wants self.new ≡ wants self.old }
        ensures room { out.new.capacity ≡ out.old.capacity };

    /// The end comes. Tells whether all that comes of it went into the room.
    ///
    /// Proved: A stage that makes more than it may gives what it made before, and then the calls fail: so it does
    /// only where the definition says that it doesn't fit (`fits`). (`finish` and `is_full` of `Stage`)
    fn finish(&mut self, out: &mut SliceVec<'_, u8>) -> bool
        requires room { length out.old.items + wants self.old ≤ out.old.capacity }
        ensures says { out.old.items ++ says self.old true [] ≡ out.new.items }
        ensures fits { result ≡ fits self.old [] }
        ensures counts { counts self.old true [] ≡ counts self.new false [] }
        ensures few { length out.new.items ≤ length out.old.items + wants self.old }
        ensures full { result ≡ false → SaysNothing (says self.new) (fits self.new) }
        ensures wants { wants self.new ≡ wants self.old }
        ensures room { out.new.capacity ≡ out.old.capacity };

    /// Whether it is full.
    fn is_full(&self) -> bool
        ensures { IsTrue result → SaysNothing (says self.now) (fits self.now) };
}
