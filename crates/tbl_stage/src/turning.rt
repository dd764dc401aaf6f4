//! What turns a text, some bytes after others, into a space.
ghost use Rattle.std.specs.Prelude.{◌≡◌, ◌++◌, ◌<◌, ◌≤◌, ℕ, List, [], Bool, true, false, IsTrue, length, take};
ghost use Rattle.document_stages.specs.Pulling.{SaysNothing};

use super::space::Space;

/// Turns bytes, some after others, as a stage of document_stages does, where one turn may make more than can be lent. What makes
/// more at once than it may is full: it makes nothing from then on.
pub trait Turning {
    /// What goes out of bytes that are to come, and of the end after them, if it comes.
    ghost says: { Self → Bool → List ℕ → List ℕ };

    /// Of these bytes and the end after them nothing makes more at once than it may.
    ghost fits: { Self → List ℕ → Bool };

    /// How much room a turn needs.
    ghost wants: { Self → ℕ };

    /// Nothing goes out where nothing comes.
    ghost waits: { (stage : Self) → says stage false [] ≡ [] };

    /// The room that a turn needs, in bytes.
    fn room(&self) -> usize
        ensures { result ≡ wants self.now };

    /// Takes some of these bytes, and puts what comes of them into an empty space. Tells how many it took.
    fn turn(&mut self, bytes: &[u8], out: &mut Space) -> usize
        requires empty { out.old.items ≡ [] }
        requires room { wants self.old ≤ out.old.capacity }
        ensures within { result ≤ length bytes.now }
        ensures some { 0 < length bytes.now → 0 < result }
        ensures says { (ends : Bool) → (rest : List ℕ) → says self.old ends (take result bytes.now ++ rest)
            ≡ out.new.items ++ says self.new ends rest }
        ensures fits { (rest : List ℕ) → fits self.old (take result bytes.now ++ rest) ≡ fits self.new rest }
        ensures wants { wants self.new ≡ wants self.old }
        ensures room { out.new.capacity ≡ out.old.capacity };

    /// The end comes. Tells whether all that comes of it went into the space.
    fn finish(&mut self, out: &mut Space) -> bool
        requires empty { out.old.items ≡ [] }
        requires room { wants self.old ≤ out.old.capacity }
        ensures says { says self.old true [] ≡ out.new.items }
        ensures fits { result ≡ fits self.old [] }
        ensures full { result ≡ false → SaysNothing (says self.new) (fits self.new) }
        ensures wants { wants self.new ≡ wants self.old }
        ensures room { out.new.capacity ≡ out.old.capacity };

    /// Whether it is full.
    fn is_full(&self) -> bool
        ensures { IsTrue result → SaysNothing (says self.now) (fits self.now) };
}
