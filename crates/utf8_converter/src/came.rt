//! A history that only proofs read: it takes no memory, and nothing is done for it when the program runs.
ghost use Rattle.std.specs.Prelude.{◌≡◌, ℕ, List, [], ◌++◌};
ghost use Rattle.std.specs.Borrow.{ftrue};

use std::marker::Model;

/// The bytes that came.
#[derive(Drop)]
pub struct Came {
    pub ghost bytes: { List ℕ },
}

impl Model for Came {
    ghost also_owns = { λ _. ftrue };
}

impl Came {
    /// None did.
    pub fn nothing() -> Came
        ensures { result.bytes ≡ [] }
    {
        Came {}
    }

    /// These came, too.
    pub fn note(&mut self, _bytes: &[u8])
        ensures { self.new.bytes ≡ self.old.bytes ++ _bytes.now }
    {}
}
