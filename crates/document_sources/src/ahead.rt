//! What was read of texts and is to come first.
ghost use Rattle.std.specs.Prelude.{◌≡◌, ◌++◌, drop, OnOk, OnErr, true};
ghost use Rattle.document_sources.specs.Joining.{Pops};

use std::alloc::{AllocError, Global};

/// Bytes that come before those of a source.
#[derive(Drop)]
pub(crate) struct Ahead {
    pub text: Vec<u8>,
    // How many of them were taken.
    pub taken: usize,
    pub alloc: Global,
}

impl Ahead {
    ghost use Rattle.std.specs.Prelude.{[]};

    /// None.
    pub fn new(alloc: Global) -> Self
        ensures { drop result.taken result.text.items ≡ [] }
    {
        Ahead {
            text: Vec::new(alloc),
            taken: 0,
            alloc,
        }
    }

    /// Whether all were taken.
    pub fn is_spent(&self) -> bool
        ensures { result ≡ true → drop self.now.taken self.now.text.items ≡ [] }
    {
        self.taken >= self.text.len()
    }

    /// Takes the next.
    pub fn pop(&mut self) -> Option<u8>
        ensures { Pops (drop self.old.taken self.old.text.items) result (drop self.new.taken self.new.text.items) }
    {
        let text = self.text.as_slice();
        if self.taken >= text.len() {
            return None;
        }
        let byte = text[self.taken];
        self.taken += 1;
        Some(byte)
    }

    /// Puts a text before them. They stay as they are where there is no memory for it.
    pub fn put(&mut self, text: Vec<u8>) -> Result<(), AllocError>
        ensures ok { OnOk result (drop self.new.taken self.new.text.items
            ≡ text.items ++ drop self.old.taken self.old.text.items) }
        ensures err { OnErr result (drop self.new.taken self.new.text.items ≡ drop self.old.taken self.old.text.items) }
    {
        let mut text = text;
        let old = self.text.as_slice();
        if self.taken < old.len() {
            text.extend_from_slice(&old[self.taken..])?;
        }
        self.text = text;
        self.taken = 0;
        Ok(())
    }
}
