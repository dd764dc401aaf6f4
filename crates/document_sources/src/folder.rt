//! A folder of texts, by their names.
ghost use Rattle.std.specs.Prelude.{◌≡◌, ℕ, List, Option, OnOk};
ghost use Rattle.document_sources.specs.Joining.{Takes};

use std::alloc::AllocError;

/// Why a text is left out.
#[derive(Clone, Copy, PartialEq, Eq)]
pub enum Why {
    /// There is no file of that name in the folder, or it can't be opened.
    Nothing,
    /// It leads out of the folder.
    Outside,
    /// It is longer than is still read.
    TooLong,
    /// It can't be read.
    Unreadable,
    /// As many texts as may be were named before it.
    TooMany,
}

/// What became of a name.
#[derive(Clone, Copy)]
pub enum Found {
    /// Its text was read.
    Text,
    /// It is left out.
    Not(Why),
}

/// Gives the texts of names.
pub trait Folder {
    /// The texts of names, where they are known: each ends with a newline or is empty.
    ghost texts: { Self → Option (List ℕ → Option (List ℕ)) };

    /// Reads the text of a name, of so many bytes at most. Nothing where there is none, or it is longer.
    fn read(&mut self, name: &[u8], most: usize, text: &mut Vec<u8>) -> Result<Found, AllocError>
        ensures stays { texts self.new ≡ texts self.old }
        ensures takes { OnOk result (Takes (texts self.old) name.now most text.new.items) };
}
