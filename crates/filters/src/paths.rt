// Files, by their paths.
ghost use Rattle.std.specs.Prelude.{ℕ, List, [], ◌∷◌, Option};
ghost use Rattle.filters.specs.Disk.{Asks, Opening, opening_of};

use std::io::Read;
use std::rt::Files;
use std::{fs, io};

/// Where files are opened by their paths.
pub trait Paths {
    /// A file that is open.
    type File: Read + Drop;

    /// The paths that it was asked to open, in that order, where they are known.
    ghost asked: { Self → Option (List (List ℕ)) };

    /// What may come of opening a path.
    ghost may_open: { Self → List ℕ → Opening → Type 0 };

    /// Opens the file of that path. Nothing of it is read yet.
    fn open(&mut self, path: &str) -> io::Result<Self::File>
        ensures asked { Asks (asked self.old) (asked self.new) (path.now ∷ []) }
        ensures comes { may_open self.old path.now (opening_of Self.File.remaining result) }
        ensures stays { (name : List ℕ) → (opening : Opening) → may_open self.new name opening
            → may_open self.old name opening };
}

/// The files of a system.
#[derive(Drop)]
pub struct Tree<'r, R> {
    files: &'r R,
}

impl<'r, R: Files> Tree<'r, R> {
    /// These files.
    pub fn new(files: &'r R) -> Self {
        Tree { files }
    }
}

impl<R: Files> Paths for Tree<'_, R> {
    ghost use Rattle.std.specs.Prelude.{None, ⊤};

    type File = R::File;

    ghost asked = { λ tree. None };

    ghost may_open = { λ tree path opening. ⊤ };

    fn open(&mut self, path: &str) -> io::Result<R::File> {
        fs::open(self.files, path)
    }
}
