//! Where paths lead, and the files there.
ghost use Rattle.std.specs.Prelude.{◌≡◌, ℕ, List, [], ◌∷◌, Option};
ghost use Rattle.document_sources.specs.Places.{Asks};

use std::alloc::Global;
use std::io::{ErrorKind, Read};
use std::rt::Files;
use std::{fs, io};

/// A system of files.
pub trait Places {
    /// A file that is open.
    type File: Read + Drop;

    /// The paths that it was asked to open, in that order, where they are known.
    ghost asked: { Self → Option (List (List ℕ)) };

    /// Where a path leads, all links followed. Nothing is opened.
    fn resolve(&mut self, path: &str) -> io::Result<String>
        ensures { asked self.new ≡ asked self.old };

    /// Opens the file of a path. Nothing of it is read yet.
    fn open(&mut self, path: &str) -> io::Result<Self::File>
        ensures { Asks (asked self.old) (asked self.new) (path.now ∷ []) };
}

/// The files of the system. Where a path leads to no file, it can't be opened.
#[derive(Drop)]
pub struct System<'r, R> {
    files: &'r R,
    alloc: Global,
}

impl<'r, R: Files> System<'r, R> {
    /// These files.
    pub fn new(files: &'r R, alloc: Global) -> Self {
        System { files, alloc }
    }
}

impl<R: Files> Places for System<'_, R> {
    ghost use Rattle.std.specs.Prelude.{None};

    type File = R::File;

    ghost asked = { λ system. None };

    fn resolve(&mut self, path: &str) -> io::Result<String> {
        let path = self.files.canonicalize(self.alloc, path)?;
        Ok(path.into_string())
    }

    fn open(&mut self, path: &str) -> io::Result<R::File> {
        if let Ok(file) = fs::metadata(self.files, path)
            && !file.is_file()
        {
            return Err(io::Error::from(ErrorKind::InvalidInput));
        }
        fs::open(self.files, path)
    }
}
