// The files of the system, and its standard input.
ghost use Rattle.std.specs.Prelude.{◌≡◌, ◌<◌, ℕ, List, [], ◌∷◌, length, Option, None, IfSome};
ghost use Rattle.nr_command_options.specs.Inputs.{macro_path};
ghost use Rattle.nr_command.specs.Opening.{Asks};

use super::opening::Opener;
use arrayvec::ArrayString;
use nr_command_options::{Input, MacroFile};
use nr_engine::Buffered;
use std::io::{ErrorKind, Read};
use std::rt::Files;
use std::{fs, io};

/// The bytes of the longest path that Linux opens.
const LONGEST_PATH: usize = 4_095;

/// A text of the system.
#[derive(Drop)]
pub enum Text<F, I> {
    /// A file.
    File(F),
    /// Standard input.
    Standard(I),
}

impl<F: Read, I: Read> Read for Text<F, I> {
    ghost use Rattle.nr_command.specs.Disk.{left_of};

    ghost remaining = { left_of F.remaining I.remaining };

    fn read(&mut self, buffer: &mut [u8]) -> io::Result<usize> {
        match self {
            Text::File(file) => file.read(buffer),
            Text::Standard(input) => input.read(buffer),
        }
    }
}

/// Where files are opened by their paths.
pub trait Paths {
    /// A file that is open.
    type File: Read + Drop;

    /// The paths that it was asked to open, in that order, where they are known.
    ghost asked: { Self → Option (List (List ℕ)) };

    /// Opens the file of that path.
    fn open(&mut self, path: &str) -> io::Result<Self::File>
        ensures { Asks (asked self.old) (asked self.new) (path.now ∷ []) };
}

/// The files of a system.
#[derive(Drop)]
pub struct Tree<'r, R> {
    files: &'r R,
}

impl<'r, R: Files> Tree<'r, R> {
    /// These files.
    pub fn new(files: &'r R) -> Self {
        Tree { files }
    }
}

impl<R: Files> Paths for Tree<'_, R> {
    type File = R::File;

    ghost asked = { λ tree. None };

    fn open(&mut self, path: &str) -> io::Result<R::File> {
        fs::open(self.files, path)
    }
}

/// The path of a macro file, if Linux opens one so long.
fn path_of(file: MacroFile<'_>) -> Option<ArrayString<LONGEST_PATH>>
    ensures path { IfSome result (λ path. path.bytes ≡ macro_path file.entry.folder.now file.entry.name.now) }
    ensures none { result ≡ None → 4095 < length (macro_path file.entry.folder.now file.entry.name.now) }
{
    let mut path = ArrayString::<LONGEST_PATH>::new();
    if path.try_push_str(file.folder).is_err()
        || path.try_push_str("/tmac.").is_err()
        || path.try_push_str(file.name).is_err()
    {
        return None;
    }
    Some(path)
}

/// Files by their paths, and standard input.
#[derive(Drop)]
pub struct Disk<P, I> {
    paths: P,
    standard: I,
}

impl<P: Paths, I: Read + Copy + Drop> Disk<P, I> {
    ghost use Rattle.std.specs.Prelude.{IfOk};
    ghost use Rattle.nr_command_options.specs.Inputs.{reading_of};
    ghost use Rattle.nr_command.specs.Disk.{AsksPath, IsFile, IsText};

    /// These files, and this for each time that standard input is read.
    pub fn new(paths: P, standard: I) -> Self {
        Disk { paths, standard }
    }

    /// The text of that name.
    ///
    /// Proved: A text of the system is opened by its path, a macro file's by `folder/tmac.name`, asked for once, but
    /// for a macro file's that is longer than 4,095 bytes; standard input needs none. (`Disk::text`, for whatever
    /// opens files and tells the paths that it was asked for)
    fn text(&mut self, input: Input<'_>) -> io::Result<Text<P::File, I>>
        ensures text { IsText self.old.standard (reading_of input.entry) result }
        ensures asked { AsksPath (P.asked self.old.paths) (P.asked self.new.paths)
            (reading_of input.entry) result }
        ensures same { self.new.standard ≡ self.old.standard }
    {
        match input {
            Input::Macros(file) => match path_of(file) {
                Some(path) => self.file(path.as_str()),
                None => Err(io::Error::from(ErrorKind::InvalidFilename)),
            },
            Input::File(name) => self.file(name),
            Input::Standard => Ok(Text::Standard(self.standard)),
        }
    }

    /// The file of that path.
    fn file(&mut self, path: &str) -> io::Result<Text<P::File, I>>
        ensures file { IfOk result IsFile }
        ensures asked { Asks (P.asked self.old.paths) (P.asked self.new.paths) (path.now ∷ []) }
        ensures same { self.new.standard ≡ self.old.standard }
    {
        match self.paths.open(path) {
            Ok(file) => Ok(Text::File(file)),
            Err(error) => Err(error),
        }
    }
}

impl<'b, P: Paths + Drop, I: Read + Copy + Drop> Opener<'b> for Disk<P, I> {
    ghost use Rattle.nr_command.specs.Disk.{MayCome};

    type Text = Buffered<'b, Text<P::File, I>>;

    ghost may_come = { λ disk. MayCome (I.remaining disk.standard) };

    ghost asked = { λ disk. None };

    fn open(&mut self, input: Input<'_>, buffer: &'b mut [u8]) -> io::Result<Self::Text> {
        match self.text(input) {
            Ok(text) => Ok(Buffered::over(text, buffer)),
            Err(error) => Err(error),
        }
    }
}
