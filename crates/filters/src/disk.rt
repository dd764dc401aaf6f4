// The texts of a system: files by their names, and standard input.
ghost use Rattle.std.specs.Prelude.{◌≡◌, ℕ, List, IfOk, IfErr, OnOk, map};
ghost use Rattle.filters.specs.Disk.{AreOpened, AreUnread, Asks, MayCome, Opening, OpensName, all_paths, named, opened_of};
ghost use Rattle.filters.specs.Arguments.{texts};

use super::endings::Ending;
use super::paths::Paths;
use std::alloc::Global;
use std::io;
use std::io::Read;

/// What is read where there is no name: standard input.
static STANDARD: [&str; 1] = ["-"];

/// What a text is read from.
#[derive(Drop)]
pub enum Stream<F, I> {
    /// A file.
    File(F),
    /// Standard input.
    Standard(I),
}

impl<F: Read, I: Read> Read for Stream<F, I> {
    ghost use Rattle.filters.specs.Disk.{left_of};

    ghost remaining = { left_of F.remaining I.remaining };

    fn read(&mut self, buffer: &mut [u8]) -> io::Result<usize> {
        match self {
            Stream::File(file) => file.read(buffer),
            Stream::Standard(input) => input.read(buffer),
        }
    }
}

/// A text that is open, by its name.
#[derive(Drop)]
pub struct Text<'a, F, I> {
    /// Its name.
    pub name: &'a str,
    /// What it is read from.
    pub stream: Stream<F, I>,
}

/// Files by their paths, standard input, and memory.
#[derive(Drop)]
pub struct Disk<P, I> {
    /// The files.
    pub paths: P,
    /// The memory.
    pub alloc: Global,
    /// This for each time that standard input is read.
    pub standard: I,
}

impl<P: Paths, I: Read + Copy + Drop> Disk<P, I> {
    /// Opens the text of a name: standard input where it is `-`, and else the file of that path.
    ///
    /// Proved: A text is opened by its name: standard input where it is `-`, and no path is asked for; else the file of
    /// that very path, which is asked for once.
    pub fn open<'a>(&mut self, name: &'a str) -> io::Result<Text<'a, P::File, I>>
        ensures opens { OpensName (I.remaining self.old.standard) (P.may_open self.old.paths)
            (P.asked self.old.paths) (P.asked self.new.paths) (opened_of P.File.remaining I.remaining) name.now
            result }
        ensures named { IfOk result (λ text. text.name.now ≡ name.now) }
        ensures stays { (other : List ℕ) → (opening : Opening) → P.may_open self.new.paths other opening
            → P.may_open self.old.paths other opening }
        ensures same { self.new.standard ≡ self.old.standard }
    {
        if name.as_bytes() == b"-".as_slice() {
            return Ok(Text {
                name,
                stream: Stream::Standard(self.standard),
            });
        }
        match self.paths.open(name) {
            Ok(file) => Ok(Text {
                name,
                stream: Stream::File(file),
            }),
            Err(error) => Err(error),
        }
    }

    /// Opens the texts of these names, in order, up to the first that can't be, or standard input where there is no
    /// name.
    ///
    /// Proved: Each name is opened once, in order, and no other path is asked for; standard input alone where there is
    /// no name. The first that can't be opened is the one that is reported, and none after it is tried.
    pub fn open_all<'a>(
        &mut self,
        names: &[&'a str],
    ) -> Result<Vec<Text<'a, P::File, I>>, Ending<'a>>
        ensures opened { IfOk result (λ opened. AreOpened
            (MayCome (I.remaining self.old.standard) (P.may_open self.old.paths)) (named (texts names.now))
            (map (opened_of P.File.remaining I.remaining) opened.items)) }
        ensures asked { OnOk result
            (Asks (P.asked self.old.paths) (P.asked self.new.paths) (all_paths (named (texts names.now)))) }
        ensures unread { IfErr result (λ ending. AreUnread
            (MayCome (I.remaining self.old.standard) (P.may_open self.old.paths)) (P.asked self.old.paths)
            (P.asked self.new.paths) (named (texts names.now)) ending) }
    {
        let names = names_or_standard(names);
        let Ok(mut opened) = Vec::with_capacity(self.alloc, names.len()) else {
            return Err(Ending::OutOfMemory);
        };
        for name in names {
            match self.open(name) {
                Ok(text) => opened.push(text).unwrap(),
                Err(_) => return Err(Ending::CannotOpen(name)),
            }
        }
        Ok(opened)
    }
}

/// These names, or that of standard input where there is none.
fn names_or_standard<'r, 'a>(names: &'r [&'a str]) -> &'r [&'a str]
    ensures { texts result.now ≡ named (texts names.now) }
{
    if names.is_empty() { &STANDARD } else { names }
}
