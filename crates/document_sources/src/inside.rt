//! The texts of a folder of a system, and of nothing beyond it.
ghost use Rattle.std.specs.Prelude.{◌≡◌, IfOk, string_bytes, true};
ghost use Rattle.document_sources.specs.Names.{LiesIn};
ghost use Rattle.document_sources.specs.Places.{AsksIn, joined_path};

use super::folder::{Folder, Found, Why};
use super::names::is_inner;
use super::places::Places;
use std::alloc::{AllocError, Global};
use std::io;
use std::io::{ErrorKind, Read};

/// How many bytes are read at once.
const CHUNK: usize = 4_096;

/// A folder of a system.
#[derive(Drop)]
pub struct Inside<P> {
    places: P,
    // Where it is, without the slash at the end: all links followed.
    root: String,
    alloc: Global,
}

/// Why a file isn't read.
#[derive(Clone, Copy)]
enum Refused {
    /// There was not enough memory.
    OutOfMemory,
    /// Its text is left out.
    Name(Why),
}

impl From<AllocError> for Refused {
    fn from(_error: AllocError) -> Self {
        Refused::OutOfMemory
    }
}

/// A path below another: that one, a slash, and a name.
fn joined_path(alloc: Global, root: &str, name: &str) -> Result<String, AllocError>
    ensures { IfOk result (λ path. string_bytes path ≡ joined_path root.now name.now) }
{
    let mut path = String::from_str(alloc, root)?;
    path.push_str("/")?;
    path.push_str(name)?;
    Ok(path)
}

/// Whether a path lies in the folder of this path.
fn lies_in(root: &[u8], path: &[u8]) -> bool
    ensures { result ≡ true → LiesIn root.now path.now }
{
    let Some(below) = path.strip_prefix(root) else {
        return false;
    };
    let Some((first, rest)) = below.split_first() else {
        return false;
    };
    if *first != b'/' {
        return false;
    }
    is_inner(rest)
}

/// Adds what a file has left, of so many bytes at most: fewer where it fails, which is reported.
fn read_all<R: Read>(file: &mut R, most: usize, text: &mut Vec<u8>) -> Result<Found, AllocError> {
    let mut chunk = [0u8; CHUNK];
    for _ in 0..u64::MAX {
        match file.read(&mut chunk) {
            Ok(0) => return Ok(Found::Text),
            Ok(count) => {
                if most.saturating_sub(text.len()) < count {
                    return Ok(Found::Not(Why::TooLong));
                }
                text.extend_from_slice(&chunk[..count])?;
            }
            Err(error) => {
                if error.kind() != ErrorKind::Interrupted {
                    return Ok(Found::Not(Why::Unreadable));
                }
            }
        }
    }
    Ok(Found::Not(Why::Unreadable))
}

/// Ends the last line of a text, if it has room.
fn end_last(most: usize, text: &mut Vec<u8>) -> Result<Found, AllocError> {
    match text.last() {
        None | Some(b'\n') => Ok(Found::Text),
        Some(_) => {
            if text.len() >= most {
                return Ok(Found::Not(Why::TooLong));
            }
            text.push(b'\n')?;
            Ok(Found::Text)
        }
    }
}

impl<P: Places + Drop> Inside<P> {
    /// The folder of this path. Nothing of it is opened.
    pub fn of(places: P, folder: &str, alloc: Global) -> io::Result<Self>
        ensures { IfOk result (λ inside. P.asked inside.places ≡ P.asked places) }
    {
        let mut places = places;
        let mut root = places.resolve(folder)?;
        if root.as_str() == "/" {
            root = String::new(alloc);
        }
        Ok(Inside {
            places,
            root,
            alloc,
        })
    }

    /// Where the file of a name is, if that is in the folder.
    fn path_of(&mut self, name: &str) -> Result<String, Refused>
        ensures lies { IfOk result (λ path. LiesIn (string_bytes self.old.root) (string_bytes path)) }
        ensures asked { P.asked self.new.places ≡ P.asked self.old.places }
        ensures root { self.new.root ≡ self.old.root }
    {
        if !is_inner(name.as_bytes()) {
            return Err(Refused::Name(Why::Outside));
        }
        let path = joined_path(self.alloc, self.root.as_str(), name)?;
        let Ok(path) = self.places.resolve(path.as_str()) else {
            return Err(Refused::Name(Why::Nothing));
        };
        if !lies_in(self.root.as_bytes(), path.as_bytes()) {
            return Err(Refused::Name(Why::Outside));
        }
        Ok(path)
    }

    /// Opens the file of a name.
    fn open(&mut self, name: &[u8]) -> Result<P::File, Refused>
        ensures asked { AsksIn (string_bytes self.old.root) (P.asked self.old.places) (P.asked self.new.places) }
        ensures root { self.new.root ≡ self.old.root }
    {
        let Ok(name) = str::from_utf8(name) else {
            return Err(Refused::Name(Why::Nothing));
        };
        let path = self.path_of(name)?;
        match self.places.open(path.as_str()) {
            Ok(file) => Ok(file),
            Err(_) => Err(Refused::Name(Why::Nothing)),
        }
    }
}

impl<P: Places + Drop> Folder for Inside<P> {
    ghost use Rattle.std.specs.Prelude.{None};

    ghost texts = { λ inside. None };

    /// Proved: Each path that is opened lies in the folder: it is the folder's own, a slash, and parts of which none is
    /// empty or `..`. Where links lead beyond it nothing is opened.
    fn read(&mut self, name: &[u8], most: usize, text: &mut Vec<u8>) -> Result<Found, AllocError>
        ensures asked { AsksIn (string_bytes self.old.root) (P.asked self.old.places) (P.asked self.new.places) }
        ensures root { self.new.root ≡ self.old.root }
    {
        text.clear();
        let found = match self.open(name) {
            Ok(mut file) => match read_all(&mut file, most, text)? {
                Found::Text => end_last(most, text)?,
                other => other,
            },
            Err(Refused::Name(why)) => Found::Not(why),
            Err(Refused::OutOfMemory) => return Err(AllocError),
        };
        if let Found::Not(_) = found {
            text.clear();
        }
        Ok(found)
    }
}
