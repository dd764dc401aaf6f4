//! A system of words and texts in memory, its standard input, and an output that fails: for tests.

use std::alloc::Allocator;
use std::cell::Cell;
use std::env::FillError;
use std::fs::{Metadata, OpenFile, OpenOptions};
use std::io;
use std::io::{ErrorKind, Read, Seek, SeekFrom, Write};
use std::path::{Path, PathBuf};
use std::rt::{Env, Files};

/// A text in memory.
#[derive(Clone, Copy, Drop)]
pub enum Page<'a> {
    /// These bytes.
    Bytes(&'a [u8]),
    /// These bytes, after which each call fails.
    Cut(&'a [u8]),
    /// The text of another path.
    Link(&'a str),
}

impl Read for Page<'_> {
    fn read(&mut self, buffer: &mut [u8]) -> io::Result<usize> {
        match self {
            Page::Cut([]) | Page::Link(_) => Err(io::Error::from(ErrorKind::IsADirectory)),
            Page::Bytes(bytes) | Page::Cut(bytes) => bytes.read(buffer),
        }
    }
}

/// Standard input: bytes that come once, however often it is opened.
#[derive(Clone, Copy)]
pub struct Typed<'r, 'a> {
    /// Those that are left.
    pub left: &'r Cell<&'a [u8]>,
}

impl Read for Typed<'_, '_> {
    fn read(&mut self, buffer: &mut [u8]) -> io::Result<usize> {
        let mut bytes = self.left.get();
        let count = bytes.read(buffer)?;
        self.left.set(bytes);
        Ok(count)
    }
}

/// Takes bytes, or fails at each write; fails at each flush.
#[derive(Drop)]
pub struct Closing {
    /// Whether it takes bytes.
    pub takes: bool,
}

impl Write for Closing {
    fn write(&mut self, bytes: &[u8]) -> io::Result<usize> {
        if self.takes {
            Ok(bytes.len())
        } else {
            Err(io::Error::from(ErrorKind::BrokenPipe))
        }
    }

    fn flush(&mut self) -> io::Result<()> {
        Err(io::Error::from(ErrorKind::BrokenPipe))
    }
}

/// Words, the first of which is the program's name, and texts by their paths.
#[derive(Drop)]
pub struct System<'a> {
    /// The words.
    pub words: &'a [&'a [u8]],
    /// The paths and their texts.
    pub texts: &'a [(&'a str, Page<'a>)],
}

impl Env for System<'_> {
    fn arg(&self, place: usize, buffer: &mut [u8]) -> Result<usize, FillError> {
        let Some(word) = self.words.get(place) else {
            return Err(FillError::NotPresent);
        };
        if word.len() > buffer.len() {
            return Err(FillError::TooLong);
        }
        buffer[..word.len()].copy_from_slice(word);
        Ok(word.len())
    }

    fn var(&self, _name: &str, _buffer: &mut [u8]) -> Result<usize, FillError> {
        Err(FillError::NotPresent)
    }

    fn var_at(&self, _place: usize, _buffer: &mut [u8]) -> Result<usize, FillError> {
        Err(FillError::NotPresent)
    }
}

impl<'a> System<'a> {
    /// The text of this path.
    fn page(&self, path: &str) -> Option<Page<'a>> {
        for (name, page) in self.texts {
            if *name == path {
                return Some(*page);
            }
        }
        None
    }

    /// Whether a text lies in the folder of this path.
    fn has_folder(&self, path: &str) -> bool {
        for (name, _) in self.texts {
            if let Some([b'/', ..]) = name.as_bytes().strip_prefix(path.as_bytes()) {
                return true;
            }
        }
        false
    }
}

/// What no text in memory can do.
fn unsupported() -> io::Error {
    io::Error::from(ErrorKind::Unsupported)
}

impl<'a> Files for System<'a> {
    type File = Page<'a>;

    type Dir = Page<'a>;

    fn open_file(&self, how: &OpenOptions, path: &str) -> io::Result<Page<'a>> {
        how.check()?;
        match self.page(path) {
            Some(page) => Ok(page),
            None => Err(io::Error::from(ErrorKind::NotFound)),
        }
    }

    fn canonicalize<B: Allocator>(&self, alloc: B, path: &str) -> io::Result<PathBuf<B>> {
        let path = path.strip_suffix('/').unwrap_or(path);
        let path = match self.page(path) {
            Some(Page::Link(to)) => to,
            Some(_) => path,
            None if self.has_folder(path) => path,
            None => return Err(io::Error::from(ErrorKind::NotFound)),
        };
        Ok(Path::new(path).to_path_buf(alloc)?)
    }

    fn open_dir(&self, _path: &str) -> io::Result<Page<'a>> {
        Err(unsupported())
    }

    fn metadata(&self, _path: &str) -> io::Result<Metadata> {
        Err(unsupported())
    }

    fn symlink_metadata(&self, _path: &str) -> io::Result<Metadata> {
        Err(unsupported())
    }

    fn copy(&self, _from: &str, _to: &str) -> io::Result<u64> {
        Err(unsupported())
    }

    fn rename(&self, _from: &str, _to: &str) -> io::Result<()> {
        Err(unsupported())
    }

    fn remove_file(&self, _path: &str) -> io::Result<()> {
        Err(unsupported())
    }

    fn create_dir(&self, _path: &str) -> io::Result<()> {
        Err(unsupported())
    }

    fn remove_dir(&self, _path: &str) -> io::Result<()> {
        Err(unsupported())
    }

    fn remove_dir_all<B: Allocator>(&self, _alloc: B, _path: &str) -> io::Result<()> {
        Err(unsupported())
    }
}

impl Write for Page<'_> {
    fn write(&mut self, _bytes: &[u8]) -> io::Result<usize> {
        Err(unsupported())
    }

    fn flush(&mut self) -> io::Result<()> {
        Err(unsupported())
    }
}

impl Seek for Page<'_> {
    fn seek(&mut self, _to: SeekFrom) -> io::Result<u64> {
        Err(unsupported())
    }
}

impl OpenFile for Page<'_> {
    fn metadata(&self) -> io::Result<Metadata> {
        Err(unsupported())
    }

    fn set_len(&self, _size: u64) -> io::Result<()> {
        Err(unsupported())
    }

    fn sync_all(&self) -> io::Result<()> {
        Err(unsupported())
    }

    fn sync_data(&self) -> io::Result<()> {
        Err(unsupported())
    }
}
