// Readers and writers of std that fail, and give and take little, where they are told to.
ghost use Rattle.std.specs.Prelude.{◌≤◌};

use std::io;
use std::io::{ErrorKind, Read, Write};

/// What is read and written.
pub const TEXT: &[u8; 7] = b".br\nabc";

/// What a reader or a writer does at one call.
#[derive(Clone, Copy)]
pub enum Answer {
    AtMost(usize),
    Interrupted,
    Broken,
}

/// Gives its bytes as the turns say, and then as many as the buffer takes.
#[derive(Drop)]
pub struct Uneven<'a> {
    bytes: &'a [u8],
    turns: &'a [Answer],
    pub calls: usize,
}

impl<'a> Uneven<'a> {
    pub fn new(bytes: &'a [u8], turns: &'a [Answer]) -> Self {
        Uneven {
            bytes,
            turns,
            calls: 0,
        }
    }
}

impl Read for Uneven<'_> {
    fn read(&mut self, buffer: &mut [u8]) -> io::Result<usize> {
        self.calls = self.calls.saturating_add(1);
        let most = next_most(&mut self.turns)?;
        let count = most.min(buffer.len()).min(self.bytes.len());
        buffer[..count].copy_from_slice(&self.bytes[..count]);
        self.bytes = &self.bytes[count..];
        Ok(count)
    }
}

/// Takes bytes as the turns say, and then all that fit.
#[derive(Drop)]
pub struct Narrow<'a> {
    taken: [u8; 32],
    used: usize,
    turns: &'a [Answer],
    pub calls: usize,
    pub flushes: usize,
    ghost within: { used ≤ 32 },
}

impl<'a> Narrow<'a> {
    pub fn new(turns: &'a [Answer]) -> Self {
        Narrow {
            taken: [0; 32],
            used: 0,
            turns,
            calls: 0,
            flushes: 0,
        }
    }

    pub fn taken(&self) -> &[u8] {
        &self.taken[..self.used]
    }
}

impl Write for Narrow<'_> {
    fn write(&mut self, bytes: &[u8]) -> io::Result<usize> {
        self.calls = self.calls.saturating_add(1);
        let most = next_most(&mut self.turns)?;
        let count = most.min(bytes.len()).min(32 - self.used);
        let end = self.used + count;
        self.taken[self.used..end].copy_from_slice(&bytes[..count]);
        self.used = end;
        Ok(count)
    }

    fn flush(&mut self) -> io::Result<()> {
        next_most(&mut self.turns)?;
        self.flushes = self.flushes.saturating_add(1);
        Ok(())
    }
}

/// How many bytes the next turn allows.
fn next_most(turns: &mut &[Answer]) -> io::Result<usize> {
    match turns.split_first() {
        None => Ok(usize::MAX),
        Some((turn, rest)) => {
            *turns = rest;
            match turn {
                Answer::AtMost(count) => Ok(*count),
                Answer::Interrupted => Err(io::Error::from(ErrorKind::Interrupted)),
                Answer::Broken => Err(io::Error::from(ErrorKind::BrokenPipe)),
            }
        }
    }
}
