//! A source over a reader that reads into a slice that is lent.
ghost use Rattle.std.specs.Prelude.{◌≡◌, ◌≤◌, length, false};

use super::over_std::{read_byte, read_some};
use super::source::{Fault, Source, next_count};
use std::io::Read;

/// The bytes of a reader, read a slice at a time. Those from `at` to `end` are to come first. Once
/// the end was seen, the reader is not read again.
#[derive(Drop)]
pub struct Buffered<'a, R> {
    reader: R,
    buffer: &'a mut [u8],
    at: usize,
    end: usize,
    ended: bool,
    failures: u64,
    ghost stands: { at ≤ end },
    ghost within: { end ≤ length buffer.now },
}

impl<'a, R: Read + Drop> Buffered<'a, R> {
    ghost use Rattle.std.specs.Prelude.{[]};
    ghost use Rattle.nr_units.specs.Failures.{counted};
    ghost use Rattle.nr_units.specs.Source.{Gives, reader_supply};

    /// The reader's bytes from where it stands, read into this buffer, whatever it holds. Over an
    /// empty buffer each byte is a read of its own.
    pub fn over(reader: R, buffer: &'a mut [u8]) -> Self
        ensures supply { ⟦<Buffered<'a, R> as Source>⟧.supply result ≡ reader_supply (R.remaining reader) }
        ensures failures { ⟦<Buffered<'a, R> as Source>⟧.failures result ≡ 0 }
    {
        Buffered {
            reader,
            buffer,
            at: 0,
            end: 0,
            ended: false,
            failures: 0,
        }
    }

    /// How many calls answered an error, modulo 2^64.
    pub fn failed_calls(&self) -> u64
        ensures { result ≡ ⟦<Buffered<'a, R> as Source>⟧.failures self.now }
    {
        self.failures
    }

    /// The next byte where none is left in the buffer.
    #[cold]
    fn read_next(&mut self) -> Result<Option<u8>, Fault>
        requires { self.old.at ≡ self.old.end }
        ensures gives { Gives (⟦<Buffered<'a, R> as Source>⟧.supply self.old) result
            (⟦<Buffered<'a, R> as Source>⟧.supply self.new) }
        ensures failures { ⟦<Buffered<'a, R> as Source>⟧.failures self.new
            ≡ counted (⟦<Buffered<'a, R> as Source>⟧.failures self.old) result }
        ensures end { result ≡ Ok None → ⟦<Buffered<'a, R> as Source>⟧.supply self.new
            ≡ reader_supply (Some []) }
    {
        if self.ended {
            return Ok(None);
        }
        if self.buffer.is_empty() {
            return self.read_alone();
        }
        let buffer = &mut *self.buffer;
        match read_some(&mut self.reader, buffer) {
            Ok(0) => {
                self.ended = true;
                Ok(None)
            }
            Ok(count) => {
                self.at = 1;
                self.end = count;
                Ok(Some(self.buffer[0]))
            }
            Err(fault) => {
                self.failures = next_count(self.failures);
                Err(fault)
            }
        }
    }

    /// The next byte, read without the buffer.
    fn read_alone(&mut self) -> Result<Option<u8>, Fault>
        requires at { self.old.at ≡ self.old.end }
        requires more { self.old.ended ≡ false }
        ensures gives { Gives (⟦<Buffered<'a, R> as Source>⟧.supply self.old) result
            (⟦<Buffered<'a, R> as Source>⟧.supply self.new) }
        ensures failures { ⟦<Buffered<'a, R> as Source>⟧.failures self.new
            ≡ counted (⟦<Buffered<'a, R> as Source>⟧.failures self.old) result }
        ensures end { result ≡ Ok None → ⟦<Buffered<'a, R> as Source>⟧.supply self.new
            ≡ reader_supply (Some []) }
    {
        match read_byte(&mut self.reader) {
            Ok(Some(byte)) => Ok(Some(byte)),
            Ok(None) => {
                self.ended = true;
                Ok(None)
            }
            Err(fault) => {
                self.failures = next_count(self.failures);
                Err(fault)
            }
        }
    }
}

impl<'a, R: Read + Drop> Source for Buffered<'a, R> {
    ghost use Rattle.std.specs.Prelude.{[], drop, take, Some, None, Ok};
    ghost use Rattle.nr_units.specs.Failures.{counted};
    ghost use Rattle.nr_units.specs.Source.{Gives, buffered_supply, reader_supply};

    ghost supply = { λ s. buffered_supply (drop s.at (take s.end s.buffer.now)) s.ended
        (R.remaining s.reader) };

    ghost at_hand = { λ s. drop s.at (take s.end s.buffer.now) };

    ghost failures = { λ s. s.failures };

    #[inline]
    fn window(&self) -> &[u8] {
        &self.buffer[self.at..self.end]
    }

    #[inline]
    fn skip(&mut self, n: usize) {
        self.at += n;
    }

    #[inline]
    fn next(&mut self) -> Result<Option<u8>, Fault>
        ensures gives { Gives (⟦<Buffered<'a, R> as Source>⟧.supply self.old) result
            (⟦<Buffered<'a, R> as Source>⟧.supply self.new) }
        ensures failures { ⟦<Buffered<'a, R> as Source>⟧.failures self.new
            ≡ counted (⟦<Buffered<'a, R> as Source>⟧.failures self.old) result }
        // At any reader, nothing comes after the end.
        ensures end { result ≡ Ok None → ⟦<Buffered<'a, R> as Source>⟧.supply self.new
            ≡ reader_supply (Some []) }
    {
        if self.at < self.end {
            let byte = self.buffer[self.at];
            self.at += 1;
            return Ok(Some(byte));
        }
        self.read_next()
    }
}
