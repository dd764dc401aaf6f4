//! Sources and sinks over std's readers and writers.
ghost use Rattle.std.specs.Prelude.{◌≡◌, ◌<◌, IfOk};
ghost use Rattle.std.specs.Io.{ReadsAtMost, WritesAtMost};
ghost use Rattle.std.specs.Io.KnownBytes.{Keeps, ReadConsumes, WriteAppends};
ghost use Rattle.nr_units.specs.Source.{Gives, reader_supply};

use super::sink::Sink;
use super::source::{Fault, Source, next_count};
use std::io::{ErrorKind, Read, Write};

/// How often in a row a call that a signal interrupted is made again. One more interruption is a
/// failure.
pub const RETRIES: u8 = 64;

/// One read, made again where a signal interrupts it. An error takes no byte.
pub(crate) fn read_some<R: Read>(reader: &mut R, buffer: &mut [u8]) -> Result<usize, Fault>
    ensures bound { ReadsAtMost result buffer.new }
    ensures bytes { ReadConsumes (R.remaining reader.old) (R.remaining reader.new) result buffer.new }
{
    for _ in 0..=RETRIES {
        match reader.read(buffer) {
            Ok(count) => return Ok(count),
            Err(error) => {
                if error.kind() != ErrorKind::Interrupted {
                    return Err(Fault);
                }
            }
        }
    }
    Err(Fault)
}

/// Reads one byte, or `None` at the end. An error takes no byte.
pub(crate) fn read_byte<R: Read>(reader: &mut R) -> Result<Option<u8>, Fault>
    ensures { Gives (reader_supply (R.remaining reader.old)) result (reader_supply (R.remaining reader.new)) }
{
    let mut cell = [0u8; 1];
    match read_some(reader, &mut cell) {
        Ok(0) => Ok(None),
        Ok(_) => Ok(Some(cell[0])),
        Err(fault) => Err(fault),
    }
}

/// One write of at least one byte, made again where a signal interrupts it. A write that took no
/// byte is a failure, and a failure takes no byte.
fn write_some<W: Write>(writer: &mut W, bytes: &[u8]) -> Result<usize, Fault>
    ensures bound { WritesAtMost result bytes.now }
    ensures some { IfOk result (λ count. 0 < count) }
    ensures bytes { WriteAppends (W.contents writer.old) (W.contents writer.new) result bytes.now }
{
    for _ in 0..=RETRIES {
        match writer.write(bytes) {
            Ok(0) => return Err(Fault),
            Ok(count) => return Ok(count),
            Err(error) => {
                if error.kind() != ErrorKind::Interrupted {
                    return Err(Fault);
                }
            }
        }
    }
    Err(Fault)
}

/// One flush, made again where a signal interrupts it.
fn flush_all<W: Write>(writer: &mut W) -> Result<(), Fault>
    ensures { Keeps (W.contents writer.old) (W.contents writer.new) }
{
    for _ in 0..=RETRIES {
        match writer.flush() {
            Ok(()) => return Ok(()),
            Err(error) => {
                if error.kind() != ErrorKind::Interrupted {
                    return Err(Fault);
                }
            }
        }
    }
    Err(Fault)
}

/// The bytes of a reader, read one at a time. Once the end was seen, the reader is not read again.
///
/// Proved: The wrappers over std give the bytes that a reader has left and put bytes after those that a writer has,
/// where std knows them, and keep all that is promised of sources and sinks. (`FromReader`, `ToWriter`; `Buffered` in
/// buffered.rt)
/// Proved: After the end of a reader nothing more comes. (`FromReader`; `Buffered` in buffered.rt)
#[derive(Drop)]
pub struct FromReader<R> {
    reader: R,
    ended: bool,
    failures: u64,
}

impl<R: Read + Drop> FromReader<R> {
    /// The reader's bytes from where it stands.
    pub fn over(reader: R) -> Self
        ensures supply { ⟦<FromReader<R> as Source>⟧.supply result ≡ reader_supply (R.remaining reader) }
        ensures failures { ⟦<FromReader<R> as Source>⟧.failures result ≡ 0 }
    {
        FromReader {
            reader,
            ended: false,
            failures: 0,
        }
    }

    /// How many calls answered an error, modulo 2^64.
    pub fn failed_calls(&self) -> u64
        ensures { result ≡ ⟦<FromReader<R> as Source>⟧.failures self.now }
    {
        self.failures
    }
}

impl<R: Read + Drop> Source for FromReader<R> {
    ghost use Rattle.std.specs.Prelude.{◌≡◌, [], Some, None, Ok};
    ghost use Rattle.nr_units.specs.Failures.{counted};
    ghost use Rattle.nr_units.specs.Source.{Gives, buffered_supply, reader_supply};

    ghost supply = { λ s. buffered_supply [] s.ended (R.remaining s.reader) };

    ghost at_hand = { λ s. [] };

    ghost failures = { λ s. s.failures };

    /// None: each byte is read by itself.
    fn window(&self) -> &[u8] {
        &[]
    }

    fn skip(&mut self, _n: usize) {}

    fn next(&mut self) -> Result<Option<u8>, Fault>
        ensures gives { Gives (⟦<FromReader<R> as Source>⟧.supply self.old) result
            (⟦<FromReader<R> as Source>⟧.supply self.new) }
        ensures failures { ⟦<FromReader<R> as Source>⟧.failures self.new
            ≡ counted (⟦<FromReader<R> as Source>⟧.failures self.old) result }
        // At any reader, nothing comes after the end.
        ensures end { result ≡ Ok None → ⟦<FromReader<R> as Source>⟧.supply self.new
            ≡ reader_supply (Some []) }
    {
        if self.ended {
            return Ok(None);
        }
        match read_byte(&mut self.reader) {
            Ok(Some(byte)) => Ok(Some(byte)),
            Ok(None) => {
                self.ended = true;
                Ok(None)
            }
            Err(fault) => {
                self.failures = next_count(self.failures);
                Err(fault)
            }
        }
    }
}

/// A writer. A write or a flush that answers an error is a failure, and so is a write that takes no
/// byte.
#[derive(Drop)]
pub struct ToWriter<W> {
    writer: W,
    passed_on: bool,
    failed_puts: u64,
    failed_flushes: u64,
}

impl<W: Write + Drop> ToWriter<W> {
    ghost use Rattle.std.specs.Prelude.{false};
    ghost use Rattle.nr_units.specs.Failures.{no_failures};

    /// Writes after what the writer holds, of which it may not have passed all on.
    pub fn over(writer: W) -> Self
        ensures held { ⟦<ToWriter<W> as Sink>⟧.held result ≡ W.contents writer }
        ensures passed_on { ⟦<ToWriter<W> as Sink>⟧.passed_on result ≡ false }
        ensures failures { ⟦<ToWriter<W> as Sink>⟧.failures result ≡ no_failures }
    {
        ToWriter {
            writer,
            passed_on: false,
            failed_puts: 0,
            failed_flushes: 0,
        }
    }

    /// How many calls of `put` answered an error, modulo 2^64.
    pub fn failed_puts(&self) -> u64
        ensures { result ≡ (⟦<ToWriter<W> as Sink>⟧.failures self.now).puts }
    {
        self.failed_puts
    }

    /// How many calls of `flush` answered an error, modulo 2^64.
    pub fn failed_flushes(&self) -> u64
        ensures { result ≡ (⟦<ToWriter<W> as Sink>⟧.failures self.now).flushes }
    {
        self.failed_flushes
    }
}

impl<W: Write + Drop> Sink for ToWriter<W> {
    ghost held = { λ s. W.contents s.writer };

    ghost passed_on = { λ s. s.passed_on };

    ghost failures = { λ s. record { puts = s.failed_puts; flushes = s.failed_flushes } };

    fn put(&mut self, bytes: &[u8]) -> Result<(), Fault> {
        let mut done = 0;
        while done < bytes.len() {
            self.passed_on = false;
            match write_some(&mut self.writer, &bytes[done..]) {
                Ok(count) => done += count,
                Err(fault) => {
                    self.failed_puts = next_count(self.failed_puts);
                    return Err(fault);
                }
            }
        }
        Ok(())
    }

    fn flush(&mut self) -> Result<(), Fault> {
        match flush_all(&mut self.writer) {
            Ok(()) => {
                self.passed_on = true;
                Ok(())
            }
            Err(fault) => {
                self.failed_flushes = next_count(self.failed_flushes);
                Err(fault)
            }
        }
    }
}
