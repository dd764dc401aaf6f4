//! A sink that bytes reach without what is struck over.
ghost use Rattle.std.specs.Prelude.{◌<◌, ◌≤◌, length, IfOk};

use nr_units::sink::Sink;
use nr_units::source::{Fault, next_count};

/// Passes on bytes but those that a backspace follows, and the backspaces. Once that failed, each `put` fails.
#[derive(Drop)]
pub(crate) struct Bare<W> {
    output: W,
    /// The last byte, which a backspace may follow.
    waiting: Option<u8>,
    broken: bool,
    flushed: bool,
    failed_puts: u64,
    failed_flushes: u64,
}

impl<W: Sink + Drop> Bare<W> {
    /// Nothing came yet.
    pub(crate) fn over(output: W) -> Self {
        Bare {
            output,
            waiting: None,
            broken: false,
            flushed: false,
            failed_puts: 0,
            failed_flushes: 0,
        }
    }

    /// The end comes, and the last byte goes out. Gives the sink back, and a fault where it failed.
    pub(crate) fn finish(self) -> (W, Result<(), Fault>) {
        let Bare {
            mut output,
            waiting,
            broken,
            flushed: _,
            failed_puts: _,
            failed_flushes: _,
        } = self;
        if broken {
            return (output, Err(Fault));
        }
        let end = put_waiting(waiting, &mut output);
        (output, end)
    }
}

/// The byte that waits goes out.
fn put_waiting<W: Sink>(waiting: Option<u8>, output: &mut W) -> Result<(), Fault> {
    match waiting {
        Some(byte) => output.put(&[byte]),
        None => Ok(()),
    }
}

/// How many bytes stand before the first backspace.
fn unstruck(bytes: &[u8]) -> usize
    ensures { result ≤ length bytes.now }
{
    for (at, byte) in bytes.iter().enumerate() {
        if *byte == b'\x08' {
            return at;
        }
    }
    bytes.len()
}

/// The bytes before the first backspace go out but the last, which waits; or a backspace is read. Tells how many bytes
/// were read.
fn put_run<W: Sink>(bytes: &[u8], waiting: &mut Option<u8>, output: &mut W) -> Result<usize, Fault>
    requires { 0 < length bytes.now }
    ensures { IfOk result (λ n. (0 < n) × (n ≤ length bytes.now)) }
{
    let count = unstruck(bytes);
    if count == 0 {
        *waiting = None;
        return Ok(1);
    }
    put_waiting(*waiting, output)?;
    let last = count - 1;
    *waiting = Some(bytes[last]);
    output.put(&bytes[..last])?;
    Ok(count)
}

/// All of these bytes are read.
fn put_bare<W: Sink>(bytes: &[u8], waiting: &mut Option<u8>, output: &mut W) -> Result<(), Fault> {
    let mut at = 0;
    while at < bytes.len() {
        at += put_run(&bytes[at..], waiting, output)?;
    }
    Ok(())
}

impl<W: Sink + Drop> Sink for Bare<W> {
    ghost use Rattle.std.specs.Prelude.{None};

    ghost held = { λ s. None };

    ghost passed_on = { λ s. s.flushed };

    ghost failures = { λ s. record { puts = s.failed_puts; flushes = s.failed_flushes } };

    fn put(&mut self, bytes: &[u8]) -> Result<(), Fault> {
        if self.broken || put_bare(bytes, &mut self.waiting, &mut self.output).is_err() {
            self.broken = true;
            self.failed_puts = next_count(self.failed_puts);
            return Err(Fault);
        }
        if !bytes.is_empty() {
            self.flushed = false;
        }
        Ok(())
    }

    fn flush(&mut self) -> Result<(), Fault> {
        if self.broken || put_waiting(self.waiting, &mut self.output).is_err() {
            self.broken = true;
        } else {
            self.waiting = None;
            if self.output.flush().is_ok() {
                self.flushed = true;
                return Ok(());
            }
        }
        self.failed_flushes = next_count(self.failed_flushes);
        Err(Fault)
    }
}
