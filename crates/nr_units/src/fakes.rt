//! Sources and sinks in memory, which fail where they are told to, for tests.
ghost use Rattle.std.specs.Prelude.{◌≡◌, ◌==◌, ◌↔◌, ◌-◌, ◌≤◌, [], ◌++◌, length, take, OnOk, OnErr, IsOk, IfSome, false, true, not, is_ok};
ghost use Rattle.std.specs.Io.KnownBytes.{Appends, Keeps};
ghost use Rattle.nr_units.specs.Failures.{no_failures, put_counted, flush_counted};
ghost use Rattle.nr_units.specs.Sink.{AppendsPrefix, passed_on_with, passed_on_by};
ghost use Rattle.nr_units.specs.Source.{Never, After};

use super::sink::Sink;
use super::source::{Fault, Source, next_count};
use std::marker::Model;

/// Gives the bytes of a slice, and may fail once a number of them was given.
///
/// Proved: Sources and sinks in memory fail exactly where they are told to. (`Script`, `Slate`, `Shut`)
#[derive(Drop)]
pub struct Script<'a> {
    rest: &'a [u8],
    left: Option<usize>,
    failures: u64,
}

impl<'a> Script<'a> {
    /// Gives all of the bytes and then the end. No call fails.
    pub fn new(bytes: &'a [u8]) -> Self
        ensures supply { ⟦<Script<'a> as Source>⟧.supply result
            ≡ Some (record { bytes = bytes.now; faults = Never }) }
        ensures failures { ⟦<Script<'a> as Source>⟧.failures result ≡ 0 }
    {
        Script {
            rest: bytes,
            left: None,
            failures: 0,
        }
    }

    /// Each call fails once `count` bytes were given, and none before.
    pub fn failing_after(bytes: &'a [u8], count: usize) -> Self
        ensures supply { ⟦<Script<'a> as Source>⟧.supply result
            ≡ Some (record { bytes = bytes.now; faults = After count }) }
        ensures failures { ⟦<Script<'a> as Source>⟧.failures result ≡ 0 }
    {
        Script {
            rest: bytes,
            left: Some(count),
            failures: 0,
        }
    }

    /// The bytes that were not given yet.
    pub fn rest(&self) -> &'a [u8]
        ensures { IfSome (⟦<Script<'a> as Source>⟧.supply self.now) (λ supply. supply.bytes ≡ result.now) }
    {
        self.rest
    }

    /// How many calls answered an error, modulo 2^64.
    pub fn failed_calls(&self) -> u64
        ensures { result ≡ ⟦<Script<'a> as Source>⟧.failures self.now }
    {
        self.failures
    }
}

impl Source for Script<'_> {
    ghost use Rattle.std.specs.Prelude.{Some};
    ghost use Rattle.std.specs.Option.{option_map_or};
    ghost use Rattle.nr_units.specs.Source.{Supply, Never, After, at_hand_of};

    ghost supply = { λ s. Some (record { bytes = s.rest.now; faults = option_map_or After s.left Never }) };

    ghost at_hand = { λ s. at_hand_of s.rest.now s.left };

    ghost failures = { λ s. s.failures };

    fn next(&mut self) -> Result<Option<u8>, Fault> {
        if let Some(left) = self.left {
            if left == 0 {
                self.failures = next_count(self.failures);
                return Err(Fault);
            }
        }
        match self.rest.split_first() {
            None => Ok(None),
            Some((byte, rest)) => {
                self.rest = rest;
                if let Some(left) = self.left {
                    self.left = Some(left - 1);
                }
                Ok(Some(*byte))
            }
        }
    }

    fn window(&self) -> &[u8] {
        match self.left {
            None => self.rest,
            Some(left) => &self.rest[..left.min(self.rest.len())],
        }
    }

    fn skip(&mut self, n: usize) {
        self.rest = &self.rest[n..];
        if let Some(left) = self.left {
            self.left = Some(left - n);
        }
    }
}

/// Takes what fits into a slice, and fails at a call that brings more. It passes on what it took at a
/// flush, and not before.
#[derive(Drop)]
pub struct Slate<'a> {
    cells: &'a mut [u8],
    used: usize,
    passed: usize,
    flush_fails: bool,
    failed_puts: u64,
    failed_flushes: u64,
}

impl<'a> Model for Slate<'a> {
    ghost use Rattle.std.specs.Prelude.{◌-◌, ◌≤◌, length, take};
    ghost use Rattle.nr_units.specs.Sink.{Slate};

    ghost Value = { Slate };

    ghost view = { λ s. record {
      bytes = take s.used s.cells.now;
      passed = s.passed;
      room = length s.cells.now - s.used;
      flush_fails = s.flush_fails;
      failures = record { puts = s.failed_puts; flushes = s.failed_flushes };
    } };

    ghost invariant = { λ s. (s.passed ≤ s.used) × (s.used ≤ length s.cells.now) };
}

impl<'a> Slate<'a> {
    /// Holds nothing yet, and takes as many bytes as the slice is long.
    pub fn over(cells: &'a mut [u8]) -> Self
        ensures { result ≡ record {
          bytes = [];
          passed = 0;
          room = length cells.entry.now;
          flush_fails = false;
          failures = no_failures;
        } }
    {
        Slate {
            cells,
            used: 0,
            passed: 0,
            flush_fails: false,
            failed_puts: 0,
            failed_flushes: 0,
        }
    }

    /// The same, but each flush fails.
    pub fn failing_flush(cells: &'a mut [u8]) -> Self
        ensures { result ≡ record {
          bytes = [];
          passed = 0;
          room = length cells.entry.now;
          flush_fails = true;
          failures = no_failures;
        } }
    {
        Slate {
            cells,
            used: 0,
            passed: 0,
            flush_fails: true,
            failed_puts: 0,
            failed_flushes: 0,
        }
    }

    /// The bytes that it took.
    pub fn bytes(&self) -> &[u8]
        ensures { result.now ≡ self.now.bytes }
    {
        &self.cells[..self.used]
    }

    /// The bytes that it passed on.
    pub fn passed(&self) -> &[u8]
        ensures { result.now ≡ take self.now.passed self.now.bytes }
    {
        &self.cells[..self.passed]
    }

    /// How many calls of `put` answered an error, modulo 2^64.
    pub fn failed_puts(&self) -> u64
        ensures { result ≡ self.now.failures.puts }
    {
        self.failed_puts
    }

    /// How many calls of `flush` answered an error, modulo 2^64.
    pub fn failed_flushes(&self) -> u64
        ensures { result ≡ self.now.failures.flushes }
    {
        self.failed_flushes
    }
}

impl Sink for Slate<'_> {
    ghost use Rattle.std.specs.Prelude.{Some, ◌==◌, length};

    ghost held = { λ s. Some s.bytes };

    ghost passed_on = { λ s. s.passed == length s.bytes };

    ghost failures = { λ s. s.failures };

    /// Fails exactly where the bytes do not all fit, and then takes those that do.
    fn put(&mut self, bytes: &[u8]) -> Result<(), Fault>
        ensures ok { OnOk result (Appends (Some self.old.bytes) (Some self.new.bytes) bytes.now) }
        ensures err { OnErr result (AppendsPrefix (Some self.old.bytes) (Some self.new.bytes) bytes.now) }
        ensures passed_on { OnOk result ((self.new.passed == length self.new.bytes)
            ≡ passed_on_with (self.old.passed == length self.old.bytes) bytes.now) }
        ensures failures { self.new.failures ≡ put_counted self.old.failures result }
        ensures fits { IsOk result ↔ (length bytes.now ≤ self.old.room) }
        ensures bytes { self.new.bytes ≡ self.old.bytes ++ take self.old.room bytes.now }
        ensures kept { self.new ≡ record self.old {
          bytes = self.new.bytes;
          room = self.old.room - length bytes.now;
          failures = self.new.failures;
        } }
    {
        let room = self.cells.len() - self.used;
        if bytes.len() <= room {
            self.take(bytes);
            return Ok(());
        }
        self.take(&bytes[..room]);
        self.failed_puts = next_count(self.failed_puts);
        Err(Fault)
    }

    fn flush(&mut self) -> Result<(), Fault>
        ensures held { Keeps (Some self.old.bytes) (Some self.new.bytes) }
        ensures passed_on { (self.new.passed == length self.new.bytes)
            ≡ passed_on_by (self.old.passed == length self.old.bytes) result }
        ensures failures { self.new.failures ≡ flush_counted self.old.failures result }
        ensures fails { is_ok result ≡ not self.old.flush_fails }
        ensures kept { self.new ≡ record self.old { passed = self.new.passed; failures = self.new.failures } }
    {
        if self.flush_fails {
            self.failed_flushes = next_count(self.failed_flushes);
            return Err(Fault);
        }
        self.passed = self.used;
        Ok(())
    }
}

impl Slate<'_> {
    /// Takes bytes that fit.
    fn take(&mut self, bytes: &[u8])
        requires { length bytes.now ≤ self.old.room }
        ensures taken { self.new ≡ record self.old {
          bytes = self.old.bytes ++ bytes.now;
          room = self.old.room - length bytes.now;
        } }
        // What it passed on, it took before.
        ensures passed { self.old.passed ≤ length self.old.bytes }
    {
        let end = self.used + bytes.len();
        self.cells[self.used..end].copy_from_slice(bytes);
        self.used = end;
    }
}

/// Takes nothing: each call that brings a byte fails.
#[derive(Drop)]
pub struct Shut {
    failures: u64,
}

impl Shut {
    /// No call has failed yet.
    pub fn new() -> Self
        ensures held { ⟦<Shut as Sink>⟧.held result ≡ Some [] }
        ensures failures { ⟦<Shut as Sink>⟧.failures result ≡ no_failures }
    {
        Shut { failures: 0 }
    }

    /// How many calls answered an error, modulo 2^64.
    pub fn failed_puts(&self) -> u64
        ensures { result ≡ (⟦<Shut as Sink>⟧.failures self.now).puts }
    {
        self.failures
    }
}

impl Sink for Shut {
    ghost use Rattle.std.specs.Prelude.{Some, [], true};

    ghost held = { λ s. Some [] };

    ghost passed_on = { λ s. true };

    ghost failures = { λ s. record { puts = s.failures; flushes = 0 } };

    fn put(&mut self, bytes: &[u8]) -> Result<(), Fault>
        ensures ok { OnOk result (Appends (⟦<Shut as Sink>⟧.held self.old) (⟦<Shut as Sink>⟧.held self.new)
            bytes.now) }
        ensures err { OnErr result
            (AppendsPrefix (⟦<Shut as Sink>⟧.held self.old) (⟦<Shut as Sink>⟧.held self.new) bytes.now) }
        ensures passed_on { OnOk result (⟦<Shut as Sink>⟧.passed_on self.new
            ≡ passed_on_with (⟦<Shut as Sink>⟧.passed_on self.old) bytes.now) }
        ensures failures { ⟦<Shut as Sink>⟧.failures self.new
            ≡ put_counted (⟦<Shut as Sink>⟧.failures self.old) result }
        ensures empty { IsOk result ↔ (bytes.now ≡ []) }
    {
        if bytes.is_empty() {
            return Ok(());
        }
        self.failures = next_count(self.failures);
        Err(Fault)
    }

    fn flush(&mut self) -> Result<(), Fault>
        ensures held { Keeps (⟦<Shut as Sink>⟧.held self.old) (⟦<Shut as Sink>⟧.held self.new) }
        ensures passed_on { ⟦<Shut as Sink>⟧.passed_on self.new
            ≡ passed_on_by (⟦<Shut as Sink>⟧.passed_on self.old) result }
        ensures failures { ⟦<Shut as Sink>⟧.failures self.new
            ≡ flush_counted (⟦<Shut as Sink>⟧.failures self.old) result }
        ensures ok { IsOk result }
    {
        Ok(())
    }
}
