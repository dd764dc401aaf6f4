//! Texts that are read before they are printed.
ghost use Rattle.std.specs.Prelude.{◌≡◌, ◌<◌, IfOk, Ok, OnOk, Some, false, length, true};
ghost use Rattle.nr_units.specs.Source.{Supply};
ghost use Rattle.document_stages.specs.Joined.{joined};
ghost use Rattle.document_stages.specs.Pulling.{Stays};
ghost use Rattle.program_command.specs.Warnings.{MayBeCut};

use nr_engine::Source;
use nr_units::source::Fault;
use std::alloc::{AllocError, Global};

/// A text of so many bytes is not read before, or of more.
const MOST: usize = 67_108_864;

/// What was read of a text, and then what is left of it.
#[derive(Drop)]
pub(crate) struct Ahead<S> {
    first: Vec<u8>,
    /// How many of these bytes were given.
    taken: usize,
    rest: S,
}

impl<S: Source> Ahead<S> {
    /// These bytes come first.
    pub(crate) fn over(first: Vec<u8>, rest: S) -> Self
        ensures { ⟦<Ahead<S> as Source>⟧.supply result ≡ joined first.items (S.supply rest) }
    {
        Ahead {
            first,
            taken: 0,
            rest,
        }
    }
}

impl<S: Source> Source for Ahead<S> {
    ghost use Rattle.std.specs.Prelude.{drop};
    ghost use Rattle.document_stages.specs.Joined.{joined, first_at_hand};

    ghost supply = { λ s. joined (drop s.taken s.first.items) (S.supply s.rest) };

    ghost at_hand = { λ s. first_at_hand (drop s.taken s.first.items) (S.at_hand s.rest) };

    ghost failures = { λ s. S.failures s.rest };

    fn next(&mut self) -> Result<Option<u8>, Fault> {
        if self.taken < self.first.len() {
            let byte = self.first[self.taken];
            self.taken += 1;
            return Ok(Some(byte));
        }
        self.rest.next()
    }

    fn window(&self) -> &[u8] {
        if self.taken < self.first.len() {
            &self.first[self.taken..]
        } else {
            self.rest.window()
        }
    }

    fn skip(&mut self, n: usize) {
        if self.taken < self.first.len() {
            self.taken += n;
        } else {
            self.rest.skip(n);
        }
    }
}

/// Takes some of the bytes that come next, so many at most, or none at the end and where the text fails. Tells whether some came.
fn take_some<S: Source>(text: &mut S, most: usize, bytes: &mut Vec<u8>) -> Result<bool, AllocError>
    requires { 0 < most }
    ensures came { OnOk result (Stays (joined bytes.old.items (S.supply text.old)) (joined bytes.new.items (S.supply text.new))) }
    ensures more { result ≡ Ok true → length bytes.old.items < length bytes.new.items }
{
    let window = text.window();
    let count = window.len().min(most);
    if count > 0 {
        bytes.extend_from_slice(&window[..count])?;
        text.skip(count);
        return Ok(true);
    }
    match text.next() {
        Ok(Some(byte)) => {
            bytes.push(byte)?;
            Ok(true)
        }
        _ => Ok(false),
    }
}

/// Reads on in a text until so many bytes of it came, or to its end.
///
/// Proved: The first bytes of a text, which were looked at, and the others after them are what it was to give. (`read_prefix`)
pub(crate) fn read_prefix<S: Source>(
    text: &mut S,
    most: usize,
    bytes: &mut Vec<u8>,
) -> Result<(), AllocError>
    ensures { OnOk result (Stays (joined bytes.old.items (S.supply text.old)) (joined bytes.new.items (S.supply text.new))) }
{
    while bytes.len() < most {
        if !take_some(text, most - bytes.len(), bytes)? {
            return Ok(());
        }
    }
    Ok(())
}

/// What was read of a text, and whether that is all of it.
#[derive(Drop)]
pub(crate) struct Read {
    pub bytes: Vec<u8>,
    pub whole: bool,
}

/// Reads a text to its end; of one that fails or is too long as much as came.
pub(crate) fn read_ahead<S: Source>(text: &mut S, alloc: Global) -> Result<Read, AllocError>
    ensures came { IfOk result (λ read. Stays (S.supply text.old) (joined read.bytes.items (S.supply text.new))) }
    ensures whole { IfOk result (λ read. read.whole ≡ true → (q : Supply) → S.supply text.old ≡ Some q → q.bytes ≡ read.bytes.items) }
    ensures cut { IfOk result (λ read. read.whole ≡ false → (q : Supply) → S.supply text.old ≡ Some q → MayBeCut q) }
{
    let mut bytes = Vec::new(alloc);
    while bytes.len() < MOST {
        match text.next() {
            Ok(Some(byte)) => bytes.push(byte)?,
            Ok(None) => return Ok(Read { bytes, whole: true }),
            Err(_) => {
                return Ok(Read {
                    bytes,
                    whole: false,
                });
            }
        }
    }
    Ok(Read {
        bytes,
        whole: false,
    })
}
