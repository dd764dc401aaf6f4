//! What turns a text over a source is itself a source: it gives what it makes, and takes bytes as they are asked for.
ghost use Rattle.std.specs.Prelude.{◌≡◌, ◌<◌, ◌≤◌, [], length, drop, nat_le, true, false, OnOk, OnErr, Ok, Err, None};
ghost use Rattle.nr_units.specs.Source.{Gives};
ghost use Rattle.document_stages.specs.Pulling as pulling;
ghost use Rattle.tbl_stage.specs.Steps as specs;

use super::space::Space;
use super::turning::Turning;
use document_stages::Lines;
use nr_units::source::{Fault, Source, next_count};

/// The number of bytes that are too many.
const TOO_MANY: u64 = 1_099_511_627_776;

/// How many bytes are taken at once at most: few, so that the line that was read last is near the one that is asked for.
const CHUNK: usize = 1_024;

/// What one step came to.
#[derive(Clone, Copy)]
pub(crate) enum Step {
    /// So many bytes were taken.
    Took(u64),
    /// The end came.
    End,
    /// The end came, and what comes of it doesn't fit.
    Full,
}

/// What turns a text, over a source: as a stage over a source of document_stages, but for the space, which one turn may fill. Its
/// calls fail where those of the source do; once it is full; once 2^40 bytes were taken; and where the space is smaller than it wants.
#[derive(Drop)]
pub struct Turned<'a, R, T> {
    pub(crate) stage: T,
    pub(crate) input: R,
    pub(crate) out: &'a mut Space,
    pub(crate) at: usize,
    pub(crate) taken: u64,
    pub(crate) ended: bool,
    pub(crate) failed: u64,
}

/// How many of the bytes at hand are turned at once.
fn ready<R: Source>(input: &R, most: u64) -> usize
    ensures within { result ≤ length (R.at_hand input.now) }
    ensures few { result ≤ most }
{
    input.window().len().min(CHUNK).min(most as usize)
}

/// So many of the bytes at hand are turned, or the first of them.
fn take_window<R: Source, T: Turning>(
    stage: &mut T,
    input: &mut R,
    out: &mut Space,
    len: usize,
) -> usize
    requires empty { out.old.items ≡ [] }
    requires room { T.wants stage.old ≤ out.old.capacity }
    requires some { 0 < len }
    requires within { len ≤ length (R.at_hand input.old) }
    ensures took { pulling.Took (R.supply input.old) (R.supply input.new) (T.says stage.old) (T.says stage.new)
        (T.fits stage.old) (T.fits stage.new) out.new.items result }
    ensures some { 0 < result }
    ensures few { result ≤ len }
    ensures wants { T.wants stage.new ≡ T.wants stage.old }
    ensures room { out.new.capacity ≡ out.old.capacity }
{
    let window = input.window();
    let count = stage.turn(&window[..len], out);
    input.skip(count);
    count
}

/// The next byte is turned, or the end.
fn take_next<R: Source, T: Turning>(
    stage: &mut T,
    input: &mut R,
    out: &mut Space,
) -> Result<Step, Fault>
    requires empty { out.old.items ≡ [] }
    requires room { T.wants stage.old ≤ out.old.capacity }
    ensures steps { specs.Steps (R.supply input.old) (R.supply input.new) (T.says stage.old)
        (T.says stage.new) (T.fits stage.old) (T.fits stage.new) out.new.items 1 result }
    ensures wants { T.wants stage.new ≡ T.wants stage.old }
    ensures room { out.new.capacity ≡ out.old.capacity }
{
    match input.next() {
        Ok(Some(byte)) => {
            let count = stage.turn(&[byte], out);
            Ok(Step::Took(count as u64))
        }
        Ok(None) => {
            if stage.finish(out) {
                Ok(Step::End)
            } else {
                Ok(Step::Full)
            }
        }
        Err(fault) => Err(fault),
    }
}

/// Bytes at hand are turned, so many at most, or the next one, or the end.
fn make_step<R: Source, T: Turning>(
    stage: &mut T,
    input: &mut R,
    out: &mut Space,
    most: u64,
) -> Result<Step, Fault>
    requires empty { out.old.items ≡ [] }
    requires room { T.wants stage.old ≤ out.old.capacity }
    requires some { 0 < most }
    ensures steps { specs.Steps (R.supply input.old) (R.supply input.new) (T.says stage.old)
        (T.says stage.new) (T.fits stage.old) (T.fits stage.new) out.new.items most result }
    ensures wants { T.wants stage.new ≡ T.wants stage.old }
    ensures room { out.new.capacity ≡ out.old.capacity }
{
    let len = ready(input, most);
    if len == 0 {
        return take_next(stage, input, out);
    }
    let count = take_window(stage, input, out, len);
    Ok(Step::Took(count as u64))
}

/// Steps are made until something waits or the end came. Tells whether the end came.
fn fill<R: Source, T: Turning>(
    stage: &mut T,
    input: &mut R,
    out: &mut Space,
    taken: &mut u64,
) -> Result<bool, Fault>
    requires room { T.wants stage.old ≤ out.old.capacity }
    ensures stays { pulling.Stays (pulling.pulled (R.supply input.old) true (T.says stage.old) (T.fits stage.old) []
        taken.old false) (pulling.pulled (R.supply input.new) true (T.says stage.new) (T.fits stage.new)
        out.new.items taken.new (pulling.has_ended result)) }
    ensures filled { pulling.Filled result out.new.items (pulling.pulled (R.supply input.old) true
        (T.says stage.old) (T.fits stage.old) [] taken.old false) }
    ensures wants { T.wants stage.new ≡ T.wants stage.old }
    ensures room { out.new.capacity ≡ out.old.capacity }
{
    let mut count = *taken;
    out.clear();
    while count < TOO_MANY {
        match make_step(stage, input, out, TOO_MANY - count) {
            Ok(Step::Took(more)) => {
                count += more;
                if out.len() > 0 {
                    *taken = count;
                    return Ok(false);
                }
                if stage.is_full() {
                    *taken = count;
                    return Err(Fault);
                }
            }
            Ok(Step::End) => {
                *taken = count;
                return Ok(true);
            }
            Ok(Step::Full) => {
                *taken = count;
                if out.len() > 0 {
                    return Ok(false);
                }
                return Err(Fault);
            }
            Err(Fault) => {
                *taken = count;
                return Err(Fault);
            }
        }
    }
    *taken = count;
    Err(Fault)
}

impl<'a, R: Source, T: Turning> Turned<'a, R, T> {
    /// What turned nothing yet, over a source. The space holds what it makes: what that held is of no account.
    pub fn over(stage: T, input: R, out: &'a mut Space) -> Self
        ensures supply { ⟦<Turned<'a, R, T> as Source>⟧.supply result ≡ pulling.pulled (R.supply input)
            (nat_le (T.wants stage) out.entry.now.capacity) (T.says stage) (T.fits stage) [] 0 false }
        ensures failures { ⟦<Turned<'a, R, T> as Source>⟧.failures result ≡ 0 }
    {
        out.clear();
        Turned {
            stage,
            input,
            out,
            at: 0,
            taken: 0,
            ended: false,
            failed: 0,
        }
    }

    /// The stage.
    pub fn stage(&self) -> &T {
        &self.stage
    }

    /// Nothing waits: more is made.
    fn refill(&mut self) -> Result<(), Fault>
        requires none { drop self.old.at self.old.out.now.items ≡ [] }
        requires going { self.old.ended ≡ false }
        ensures stays { pulling.Stays (⟦<Turned<'a, R, T> as Source>⟧.supply self.old)
            (⟦<Turned<'a, R, T> as Source>⟧.supply self.new) }
        ensures some { OnOk result (drop self.new.at self.new.out.now.items ≡ [] → self.new.ended ≡ true) }
        ensures fault { OnErr result (pulling.MayBreak (⟦<Turned<'a, R, T> as Source>⟧.supply self.old)) }
        ensures failures { self.new.failed ≡ self.old.failed }
    {
        let room = self.out.capacity();
        let wants = self.stage.room();
        if room < wants {
            return Err(Fault);
        }
        self.at = 0;
        match fill(&mut self.stage, &mut self.input, self.out, &mut self.taken) {
            Ok(ended) => {
                self.ended = ended;
                Ok(())
            }
            Err(fault) => Err(fault),
        }
    }

    /// The next byte that waits, or none at the end.
    fn give(&mut self) -> Option<u8>
        requires some { drop self.old.at self.old.out.now.items ≡ [] → self.old.ended ≡ true }
        ensures gives { pulling.GivesNext (⟦<Turned<'a, R, T> as Source>⟧.supply self.old) result
            (⟦<Turned<'a, R, T> as Source>⟧.supply self.new) }
        ensures failures { self.new.failed ≡ self.old.failed }
    {
        if self.at >= self.out.len() {
            return None;
        }
        let byte = self.out.get(self.at);
        self.at += 1;
        Some(byte)
    }
}

impl<'a, R: Source + Lines, T: Turning> Lines for Turned<'a, R, T> {
    fn line(&self) -> u64 {
        self.input.line()
    }
}

impl<'a, R: Source, T: Turning> Source for Turned<'a, R, T> {
    ghost use Rattle.std.specs.Prelude.{drop, nat_le};
    ghost use Rattle.document_stages.specs.Pulling.{pulled};

    ghost supply = { λ s. pulled (R.supply s.input) (nat_le (T.wants s.stage) s.out.now.capacity) (T.says s.stage)
        (T.fits s.stage) (drop s.at s.out.now.items) s.taken s.ended };

    ghost at_hand = { λ s. drop s.at s.out.now.items };

    ghost failures = { λ s. s.failed };

    fn next(&mut self) -> Result<Option<u8>, Fault> {
        if self.at < self.out.len() {
            return Ok(self.give());
        }
        if self.ended {
            return Ok(self.give());
        }
        match self.refill() {
            Ok(()) => Ok(self.give()),
            Err(Fault) => {
                self.failed = next_count(self.failed);
                Err(Fault)
            }
        }
    }

    fn window(&self) -> &[u8] {
        let bytes = self.out.as_slice();
        if self.at >= bytes.len() {
            return &[];
        }
        &bytes[self.at..]
    }

    fn skip(&mut self, n: usize) {
        if self.at < self.out.len() {
            self.at += n;
        }
    }
}
