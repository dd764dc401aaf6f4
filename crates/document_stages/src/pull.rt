//! A stage over a source is itself a source: it gives what the stage makes, and takes bytes as they are asked for.
ghost use Rattle.std.specs.Prelude.{◌≡◌, ◌<◌, ◌≤◌, [], length, drop, nat_le, true, false, OnOk, OnErr, Ok, Err, None};
ghost use Rattle.nr_units.specs.Source.{Gives};
ghost use Rattle.document_stages.specs.Pulling as specs;

use super::counted::Lines;
use super::stage::Stage;
use super::step::{Step, make_step};
use nr_units::source::{Fault, Source, next_count};
use nr_vectors::slice_vec::SliceVec;

/// The number of bytes that are too many.
const TOO_MANY: u64 = 1_099_511_627_776;

/// How many bytes are taken at once at most.
const CHUNK: u64 = 1_024;

/// A stage over a source. Its calls fail where those of the source do; once the stage is full; once 2^40 bytes were
/// taken; and where the room is smaller than the stage wants.
#[derive(Drop)]
pub struct Pull<'a, R, T> {
    pub(crate) stage: T,
    pub(crate) input: R,
    pub(crate) out: SliceVec<'a, u8>,
    pub(crate) at: usize,
    pub(crate) taken: u64,
    pub(crate) ended: bool,
    pub(crate) failed: u64,
}

/// Steps are made until something waits or the end came. Tells whether the end came.
fn fill<R: Source, T: Stage>(
    stage: &mut T,
    input: &mut R,
    out: &mut SliceVec<'_, u8>,
    taken: &mut u64,
) -> Result<bool, Fault>
    requires room { T.wants stage.old ≤ out.old.capacity }
    ensures stays { specs.Stays (specs.pulled (R.supply input.old) true (T.says stage.old) (T.fits stage.old) []
        taken.old false) (specs.pulled (R.supply input.new) true (T.says stage.new) (T.fits stage.new)
        out.new.items taken.new (specs.has_ended result)) }
    ensures filled { specs.Filled result out.new.items (specs.pulled (R.supply input.old) true
        (T.says stage.old) (T.fits stage.old) [] taken.old false) }
    ensures wants { T.wants stage.new ≡ T.wants stage.old }
    ensures room { out.new.capacity ≡ out.old.capacity }
{
    let mut count = *taken;
    out.clear();
    while count < TOO_MANY {
        match make_step(stage, input, out, CHUNK.min(TOO_MANY - count)) {
            Ok(Step::Took(more)) => {
                count += more;
                if out.len() > 0 {
                    *taken = count;
                    return Ok(false);
                }
                if stage.is_full() {
                    *taken = count;
                    return Err(Fault);
                }
            }
            Ok(Step::End) => {
                *taken = count;
                return Ok(true);
            }
            Ok(Step::Full) => {
                *taken = count;
                if out.len() > 0 {
                    return Ok(false);
                }
                return Err(Fault);
            }
            Err(Fault) => {
                *taken = count;
                return Err(Fault);
            }
        }
    }
    *taken = count;
    Err(Fault)
}

impl<'a, R: Source, T: Stage> Pull<'a, R, T> {
    /// A stage that turned nothing yet, over a source. The room holds what it makes: what that held is of no account.
    ///
    /// Proved: A stage over a source gives what the stage makes of all bytes that come and of the end after them,
    /// however they come. Where the source fails after so many bytes it gives what the stage makes of these, but for
    /// what is half read, and then fails at each call; a source that never fails makes one that never fails. So
    /// stages stand on one another, and what is said of a source that never fails, or fails once, holds of the last
    /// of them. (`over` and `next` of `Pull`; `pulled` in its specs)
    pub fn over(stage: T, input: R, room: &'a mut [u8]) -> Self
        ensures supply { ⟦<Pull<'a, R, T> as Source>⟧.supply result ≡ specs.pulled (R.supply input)
            (nat_le (T.wants stage) (length room.entry.now)) (T.says stage) (T.fits stage) [] 0 false }
        ensures failures { ⟦<Pull<'a, R, T> as Source>⟧.failures result ≡ 0 }
    {
        Pull {
            stage,
            input,
            out: SliceVec::over(room),
            at: 0,
            taken: 0,
            ended: false,
            failed: 0,
        }
    }

    /// The stage.
    pub fn stage(&self) -> &T {
        &self.stage
    }

    /// Nothing waits: more is made.
    fn refill(&mut self) -> Result<(), Fault>
        requires none { drop self.old.at self.old.out.items ≡ [] }
        requires going { self.old.ended ≡ false }
        ensures stays { specs.Stays (⟦<Pull<'a, R, T> as Source>⟧.supply self.old)
            (⟦<Pull<'a, R, T> as Source>⟧.supply self.new) }
        ensures some { OnOk result (drop self.new.at self.new.out.items ≡ [] → self.new.ended ≡ true) }
        ensures fault { OnErr result (specs.MayBreak (⟦<Pull<'a, R, T> as Source>⟧.supply self.old)) }
        ensures failures { self.new.failed ≡ self.old.failed }
    {
        let room = self.out.capacity();
        let wants = self.stage.room();
        if room < wants {
            return Err(Fault);
        }
        self.at = 0;
        match fill(
            &mut self.stage,
            &mut self.input,
            &mut self.out,
            &mut self.taken,
        ) {
            Ok(ended) => {
                self.ended = ended;
                Ok(())
            }
            Err(fault) => Err(fault),
        }
    }

    /// The next byte that waits, or none at the end.
    fn give(&mut self) -> Option<u8>
        requires some { drop self.old.at self.old.out.items ≡ [] → self.old.ended ≡ true }
        ensures gives { specs.GivesNext (⟦<Pull<'a, R, T> as Source>⟧.supply self.old) result
            (⟦<Pull<'a, R, T> as Source>⟧.supply self.new) }
        ensures failures { self.new.failed ≡ self.old.failed }
    {
        if self.at >= self.out.len() {
            return None;
        }
        let byte = self.out.get(self.at);
        self.at += 1;
        Some(byte)
    }
}

impl<'a, R: Source + Lines, T: Stage> Lines for Pull<'a, R, T> {
    fn line(&self) -> u64 {
        self.input.line()
    }
}

impl<'a, R: Source, T: Stage> Source for Pull<'a, R, T> {
    ghost use Rattle.std.specs.Prelude.{drop, nat_le};
    ghost use Rattle.document_stages.specs.Pulling.{pulled};

    ghost supply = { λ s. pulled (R.supply s.input) (nat_le (T.wants s.stage) s.out.capacity) (T.says s.stage)
        (T.fits s.stage) (drop s.at s.out.items) s.taken s.ended };

    ghost at_hand = { λ s. drop s.at s.out.items };

    ghost failures = { λ s. s.failed };

    /// Proved: Where the source may fail at any call, has 2^40 bytes or the room is smaller than the stage wants, a
    /// call may fail at any time, and until it does what is given is the same. (`pulled`)
    fn next(&mut self) -> Result<Option<u8>, Fault> {
        if self.at < self.out.len() {
            return Ok(self.give());
        }
        if self.ended {
            return Ok(self.give());
        }
        match self.refill() {
            Ok(()) => Ok(self.give()),
            Err(Fault) => {
                self.failed = next_count(self.failed);
                Err(Fault)
            }
        }
    }

    fn window(&self) -> &[u8] {
        let bytes = self.out.as_slice();
        if self.at >= bytes.len() {
            return &[];
        }
        &bytes[self.at..]
    }

    fn skip(&mut self, n: usize) {
        if self.at < self.out.len() {
            self.at += n;
        }
    }
}
