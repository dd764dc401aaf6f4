//! A source over another: lines that name texts are followed.
ghost use Rattle.std.specs.Prelude.{◌≡◌, ◌<◌, ◌≤◌, drop, length, Ok, None, Some, false, true};
ghost use Rattle.std.specs.List.{prefix_len};
ghost use Rattle.nr_units.specs.Source.{Gives};
ghost use Rattle.document_stages.specs.Pulling.{GivesNext, Stays};
ghost use Rattle.document_sources.specs.declared.following.Phase.TheVariants.{Ends as PhaseEnds, Gives as PhaseGives, Reads as PhaseReads};
ghost use Rattle.document_sources.specs.Joining.{coming, followed, is_line_byte};

use super::ahead::Ahead;
use super::folder::Folder;
use super::following::{Phase, Standing, follow, named};
use super::omissions::Omissions;
use nr_units::source::{Fault, Source, next_count};
use nr_vectors::slice_vec::SliceVec;
use std::alloc::Global;

/// How much is followed.
#[derive(Clone, Copy)]
pub struct Limits {
    /// So many lines.
    pub files: usize,
    /// So many bytes of the texts that they name, in all.
    pub bytes: usize,
}

/// The bytes of a source, and in the place of each line `.so NAME` the text of that name in a folder.
#[derive(Drop)]
pub struct Joining<'a, R, F> {
    input: R,
    folder: F,
    ahead: Ahead,
    line: SliceVec<'a, u8>,
    standing: Standing,
    omissions: Omissions<'a>,
    failed: u64,
}

/// Takes the next byte: of what comes first, and else of the source.
fn take_byte<R: Source>(
    ahead: &mut Ahead,
    input: &mut R,
    omissions: &mut Omissions<'_>,
) -> Result<Option<u8>, Fault>
    ensures { Gives (coming (drop ahead.old.taken ahead.old.text.items) (R.supply input.old)) result
        (coming (drop ahead.new.taken ahead.new.text.items) (R.supply input.new)) }
{
    if let Some(byte) = ahead.pop() {
        return Ok(Some(byte));
    }
    match input.next() {
        Ok(Some(byte)) => {
            omissions.count(byte);
            Ok(Some(byte))
        }
        Ok(None) => Ok(None),
        Err(fault) => Err(fault),
    }
}

/// How many of these bytes stand before the first newline, so many at most.
fn run_len(bytes: &[u8], most: usize) -> usize
    ensures plain { result ≤ prefix_len is_line_byte bytes.now }
    ensures within { result ≤ length bytes.now }
    ensures few { result ≤ most }
{
    let count = bytes.len().min(most);
    for at in 0..count {
        if bytes[at] == b'\n' {
            return at;
        }
    }
    count
}

impl<'a, R: Source, F: Folder> Joining<'a, R, F> {
    /// A source of which nothing was read yet. A line of fewer bytes than the room has may name a text.
    ///
    /// Proved: What is read are the bytes of a source, and in the place of each line `.so NAME` the text of that name,
    /// whose lines are followed too: so many lines and so many bytes, as the definition `joined` says, wherever the
    /// texts are known; a call may fail at any time, and until then what is given is the same.
    pub fn over(
        input: R,
        folder: F,
        limits: Limits,
        room: &'a mut [u8],
        omissions: Omissions<'a>,
        alloc: Global,
    ) -> Self
        ensures supply { ⟦<Joining<'a, R, F> as Source>⟧.supply result
            ≡ followed (F.texts folder) (R.supply input) (length room.entry.now) limits.files limits.bytes }
        ensures failures { ⟦<Joining<'a, R, F> as Source>⟧.failures result ≡ 0 }
    {
        Joining {
            input,
            folder,
            ahead: Ahead::new(alloc),
            line: SliceVec::over(room),
            standing: Standing {
                phase: Phase::Reads,
                at: 0,
                begins: true,
                files: limits.files,
                left: limits.bytes,
            },
            omissions,
            failed: 0,
        }
    }

    /// Reads bytes of the line that are at hand, but for a newline and for the last that it has room for.
    fn read_run(&mut self)
        requires { self.old.standing.phase ≡ PhaseReads }
        ensures stays { Stays (⟦<Joining<'a, R, F> as Source>⟧.supply self.old)
            (⟦<Joining<'a, R, F> as Source>⟧.supply self.new) }
        ensures phase { self.new.standing.phase ≡ PhaseReads }
        ensures failures { self.new.failed ≡ self.old.failed }
    {
        if !self.ahead.is_spent() {
            return;
        }
        let room = self.line.capacity() - self.line.len();
        let window = self.input.window();
        let count = run_len(window, room.saturating_sub(1));
        if count > 0 {
            self.line.extend(&window[..count]);
            self.omissions.count(b' ');
            self.input.skip(count);
        }
    }

    /// Reads the next byte of the line. Tells whether one came or the line ended.
    fn read(&mut self) -> Result<bool, Fault>
        requires { self.old.standing.phase ≡ PhaseReads }
        ensures stays { Stays (⟦<Joining<'a, R, F> as Source>⟧.supply self.old)
            (⟦<Joining<'a, R, F> as Source>⟧.supply self.new) }
        ensures end { result ≡ Ok false → GivesNext (⟦<Joining<'a, R, F> as Source>⟧.supply self.old) None
            (⟦<Joining<'a, R, F> as Source>⟧.supply self.new) }
        ensures failures { self.new.failed ≡ self.old.failed }
    {
        if self.line.is_full() {
            return Err(Fault);
        }
        match take_byte(&mut self.ahead, &mut self.input, &mut self.omissions)? {
            Some(byte) => {
                self.line.push(byte);
                let full = self.line.is_full();
                self.standing = self.standing.after_byte(byte == b'\n', full);
                Ok(true)
            }
            None => {
                if self.line.is_empty() {
                    return Ok(false);
                }
                self.standing = self.standing.ended();
                Ok(true)
            }
        }
    }

    /// The line has ended: what it names is followed, or it goes out.
    fn end_line(&mut self) -> Result<(), Fault>
        requires { self.old.standing.phase ≡ PhaseEnds }
        ensures stays { Stays (⟦<Joining<'a, R, F> as Source>⟧.supply self.old)
            (⟦<Joining<'a, R, F> as Source>⟧.supply self.new) }
        ensures failures { self.new.failed ≡ self.old.failed }
    {
        let Some(name) = named(self.standing.begins, self.line.as_slice()) else {
            self.standing = self.standing.going_out();
            return Ok(());
        };
        match follow(
            &mut self.folder,
            name,
            self.standing,
            &mut self.ahead,
            &mut self.omissions,
        ) {
            Ok(next) => {
                self.standing = next;
                self.line.clear();
                Ok(())
            }
            Err(_) => Err(Fault),
        }
    }

    /// All of the line went out: the next begins, or its rest.
    fn begin_line(&mut self)
        requires phase { self.old.standing.phase ≡ PhaseGives }
        requires given { length self.old.line.items ≤ self.old.standing.at }
        ensures stays { Stays (⟦<Joining<'a, R, F> as Source>⟧.supply self.old)
            (⟦<Joining<'a, R, F> as Source>⟧.supply self.new) }
        ensures failures { self.new.failed ≡ self.old.failed }
    {
        self.line.clear();
        self.standing = self.standing.line_begun(self.standing.begins);
    }

    /// A step where nothing goes out. Tells whether the end has not come.
    fn step(&mut self) -> Result<bool, Fault>
        requires { self.old.standing.phase ≡ PhaseGives → length self.old.line.items ≤ self.old.standing.at }
        ensures stays { Stays (⟦<Joining<'a, R, F> as Source>⟧.supply self.old)
            (⟦<Joining<'a, R, F> as Source>⟧.supply self.new) }
        ensures end { result ≡ Ok false → GivesNext (⟦<Joining<'a, R, F> as Source>⟧.supply self.old) None
            (⟦<Joining<'a, R, F> as Source>⟧.supply self.new) }
        ensures failures { self.new.failed ≡ self.old.failed }
    {
        match self.standing.phase {
            Phase::Reads => {
                self.read_run();
                self.read()
            }
            Phase::Ends => match self.end_line() {
                Ok(()) => Ok(true),
                Err(fault) => Err(fault),
            },
            Phase::Gives => {
                self.begin_line();
                Ok(true)
            }
        }
    }

    /// Whether a byte goes out.
    fn waits(&self) -> bool
        ensures waits { result ≡ true → self.now.standing.phase ≡ PhaseGives }
        ensures within { result ≡ true → self.now.standing.at < length self.now.line.items }
        ensures short { result ≡ true → self.now.standing.at < 18446744073709551615 }
        ensures given { result ≡ false → self.now.standing.phase ≡ PhaseGives → length self.now.line.items ≤ self.now.standing.at }
    {
        self.standing.phase == Phase::Gives && self.standing.at < self.line.len()
    }

    /// Steps are made until a byte goes out. Tells whether one does: else the end came.
    fn refill(&mut self) -> Result<bool, Fault>
        ensures stays { Stays (⟦<Joining<'a, R, F> as Source>⟧.supply self.old)
            (⟦<Joining<'a, R, F> as Source>⟧.supply self.new) }
        ensures waits { result ≡ Ok true → self.new.standing.phase ≡ PhaseGives }
        ensures within { result ≡ Ok true → self.new.standing.at < length self.new.line.items }
        ensures short { result ≡ Ok true → self.new.standing.at < 18446744073709551615 }
        ensures end { result ≡ Ok false → GivesNext (⟦<Joining<'a, R, F> as Source>⟧.supply self.old) None
            (⟦<Joining<'a, R, F> as Source>⟧.supply self.new) }
        ensures failures { self.new.failed ≡ self.old.failed }
    {
        for _ in 0..u64::MAX {
            if self.waits() {
                return Ok(true);
            }
            if !self.step()? {
                return Ok(false);
            }
        }
        Err(Fault)
    }

    /// Gives the byte that goes out.
    fn give(&mut self) -> u8
        requires phase { self.old.standing.phase ≡ PhaseGives }
        requires within { self.old.standing.at < length self.old.line.items }
        requires short { self.old.standing.at < 18446744073709551615 }
        ensures gives { GivesNext (⟦<Joining<'a, R, F> as Source>⟧.supply self.old) (Some result)
            (⟦<Joining<'a, R, F> as Source>⟧.supply self.new) }
        ensures failures { self.new.failed ≡ self.old.failed }
    {
        let byte = self.line.get(self.standing.at);
        self.standing.at += 1;
        byte
    }
}

impl<'a, R: Source, F: Folder> Source for Joining<'a, R, F> {
    ghost use Rattle.std.specs.Prelude.{drop};
    ghost use Rattle.document_sources.specs.Joining.{coming, joined_supply, line_at_hand};

    ghost supply = { λ s. joined_supply (F.texts s.folder)
        (coming (drop s.ahead.taken s.ahead.text.items) (R.supply s.input)) s.line.capacity s.standing s.line.items };

    ghost at_hand = { λ s. line_at_hand s.standing.phase s.standing.at s.line.items };

    ghost failures = { λ s. s.failed };

    fn next(&mut self) -> Result<Option<u8>, Fault> {
        match self.refill() {
            Ok(true) => Ok(Some(self.give())),
            Ok(false) => Ok(None),
            Err(Fault) => {
                self.failed = next_count(self.failed);
                Err(Fault)
            }
        }
    }

    fn window(&self) -> &[u8] {
        if !self.waits() {
            return &[];
        }
        let line = self.line.as_slice();
        &line[self.standing.at..]
    }

    fn skip(&mut self, n: usize) {
        let count = self.line.len();
        if self.standing.at < count {
            self.standing.at += n;
        }
    }
}
