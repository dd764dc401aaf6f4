// The texts that a job reads, opened before any of them is read.
ghost use Rattle.std.specs.Prelude.{◌≡◌, ℕ, List, [], ◌∷◌, Option, map, length, IfOk, IfErr, OnOk, OnErr};
ghost use Rattle.std.specs.Io.KnownBytes.{Appends};
ghost use Rattle.nr_units.specs.Failures.{counted_if, put_counted};
ghost use Rattle.nr_units.specs.Sink.{AppendsPrefix};
ghost use Rattle.nr_command_options.specs.Inputs.{Reading, macro_path, readings, reading_of};
ghost use Rattle.nr_command_options.specs.Job.{asked_of};
ghost use Rattle.nr_command.specs.Memory.{list_of};
ghost use Rattle.nr_command.specs.Opening.{AreOpen, Asks, Opening, name_of, opening_of, unopened_text};
ghost use Rattle.nr_command.specs.Program.{IsRefused, lacks_memory};

use super::memory::Memory;
use nr_command_options::{Input, Job};
use nr_engine::{Fault, Sink, Source, WriteFault};
use std::alloc::AllocError;
use std::{fmt, io};
use thiserror::Error;

/// The bytes of the buffer of each text that is read.
pub const BUFFER_SIZE: usize = 8_192;

/// Where texts are opened, each over a buffer that is lent to it.
pub trait Opener<'b> {
    /// A text that is open.
    type Text: Source + Drop;

    /// What may come of opening a text.
    ghost may_come: { Self → Reading → Opening → Type 0 };

    /// The texts that it was asked to open, in that order, where they are known.
    ghost asked: { Self → Option (List Reading) };

    /// Opens a text. Nothing of it is read yet.
    fn open(&mut self, input: Input<'_>, buffer: &'b mut [u8]) -> io::Result<Self::Text>
        ensures comes { may_come self.old (reading_of input.entry) (opening_of Self.Text.supply result) }
        ensures stays { (reading : Reading) → (opening : Opening) → may_come self.new reading opening
            → may_come self.old reading opening }
        ensures asked { Asks (asked self.old) (asked self.new) (reading_of input.entry ∷ []) };
}

/// Why a job is not run.
#[derive(Clone, Copy, Debug, Error)]
pub enum NotRun<'a> {
    /// This text can't be opened. Those before it were, and none after it was asked for.
    #[error("cannot open {}", Name(.0))]
    CannotOpen(Input<'a>),
    /// There was not enough memory.
    #[error("out of memory")]
    OutOfMemory,
}

impl From<AllocError> for NotRun<'_> {
    ghost use Rattle.std.specs.Prelude.{◌≡◌};
    ghost use Rattle.nr_command.specs.declared.opening.NotRun.TheVariants.{OutOfMemory};

    ghost from_gives = { λ _ why. why ≡ OutOfMemory };

    fn from(_error: AllocError) -> Self {
        NotRun::OutOfMemory
    }
}

/// What a text is called, to be displayed.
#[derive(Clone, Copy)]
struct Name<'r, 'a>(&'r Input<'a>);

impl fmt::Display for Name<'_, '_> {
    fn fmt<W: fmt::Write>(&self, f: &mut fmt::Formatter<W>) -> fmt::Result {
        match self.0 {
            Input::Macros(file) => write!(f, "{file}"),
            Input::File(name) => write!(f, "{name}"),
            Input::Standard => write!(f, "-"),
        }
    }
}

/// How many texts a job reads.
pub fn text_count(job: &Job<'_>) -> usize
    ensures { result ≡ length (readings (asked_of job.now)) }
{
    let named = job.macros.len() + job.files.len();
    if job.reads_input { named + 1 } else { named }
}

/// Opens the texts that a job reads, each once, in the order in which they are read, up to the first that
/// can't be, each over the next 8 KiB of the buffers as far as there are so many.
///
/// Proved: Each text of a job is opened once, in reading order, and nothing else is. If one fails it is the one that
/// is reported, and none after it is tried. (`open_texts`, `run_words` in program.rt, for each opener that tells what
/// it was asked for)
pub fn open_texts<'a, 'b, O: Opener<'b>, M: Memory>(
    memory: &mut M,
    opener: &mut O,
    job: &Job<'a>,
    buffers: &'b mut [u8],
) -> Result<Vec<O::Text>, NotRun<'a>>
    ensures all { IfOk result (λ texts. AreOpen (O.may_come opener.old) (readings (asked_of job.now))
        (map O.Text.supply texts.items)) }
    ensures asked { OnOk result
        (Asks (O.asked opener.old) (O.asked opener.new) (readings (asked_of job.now))) }
    ensures refused { IfErr result (λ why. IsRefused (O.may_come opener.old) (O.asked opener.old)
        (O.asked opener.new) (readings (asked_of job.now)) why) }
    ensures listed { Asks (M.asked memory.old) (M.asked memory.new) (list_of job.now ∷ []) }
    ensures unopened { IfErr result (λ why. why ≡ NotRun.OutOfMemory
        → Asks (O.asked opener.old) (O.asked opener.new) []) }
    ensures memory { M.refusals memory.new ≡ counted_if (lacks_memory result) (M.refusals memory.old) }
{
    let mut texts = memory.room(text_count(job))?;
    let mut left = buffers;
    while let Some(input) = job.input(texts.len()) {
        let len = BUFFER_SIZE.min(left.len());
        let (buffer, rest) = left.split_at_mut(len);
        left = rest;
        match opener.open(input, buffer) {
            Ok(text) => texts.push(text).unwrap(),
            Err(_) => return Err(NotRun::CannotOpen(input)),
        }
    }
    Ok(texts)
}

/// Writes the one line that reports a text that can't be opened.
///
/// `WriteFault` where the sink failed; a prefix of the line went out then.
///
/// Proved: The line of a text that can't be opened, and that of want of memory, go out whole, or a prefix of each
/// where the sink failed. (`unopened_line`; `out_of_memory` in running.rt)
pub fn unopened_line<W: Sink>(input: &Input<'_>, errors: &mut W) -> Result<(), WriteFault>
    ensures ok { OnOk result
        (Appends (W.held errors.old) (W.held errors.new) (unopened_text (reading_of input.now))) }
    ensures err { OnErr result
        (AppendsPrefix (W.held errors.old) (W.held errors.new) (unopened_text (reading_of input.now))) }
    ensures failures { W.failures errors.new ≡ put_counted (W.failures errors.old) result }
{
    match put_unopened(input, errors) {
        Ok(()) => Ok(()),
        Err(Fault) => Err(WriteFault),
    }
}

/// The same, with the sink's own error.
fn put_unopened<W: Sink>(input: &Input<'_>, errors: &mut W) -> Result<(), Fault>
    ensures ok { OnOk result
        (Appends (W.held errors.old) (W.held errors.new) (unopened_text (reading_of input.now))) }
    ensures err { OnErr result
        (AppendsPrefix (W.held errors.old) (W.held errors.new) (unopened_text (reading_of input.now))) }
    ensures failures { W.failures errors.new ≡ put_counted (W.failures errors.old) result }
{
    errors.put(b"nroff: cannot open ")?;
    put_name(input, errors)?;
    errors.put(b"\n")
}

/// What a text is called.
fn put_name<W: Sink>(input: &Input<'_>, errors: &mut W) -> Result<(), Fault>
    ensures ok { OnOk result
        (Appends (W.held errors.old) (W.held errors.new) (name_of (reading_of input.now))) }
    ensures err { OnErr result
        (AppendsPrefix (W.held errors.old) (W.held errors.new) (name_of (reading_of input.now))) }
    ensures failures { W.failures errors.new ≡ put_counted (W.failures errors.old) result }
{
    match *input {
        Input::Macros(file) => put_path(file.folder.as_bytes(), file.name.as_bytes(), errors),
        Input::File(name) => errors.put(name.as_bytes()),
        Input::Standard => errors.put(b"-"),
    }
}

/// The path of a macro file.
fn put_path<W: Sink>(folder: &[u8], name: &[u8], errors: &mut W) -> Result<(), Fault>
    ensures ok { OnOk result
        (Appends (W.held errors.old) (W.held errors.new) (macro_path folder.now name.now)) }
    ensures err { OnErr result
        (AppendsPrefix (W.held errors.old) (W.held errors.new) (macro_path folder.now name.now)) }
    ensures failures { W.failures errors.new ≡ put_counted (W.failures errors.old) result }
{
    errors.put(folder)?;
    errors.put(b"/tmac.")?;
    errors.put(name)
}
