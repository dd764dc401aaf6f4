// Texts are turned, one after the other.
ghost use Rattle.std.specs.Prelude.{◌≡◌, ◌≢◌, ◌≤◌, IsTrue, length, map, true};
ghost use Rattle.nr_units.specs.Failures.{put_counted_if};
ghost use Rattle.filters.specs.Arguments.{texts};
ghost use Rattle.filters.specs.Disk.{MayCome, opened_of};
ghost use Rattle.filters.specs.Program.{TurnsNames, is_unread};
ghost use Rattle.filters.specs.Turning.{AllTurned, Filter, Ran, Turned, is_write_fault};
ghost use Rattle.filters.specs.declared.endings.Ending.{Ending};

use super::disk::{Disk, Text};
use super::endings::Ending;
use super::paths::Paths;
use nr_units::sink::Sink;
use std::alloc::{AllocError, Global};
use std::io::Read;

/// The bytes of a buffer. Each is written once before the first text is read.
pub const BUFFER_SIZE: usize = 8_192;

/// The buffers that texts are turned in.
#[derive(Drop)]
pub struct Buffers {
    /// What was read of a text and is not taken yet.
    pub input: Vec<u8>,
    /// What is to go out.
    pub pending: Vec<u8>,
    ghost wide: { 1536 ≤ length pending.items },
}

impl Buffers {
    /// Takes their memory.
    pub fn new(alloc: Global) -> Result<Buffers, AllocError> {
        Ok(Buffers {
            input: vec![in alloc; 0u8; BUFFER_SIZE]?,
            pending: vec![in alloc; 0u8; BUFFER_SIZE]?,
        })
    }
}

/// What turns texts, each by itself.
pub trait Turns {
    /// What it makes of them, as its definition has it.
    ghost filter: { Self → Filter };

    /// Turns the text of this name, and reports what is wrong with it. The output is not flushed, and comes back.
    fn turn<'a, T: Read + Drop, W: Sink, E: Sink>(
        &mut self,
        name: &'a str,
        text: T,
        output: W,
        errors: &mut E,
    ) -> (Ending<'a>, W)
        ensures turned { Turned (filter self.old) (record { name = name.now; left = T.remaining text })
            (W.held output) (W.held result.1) result.0 }
        ensures failures { W.failures result.1 ≡ put_counted_if (is_write_fault result.0) (W.failures output) }
        ensures same { filter self.new ≡ filter self.old };
}

/// Turns the texts of these names, or standard input where there is none: all are opened before the first is read. The
/// output is flushed, and comes back.
///
/// Proved: The texts of a filter are opened in order, and then turned in order, up to the first fault: what goes out is
/// what the filter's definition makes of each, one after the other. How that ended is what is answered: complained of
/// where one of them was, and else the fault of that text, by its name where the filter names texts.
/// Proved: Where no write fault is reported, all that was put out went on. Where a text can't be opened, or memory is
/// wanting, nothing goes out.
pub fn turn_names<'a, M: Turns, P: Paths, I: Read + Copy + Drop, W: Sink, E: Sink>(
    turner: &mut M,
    names: &[&'a str],
    disk: &mut Disk<P, I>,
    output: W,
    errors: &mut E,
) -> (Ending<'a>, W)
    ensures turns { TurnsNames (MayCome (I.remaining disk.old.standard) (P.may_open disk.old.paths))
        (P.asked disk.old.paths) (P.asked disk.new.paths) (W.held output) (W.held result.1)
        (W.failures output) (W.failures result.1) (W.passed_on result.1) (M.filter turner.old)
        (texts names.now) result.0 }
    ensures quiet { is_unread result.0 ≡ true → errors.new ≡ errors.old }
{
    match disk.open_all(names) {
        Ok(texts) => turn_all(turner, texts, output, errors),
        Err(ending) => (ending, output),
    }
}

/// Turns the texts, one after the other, up to the first fault, and flushes the output: then what was put out went
/// on.
fn turn_all<'a, M: Turns, F: Read + Drop, I: Read + Drop, W: Sink, E: Sink>(
    turner: &mut M,
    texts: Vec<Text<'a, F, I>>,
    output: W,
    errors: &mut E,
) -> (Ending<'a>, W)
    ensures ran { Ran (M.filter turner.old) (map (opened_of F.remaining I.remaining) texts.entry.items)
        (W.held output) (W.held result.1) (W.failures output) (W.failures result.1)
        (W.passed_on result.1) result.0 }
    ensures passed_on { result.0 ≢ Ending.WriteFault → IsTrue (W.passed_on result.1) }
{
    let (ending, mut output) = turn_each(turner, texts, output, errors);
    match output.flush() {
        Ok(()) => (ending, output),
        Err(_) => (Ending::WriteFault, output),
    }
}

/// Turns the texts, one after the other, up to the first fault.
fn turn_each<'a, M: Turns, F: Read + Drop, I: Read + Drop, W: Sink, E: Sink>(
    turner: &mut M,
    texts: Vec<Text<'a, F, I>>,
    output: W,
    errors: &mut E,
) -> (Ending<'a>, W)
    ensures turned { AllTurned (M.filter turner.old) (map (opened_of F.remaining I.remaining) texts.entry.items)
        (W.held output) (W.held result.1) result.0 }
    ensures failures { W.failures result.1 ≡ put_counted_if (is_write_fault result.0) (W.failures output) }
{
    let mut output = output;
    let mut complained = false;
    for text in texts {
        let Text { name, stream } = text;
        let (ending, back) = turner.turn(name, stream, output, errors);
        output = back;
        match ending {
            Ending::Done => {}
            Ending::Complained => complained = true,
            fault => return (fault, output),
        }
    }
    let ending = if complained {
        Ending::Complained
    } else {
        Ending::Done
    };
    (ending, output)
}
