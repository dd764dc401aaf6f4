// A program over its words, its texts and given streams.
ghost use Rattle.std.specs.Prelude.{◌≡◌, ◌≤◌, ℕ, List, true};
ghost use Rattle.filters.specs.Arguments.{texts};
ghost use Rattle.filters.specs.Disk.{MayCome};
ghost use Rattle.filters.specs.Program.{Ends, IsRun, Job, is_unread};

use super::arguments::borrowed;
use super::disk::Disk;
use super::endings::{Ending, tell};
use super::paths::{Paths, Tree};
use command_line::{SystemWords, words_of};
use nr_units::over_std::ToWriter;
use nr_units::sink::Sink;
use std::alloc::Global;
use std::io::{Read, Write};
use std::rt::{Env, Files};

/// A program that turns texts.
pub trait Filter {
    /// Its name.
    ghost called: { List ℕ };

    /// What the words after its name may ask for.
    ghost asks: { Self → List (List ℕ) → Job → Type 0 };

    /// Its name, with which the lines begin that it reports.
    fn name(&self) -> &'static str
        ensures { result.now ≡ called };

    /// Runs it over the words after its name. All texts are opened before the first is read, and nothing is opened
    /// where a word is bad. The output comes back.
    fn run<'a, P: Paths, I: Read + Copy + Drop, W: Sink, E: Sink>(
        &self,
        words: &[&'a str],
        disk: &mut Disk<P, I>,
        output: W,
        errors: &mut E,
    ) -> (Ending<'a>, W)
        ensures run { IsRun (asks self.now (texts words.now))
            (MayCome (I.remaining disk.old.standard) (P.may_open disk.old.paths))
            (P.asked disk.old.paths) (P.asked disk.new.paths) (W.held output) (W.held result.1)
            (W.failures output) (W.failures result.1) (W.passed_on result.1) result.0 }
        ensures quiet { is_unread result.0 ≡ true → errors.new ≡ errors.old };
}

/// Runs a program over the words after its name, reports how it ended, and gives its status. The output comes back.
///
/// Proved: A filter's program comes to the ending that its words ask for: the first bad word, and nothing is opened;
/// the first text that can't be opened, or want of memory, and nothing goes out; or what its texts come to. Its status
/// and its last line report that ending. (`run_words`, for whatever opens paths and tells which it was asked for)
pub fn run_words<F: Filter, P: Paths, I: Read + Copy + Drop, W: Sink, E: Sink>(
    program: &F,
    words: &[&str],
    disk: &mut Disk<P, I>,
    output: W,
    errors: &mut E,
) -> (u8, W)
    ensures ends { Ends (F.asks program.now (texts words.now))
        (MayCome (I.remaining disk.old.standard) (P.may_open disk.old.paths))
        (P.asked disk.old.paths) (P.asked disk.new.paths) (W.held output) (W.held result.1)
        (W.failures output) (W.failures result.1) (W.passed_on result.1) (E.held errors.old)
        (E.held errors.new) (E.failures errors.old) (E.failures errors.new) F.called result.0 }
    ensures status { result.0 ≤ 5 }
{
    let (ending, output) = program.run(words, disk, output, errors);
    (tell(program.name(), ending, errors), output)
}

/// Runs a program in a system, over its words, its files and these streams, and gives its status.
pub fn run_program<
    F: Filter,
    R: Env + Files,
    I: Read + Copy + Drop,
    W: Write + Drop,
    E: Write + Drop,
>(program: &F, system: &R, alloc: Global, standard: I, output: W, errors: E) -> u8
    ensures status { result ≤ 5 }
{
    let mut errors = ToWriter::over(errors);
    let Ok(owned) = words_of(&SystemWords::new(system, alloc), alloc) else {
        return tell(program.name(), Ending::OutOfMemory, &mut errors);
    };
    let Ok(words) = borrowed(&owned, alloc) else {
        return tell(program.name(), Ending::OutOfMemory, &mut errors);
    };
    let mut disk = Disk {
        paths: Tree::new(system),
        alloc,
        standard,
    };
    let output = ToWriter::over(output);
    let (status, _) = run_words(program, &words, &mut disk, output, &mut errors);
    status
}
