// The program over its words and its texts.
ghost use Rattle.std.specs.Prelude.{◌≡◌, true};
ghost use Rattle.filters.specs.Arguments.{texts};
ghost use Rattle.filters.specs.Disk.{MayCome};
ghost use Rattle.filters.specs.Program.{Comes, IsReportedWord, TurnsNames, is_unread};
ghost use Rattle.filters_own.specs.Looking.{ComesTo};
ghost use Rattle.tbl_setting.specs.Drawing.{signs_of};
ghost use Rattle.tbl_command.specs.Converting.{bounds_of, own, tbl, what_of, word_of};

use super::arguments::{Job, Wrong, read_words};
use super::rooms::Rooms;
use filters::{Disk, Ending, Filter, Paths, turn_names};
use filters_own::{Named, file_at, look_at};
use nr_units::sink::Sink;
use std::io::Read;
use utf8_characters::FixedTable;
use utf8_own_page::signs_of;

/// The program.
///
/// Proved: What tbl's words ask for comes about: its files are opened in order, and their tables are set, by the limits,
/// the length of the line and the table of characters that the words ask for; or its first bad word is reported, and no
/// file is opened. Where they name `own:FILE`, that file is opened before all others, and frames are drawn with what the table
/// of what it prints has. Status and line are those of how that ended.
pub struct Tbl;

impl Filter for Tbl {
    ghost use Rattle.std.specs.Prelude.{codes};
    ghost use Rattle.tbl_command.specs.Converting.{AsksFor};

    ghost called = { codes "tbl" };

    ghost asks = { λ program words job. AsksFor words job };

    fn name(&self) -> &'static str {
        "tbl"
    }

    fn run<'a, P: Paths, I: Read + Copy + Drop, W: Sink, E: Sink>(
        &self,
        words: &[&'a str],
        disk: &mut Disk<P, I>,
        output: W,
        errors: &mut E,
    ) -> (Ending<'a>, W) {
        let job = match read_words(words) {
            Ok(job) => job,
            Err(bad) => return (bad_word(bad.wrong, words[bad.place]), output),
        };
        let names = &words[job.files..];
        match job.characters {
            Some(Named::Own(place)) => {
                turn_own(file_at(words, place), job, names, disk, output, errors)
            }
            Some(Named::Fixed(table)) => {
                turn_fixed(Some(table), job, names, disk, output, errors)
            }
            None => turn_fixed(None, job, names, disk, output, errors),
        }
    }
}

/// Sets the tables of the texts of these names, with frames that are drawn with what a fixed table has, or in ASCII.
fn turn_fixed<'a, P: Paths, I: Read + Copy + Drop, W: Sink, E: Sink>(
    fixed: Option<FixedTable>,
    job: Job,
    names: &[&'a str],
    disk: &mut Disk<P, I>,
    output: W,
    errors: &mut E,
) -> (Ending<'a>, W)
    ensures turns { TurnsNames (MayCome (I.remaining disk.old.standard) (P.may_open disk.old.paths))
        (P.asked disk.old.paths) (P.asked disk.new.paths) (W.held output) (W.held result.1)
        (W.failures output) (W.failures result.1) (W.passed_on result.1) (tbl (bounds_of (signs_of fixed) job))
        (texts names.now) result.0 }
    ensures quiet { is_unread result.0 ≡ true → errors.new ≡ errors.old }
{
    let Ok(mut rooms) = Rooms::new(job, fixed, disk.alloc) else {
        return (Ending::OutOfMemory, output);
    };
    turn_names(&mut rooms, names, disk, output, errors)
}

/// Looks at a file, and sets the tables of the texts of these names, with frames that are drawn with the characters of its table.
fn turn_own<'a, P: Paths, I: Read + Copy + Drop, W: Sink, E: Sink>(
    file: &'a str,
    job: Job,
    names: &[&'a str],
    disk: &mut Disk<P, I>,
    output: W,
    errors: &mut E,
) -> (Ending<'a>, W)
    ensures comes { ComesTo (own job) file.now (texts names.now)
        (Comes (MayCome (I.remaining disk.old.standard) (P.may_open disk.old.paths))
        (P.asked disk.old.paths) (P.asked disk.new.paths) (W.held output) (W.held result.1)
        (W.failures output) (W.failures result.1) (W.passed_on result.1)) result.0 }
    ensures quiet { is_unread result.0 ≡ true → errors.new ≡ errors.old }
{
    let cells = match look_at(file, disk) {
        Ok(cells) => cells,
        Err(ending) => return (ending, output),
    };
    let signs = signs_of(&cells.table());
    let Ok(mut rooms) = Rooms::drawn_with(job, signs, disk.alloc) else {
        return (Ending::OutOfMemory, output);
    };
    turn_names(&mut rooms, names, disk, output, errors)
}

/// What is reported of a bad word.
fn bad_word(wrong: Wrong, word: &str) -> Ending<'_>
    ensures { IsReportedWord (what_of wrong) (word_of word.now wrong) result }
{
    match wrong {
        Wrong::Unknown => Ending::BadWord("unknown option ", word),
        Wrong::BadValue => Ending::BadWord("bad value in ", word),
        Wrong::UnknownTable => Ending::BadWord("unknown table ", word),
        Wrong::NoTable => Ending::BadWord("no table is named", ""),
    }
}
