// The program over its words and its texts.
use super::rooms::Rooms;
use filters::{Disk, Ending, Filter, Paths, is_option, turn_names};
use nr_units::sink::Sink;
use std::io::Read;

/// The program.
///
/// Proved: What mdoc's words ask for comes about: its files are opened in order and turned into man(7), or the first
/// word, an option, is reported, and no file is opened. Status and line are those of how that ended.
pub struct Mdoc;

impl Filter for Mdoc {
    ghost use Rattle.std.specs.Prelude.{◌≡◌, codes};
    ghost use Rattle.mdoc_command.specs.Converting.{job_of};

    ghost called = { codes "mdoc" };

    ghost asks = { λ program words job. job ≡ job_of words };

    fn name(&self) -> &'static str {
        "mdoc"
    }

    fn run<'a, P: Paths, I: Read + Copy + Drop, W: Sink, E: Sink>(
        &self,
        words: &[&'a str],
        disk: &mut Disk<P, I>,
        output: W,
        errors: &mut E,
    ) -> (Ending<'a>, W) {
        if !words.is_empty() && is_option(words[0]) {
            return (Ending::BadWord("unknown option ", words[0]), output);
        }
        let Ok(mut rooms) = Rooms::new(disk.alloc) else {
            return (Ending::OutOfMemory, output);
        };
        turn_names(&mut rooms, words, disk, output, errors)
    }
}
