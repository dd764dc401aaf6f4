//! Texts are turned into the bytes of a page's own table.
ghost use Rattle.std.specs.Prelude.{◌≡◌, true};
ghost use Rattle.filters.specs.Arguments.{texts};
ghost use Rattle.filters.specs.Disk.{MayCome};
ghost use Rattle.filters.specs.Program.{Comes, is_unread};
ghost use Rattle.filters_own.specs.Looking.{ComesTo};
ghost use Rattle.utf8_own_characters.specs.Table.{Good};
ghost use Rattle.preconv_command.specs.Converting.{own};
ghost use Rattle.preconv_command.specs.Unshown.{AreReported, is_whole};

use super::lines::Lines;
use super::program::{complained, ended};
use super::through::Through;
use super::unshown::report_unshown;
use document_stages::run;
use filters::{BUFFER_SIZE, Disk, Ending, Paths, Turns, turn_names};
use filters_own::look_at;
use nr_units::buffered::Buffered;
use nr_units::sink::Sink;
use nr_vectors::slice_vec::SliceVec;
use preconv_coding::UnderCoding;
use preconv_converter::{PreconvConverter as Characters, Target};
use std::io::Read;
use utf8_own_characters::OwnTable;
use utf8_own_stage::Coder;

/// Room for what one turn makes in UTF-8: it goes on while 1536 bytes of it are left.
const MADE: usize = 2_048;

/// Room for what comes of that in the table, and of the end: at most 32 bytes for each byte.
const ROOM: usize = 65_568;

/// Turns texts into the bytes of a table.
#[derive(Drop)]
struct OwnConverter<'a> {
    table: &'a OwnTable<'a>,
    input: Vec<u8>,
    ghost good: { Good table.now },
}

impl Turns for OwnConverter<'_> {
    ghost use Rattle.preconv_command.specs.Converting.{own};

    ghost filter = { λ turner. own turner.table.now };

    /// Turns a text under its coding. What comes of it ends with a newline, if it is not empty.
    fn turn<'a, T: Read + Drop, W: Sink, E: Sink>(
        &mut self,
        name: &'a str,
        text: T,
        output: W,
        errors: &mut E,
    ) -> (Ending<'a>, W) {
        let mut source = UnderCoding::over(Buffered::over(text, &mut self.input));
        let mut lines = Lines {
            output,
            open: false,
        };
        let mut made = [0; MADE];
        let mut pending = [0; ROOM + BUFFER_SIZE];
        let mut stages = Through {
            first: Characters::new(Target::Utf8),
            second: Coder::over(self.table),
            made: SliceVec::over(&mut made),
            room: ROOM,
        };
        let outcome = run(&mut stages, &mut source, &mut lines, &mut pending);
        let ending = ended(outcome, name, &mut lines);
        let Lines { output, open: _ } = lines;
        match source.unknown() {
            Some(unknown) => (complained(name, unknown, ending, errors), output),
            None => (ending, output),
        }
    }
}

/// Looks at a file, and turns the texts of these names into the bytes of the table of its characters. Where all went out, those of them
/// are reported that the table has no room for.
///
/// Proved: Where all went out, the last line names the most frequent eight of the characters that were counted in the first 512 KiB of the
/// file whose table it is and have no room in it, and says how many more there are; there is no line where all have room. (`turn_own`;
/// `AreReported` in Unshown.antt)
pub(crate) fn turn_own<'a, P: Paths, I: Read + Copy + Drop, W: Sink, E: Sink>(
    file: &'a str,
    names: &[&'a str],
    disk: &mut Disk<P, I>,
    output: W,
    errors: &mut E,
) -> (Ending<'a>, W)
    ensures comes { ComesTo own file.now (texts names.now)
        (Comes (MayCome (I.remaining disk.old.standard) (P.may_open disk.old.paths))
        (P.asked disk.old.paths) (P.asked disk.new.paths) (W.held output) (W.held result.1)
        (W.failures output) (W.failures result.1) (W.passed_on result.1)) result.0 }
    ensures quiet { is_unread result.0 ≡ true → errors.new ≡ errors.old }
    ensures reported { is_whole result.0 ≡ true → AreReported (MayCome (I.remaining disk.old.standard) (P.may_open disk.old.paths))
        file.now (E.held errors.new) (E.failures errors.new) }
{
    let cells = match look_at(file, disk) {
        Ok(cells) => cells,
        Err(ending) => return (ending, output),
    };
    let Ok(unshown) = cells.left_out(disk.alloc) else {
        return (Ending::OutOfMemory, output);
    };
    let Ok(input) = vec![in disk.alloc; 0u8; BUFFER_SIZE] else {
        return (Ending::OutOfMemory, output);
    };
    let table = cells.table();
    let mut turner = OwnConverter {
        table: &table,
        input,
    };
    let (ending, output) = turn_names(&mut turner, names, disk, output, errors);
    report_unshown(ending, file, &unshown, errors);
    (ending, output)
}
