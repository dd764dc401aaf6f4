//! Texts in the bytes of a page's own table are turned into UTF-8.
ghost use Rattle.std.specs.Prelude.{◌≡◌, true};
ghost use Rattle.filters.specs.Arguments.{texts};
ghost use Rattle.filters.specs.Disk.{MayCome};
ghost use Rattle.filters.specs.Program.{Comes, is_unread};
ghost use Rattle.filters_own.specs.Looking.{ComesTo};
ghost use Rattle.utf8_own_characters.specs.Table.{Good};
ghost use Rattle.utf8_command.specs.Converting.{own};

use super::program::ended;
use document_stages::run;
use filters::{BUFFER_SIZE, Disk, Ending, Paths, Turns, turn_names};
use filters_own::look_at;
use nr_units::buffered::Buffered;
use nr_units::sink::Sink;
use std::io::Read;
use utf8_own_characters::OwnTable;
use utf8_own_sink::Decoder;

/// Turns texts in the bytes of a table.
#[derive(Drop)]
struct OwnConverter<'a> {
    table: &'a OwnTable<'a>,
    escapes: bool,
    input: Vec<u8>,
    ghost good: { Good table.now },
}

impl Turns for OwnConverter<'_> {
    ghost use Rattle.utf8_command.specs.Converting.{own};

    ghost filter = { λ turner. own turner.escapes turner.table.now };

    fn turn<'a, T: Read + Drop, W: Sink, E: Sink>(
        &mut self,
        name: &'a str,
        text: T,
        output: W,
        _errors: &mut E,
    ) -> (Ending<'a>, W) {
        let mut source = Buffered::over(text, &mut self.input);
        let mut output = output;
        let mut decoder = Decoder::over(self.table, self.escapes);
        let mut pending = [0; BUFFER_SIZE];
        let outcome = run(&mut decoder, &mut source, &mut output, &mut pending);
        (ended(outcome, name), output)
    }
}

/// Looks at a file, and turns the texts of these names, which are in the bytes of the table of its characters.
pub(crate) fn turn_own<'a, P: Paths, I: Read + Copy + Drop, W: Sink, E: Sink>(
    file: &'a str,
    escapes: bool,
    names: &[&'a str],
    disk: &mut Disk<P, I>,
    output: W,
    errors: &mut E,
) -> (Ending<'a>, W)
    ensures comes { ComesTo (own escapes) file.now (texts names.now)
        (Comes (MayCome (I.remaining disk.old.standard) (P.may_open disk.old.paths))
        (P.asked disk.old.paths) (P.asked disk.new.paths) (W.held output) (W.held result.1)
        (W.failures output) (W.failures result.1) (W.passed_on result.1)) result.0 }
    ensures quiet { is_unread result.0 ≡ true → errors.new ≡ errors.old }
{
    let cells = match look_at(file, disk) {
        Ok(cells) => cells,
        Err(ending) => return (ending, output),
    };
    let Ok(input) = vec![in disk.alloc; 0u8; BUFFER_SIZE] else {
        return (Ending::OutOfMemory, output);
    };
    let table = cells.table();
    let mut turner = OwnConverter {
        table: &table,
        escapes,
        input,
    };
    turn_names(&mut turner, names, disk, output, errors)
}
