// The lines that report what is wrong with texts.
ghost use Rattle.std.specs.Prelude.{◌≡◌, OnOk, OnErr};
ghost use Rattle.std.specs.Io.KnownBytes.{Appends};
ghost use Rattle.std.specs.List.{flat_map};
ghost use Rattle.nr_units.specs.Failures.{put_counted};
ghost use Rattle.nr_units.specs.Sink.{AppendsPrefix};
ghost use Rattle.filters.specs.Endings.{Tells};
ghost use Rattle.filters_complaints.specs.Lines as specs;

use crate::complaints::{Complains, Complaints};
use filters::put_all;
use itoa::Buffer;
use nr_units::sink::Sink;
use nr_units::source::Fault;

/// Writes how each line begins that is about a line of the text of this name.
fn put_place<E: Sink>(program: &str, name: &str, line: &str, errors: &mut E) -> Result<(), Fault>
    ensures ok { OnOk result (Appends (E.held errors.old) (E.held errors.new)
        (specs.place_text program.now name.now line.now)) }
    ensures err { OnErr result (AppendsPrefix (E.held errors.old) (E.held errors.new)
        (specs.place_text program.now name.now line.now)) }
    ensures failures { E.failures errors.new ≡ put_counted (E.failures errors.old) result }
{
    let parts = [
        program.as_bytes(),
        b": ",
        name.as_bytes(),
        b":",
        line.as_bytes(),
        b": ",
    ];
    put_all(&parts, errors)
}

/// Writes the line of a complaint of this program about the text of this name.
fn put_complaint<C: Complains, E: Sink>(
    program: &str,
    name: &str,
    complaint: &C,
    errors: &mut E,
) -> Result<(), Fault>
    ensures ok { OnOk result (Appends (E.held errors.old) (E.held errors.new)
        (specs.complaint_line C.at C.says program.now name.now complaint.now)) }
    ensures err { OnErr result (AppendsPrefix (E.held errors.old) (E.held errors.new)
        (specs.complaint_line C.at C.says program.now name.now complaint.now)) }
    ensures failures { E.failures errors.new ≡ put_counted (E.failures errors.old) result }
{
    let mut digits = Buffer::new();
    put_place(program, name, digits.format(complaint.line()), errors)?;
    complaint.put(errors)
}

/// Writes a line for each of the complaints, up to the first fault of a write.
fn put_complaints<C: Complains, E: Sink>(
    program: &str,
    name: &str,
    complaints: &[C],
    errors: &mut E,
) -> Result<(), Fault>
    ensures ok { OnOk result (Appends (E.held errors.old) (E.held errors.new)
        (flat_map (specs.complaint_line C.at C.says program.now name.now) complaints.now)) }
    ensures err { OnErr result (AppendsPrefix (E.held errors.old) (E.held errors.new)
        (flat_map (specs.complaint_line C.at C.says program.now name.now) complaints.now)) }
    ensures failures { E.failures errors.new ≡ put_counted (E.failures errors.old) result }
{
    for complaint in complaints {
        put_complaint(program, name, complaint, errors)?;
    }
    Ok(())
}

/// Writes that there was more to report, where there was.
fn put_more<E: Sink>(program: &str, name: &str, missed: bool, errors: &mut E) -> Result<(), Fault>
    ensures ok { OnOk result (Appends (E.held errors.old) (E.held errors.new)
        (specs.more_lines program.now name.now missed)) }
    ensures err { OnErr result (AppendsPrefix (E.held errors.old) (E.held errors.new)
        (specs.more_lines program.now name.now missed)) }
    ensures failures { E.failures errors.new ≡ put_counted (E.failures errors.old) result }
{
    if !missed {
        return Ok(());
    }
    let parts = [program.as_bytes(), b": ", name.as_bytes(), b": and more\n"];
    put_all(&parts, errors)
}

/// Writes what is reported of the text of this name, up to the first fault of a write.
fn put_lines<C: Complains + Copy, E: Sink>(
    program: &str,
    name: &str,
    complaints: &Complaints<'_, C>,
    errors: &mut E,
) -> Result<(), Fault>
    ensures ok { OnOk result (Appends (E.held errors.old) (E.held errors.new)
        (specs.lines_of C.at C.says program.now name.now complaints.now)) }
    ensures err { OnErr result (AppendsPrefix (E.held errors.old) (E.held errors.new)
        (specs.lines_of C.at C.says program.now name.now complaints.now)) }
    ensures failures { E.failures errors.new ≡ put_counted (E.failures errors.old) result }
{
    put_complaints(program, name, complaints.first(), errors)?;
    put_more(program, name, complaints.has_missed(), errors)
}

/// This program tells the complaints about the text of this name, as far as `errors` takes them.
///
/// Proved: Each complaint about a text is written, in one line with the text's name and the line of the fault, in their
/// order: all of them, or a prefix where a call failed.
pub fn tell_complaints<C: Complains + Copy, E: Sink>(
    program: &str,
    name: &str,
    complaints: &Complaints<'_, C>,
    errors: &mut E,
)
    ensures { Tells (E.held errors.old) (E.held errors.new) (E.failures errors.old) (E.failures errors.new)
        (specs.lines_of C.at C.says program.now name.now complaints.now) }
{
    let _ = put_lines(program, name, complaints, errors);
}
