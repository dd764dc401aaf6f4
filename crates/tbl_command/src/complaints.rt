// The lines that report what is wrong with tables.
ghost use Rattle.std.specs.Prelude.{◌≡◌, ◌∷◌, [], OnOk, OnErr, codes, decimal};
ghost use Rattle.std.specs.Io.KnownBytes.{Appends};
ghost use Rattle.std.specs.List.{concat, flat_map};
ghost use Rattle.nr_units.specs.Failures.{put_counted};
ghost use Rattle.nr_units.specs.Sink.{AppendsPrefix};
ghost use Rattle.filters.specs.Endings.{Tells};
ghost use Rattle.tbl_command.specs.Complaints as specs;

use filters::put_all;
use itoa::Buffer;
use nr_units::Name;
use nr_units::sink::Sink;
use nr_units::source::Fault;
use tbl_setting::{Complaint, Kind, Report};

/// What is said of a table that is longer than what is held.
const UNEVEN: &[u8] = b": a table longer than -Lt went out in parts, whose columns may differ\n";

/// What a line says of its kind, before what it names.
fn words_of(kind: Kind) -> &'static [u8]
    ensures { result.now ≡ specs.words_of kind }
{
    match kind {
        Kind::NoFormat => b"table without a format".as_slice(),
        Kind::BadFormat(_) => b"bad format: ".as_slice(),
        Kind::UnknownOption(_) => b"unknown option: ".as_slice(),
        Kind::BadArgument(_) => b"not one character after ".as_slice(),
        Kind::TooManyFields => b"more fields than columns".as_slice(),
        Kind::OpenBlock(_) => b"text block without an end, from line ".as_slice(),
        Kind::OpenTable(_) => b"table without an end, from line ".as_slice(),
        Kind::TooManyColumns => b"more than 64 columns".as_slice(),
        Kind::FormatsLimit => b"table formats limit passed".as_slice(),
        Kind::RowLimit => b"table row limit passed".as_slice(),
        Kind::TooWide => b"table wider than the line".as_slice(),
        Kind::UnsetRequest(_) => b"not set in a text block: .".as_slice(),
    }
}

/// The digits of a number.
fn digits_of(number: u64) -> Name
    ensures { result ≡ decimal number }
{
    let mut digits = Buffer::new();
    Name::of(digits.format(number).as_bytes())
}

/// A byte that prints, or else its number.
fn byte_name(byte: u8) -> Name
    ensures { result ≡ specs.byte_text byte }
{
    match byte {
        b'!'..=b'~' => Name::of(&[byte]),
        _ => digits_of(u64::from(byte)),
    }
}

/// What a line names: a word, a byte, or a line.
fn named_by(kind: Kind) -> Name
    ensures { result ≡ specs.named_by kind }
{
    match kind {
        Kind::BadFormat(byte) => byte_name(byte),
        Kind::UnknownOption(word) | Kind::BadArgument(word) | Kind::UnsetRequest(word) => word,
        Kind::OpenBlock(line) | Kind::OpenTable(line) => digits_of(line),
        _ => Name::new(),
    }
}

/// Writes how each line begins that is about a line of the text of this name.
fn put_place<E: Sink>(program: &str, name: &str, line: &str, errors: &mut E) -> Result<(), Fault>
    ensures ok { OnOk result (Appends (E.held errors.old) (E.held errors.new)
        (specs.place_text program.now name.now line.now)) }
    ensures err { OnErr result (AppendsPrefix (E.held errors.old) (E.held errors.new)
        (specs.place_text program.now name.now line.now)) }
    ensures failures { E.failures errors.new ≡ put_counted (E.failures errors.old) result }
{
    let parts = [
        program.as_bytes(),
        b": ",
        name.as_bytes(),
        b":",
        line.as_bytes(),
        b": ",
    ];
    put_all(&parts, errors)
}

/// Writes the rest of the line.
fn put_rest<E: Sink>(words: &[u8], named: Name, errors: &mut E) -> Result<(), Fault>
    ensures ok { OnOk result (Appends (E.held errors.old) (E.held errors.new)
        (concat (words.now ∷ named ∷ codes "\n" ∷ []))) }
    ensures err { OnErr result (AppendsPrefix (E.held errors.old) (E.held errors.new)
        (concat (words.now ∷ named ∷ codes "\n" ∷ []))) }
    ensures failures { E.failures errors.new ≡ put_counted (E.failures errors.old) result }
{
    put_all(&[words, named.as_bytes(), b"\n"], errors)
}

/// Writes the line of a complaint of this program about the text of this name.
fn put_complaint<E: Sink>(
    program: &str,
    name: &str,
    complaint: Complaint,
    errors: &mut E,
) -> Result<(), Fault>
    ensures ok { OnOk result (Appends (E.held errors.old) (E.held errors.new)
        (specs.complaint_line program.now name.now complaint)) }
    ensures err { OnErr result (AppendsPrefix (E.held errors.old) (E.held errors.new)
        (specs.complaint_line program.now name.now complaint)) }
    ensures failures { E.failures errors.new ≡ put_counted (E.failures errors.old) result }
{
    let mut digits = Buffer::new();
    put_place(program, name, digits.format(complaint.line), errors)?;
    let named = named_by(complaint.kind);
    put_rest(words_of(complaint.kind), named, errors)
}

/// Writes a line for each of the complaints, up to the first fault of a write.
fn put_complaints<E: Sink>(
    program: &str,
    name: &str,
    complaints: &[Complaint],
    errors: &mut E,
) -> Result<(), Fault>
    ensures ok { OnOk result (Appends (E.held errors.old) (E.held errors.new)
        (flat_map (specs.complaint_line program.now name.now) complaints.now)) }
    ensures err { OnErr result (AppendsPrefix (E.held errors.old) (E.held errors.new)
        (flat_map (specs.complaint_line program.now name.now) complaints.now)) }
    ensures failures { E.failures errors.new ≡ put_counted (E.failures errors.old) result }
{
    for complaint in complaints {
        put_complaint(program, name, *complaint, errors)?;
    }
    Ok(())
}

/// Writes a line about the whole text, if it is reported.
fn put_if<E: Sink>(
    said: bool,
    program: &str,
    name: &str,
    what: &[u8],
    errors: &mut E,
) -> Result<(), Fault>
    ensures ok { OnOk result (Appends (E.held errors.old) (E.held errors.new)
        (specs.line_if said program.now name.now what.now)) }
    ensures err { OnErr result (AppendsPrefix (E.held errors.old) (E.held errors.new)
        (specs.line_if said program.now name.now what.now)) }
    ensures failures { E.failures errors.new ≡ put_counted (E.failures errors.old) result }
{
    if said {
        put_all(&[program.as_bytes(), b": ", name.as_bytes(), what], errors)
    } else {
        Ok(())
    }
}

/// Writes what a report tells beside the complaints, up to the first fault of a write.
fn put_report<E: Sink>(
    program: &str,
    name: &str,
    report: Report,
    errors: &mut E,
) -> Result<(), Fault>
    ensures ok { OnOk result (Appends (E.held errors.old) (E.held errors.new)
        (specs.report_lines program.now name.now report.missed report.uneven)) }
    ensures err { OnErr result (AppendsPrefix (E.held errors.old) (E.held errors.new)
        (specs.report_lines program.now name.now report.missed report.uneven)) }
    ensures failures { E.failures errors.new ≡ put_counted (E.failures errors.old) result }
{
    put_if(report.missed, program, name, b": and more\n", errors)?;
    put_if(report.uneven, program, name, UNEVEN, errors)
}

/// Writes all that is reported of the tables of the text of this name, up to the first fault of a write.
fn put_reported<E: Sink>(
    program: &str,
    name: &str,
    report: Report,
    complaints: &[Complaint],
    errors: &mut E,
) -> Result<(), Fault>
    ensures ok { OnOk result (Appends (E.held errors.old) (E.held errors.new)
        (specs.lines_of program.now name.now complaints.now report.missed report.uneven)) }
    ensures err { OnErr result (AppendsPrefix (E.held errors.old) (E.held errors.new)
        (specs.lines_of program.now name.now complaints.now report.missed report.uneven)) }
    ensures failures { E.failures errors.new ≡ put_counted (E.failures errors.old) result }
{
    put_complaints(program, name, complaints, errors)?;
    put_report(program, name, report, errors)
}

/// This program tells the complaints about the tables of the text of this name, as far as `errors` takes it, and whether
/// something is wrong with them: that one is wider than the line is not, nor that one went out in parts.
///
/// Proved: Each complaint about the tables of a text is written, in one line with the text's name and the line of the
/// fault, in their order: all of them, or a prefix where a call failed.
pub fn tell_complaints<E: Sink>(
    program: &str,
    name: &str,
    report: Report,
    complaints: &[Complaint],
    errors: &mut E,
) -> bool
    ensures { Tells (E.held errors.old) (E.held errors.new) (E.failures errors.old) (E.failures errors.new)
        (specs.lines_of program.now name.now complaints.now report.missed report.uneven) }
{
    let _ = put_reported(program, name, report, complaints, errors);
    report.missed
        || complaints
            .iter()
            .any(|complaint| !matches!(complaint.kind, Kind::TooWide))
}
