//! Lines of a table, which are for tbl: they pass, but for the names of macros.
ghost use Rattle.std.specs.Prelude.{◌≡◌};
ghost use Rattle.mdoc_layout.specs.Seeing.{offered};
ghost use Rattle.mdoc_converter.specs.Rows as specs;

use super::lines::is_request;
use mdoc_layout::{Act, Macro, Page, Request, RowPart, Scan, Seen, is_control};
use mdoc_words::{ends_word, macro_of, turns};
use nr_units::Name;

/// Whether a line of this name passes in a table: a request, or one of tbl.
fn passes(name: &[u8]) -> bool
    ensures { result ≡ specs.passes name.now }
{
    is_request(name) || matches!(macro_of(name), Some(Macro::Table))
}

/// Whether it ends the table.
fn ends_table(name: &[u8]) -> bool
    ensures { result ≡ specs.ends_table name.now }
{
    matches!(macro_of(name), Some(Macro::TableEnds))
}

/// Where the next byte is read: in the rest of the line, or at the beginning of the next.
fn after_byte(rest: RowPart, byte: u8) -> Scan
    ensures { result ≡ specs.after_byte rest byte }
{
    if byte == b'\n' {
        Scan::Table(RowPart::Start)
    } else {
        Scan::Table(rest)
    }
}

/// A byte of a line of a table.
pub(crate) fn in_table(page: &mut Page, row: RowPart, byte: u8) -> Seen
    ensures { offered page.new result ≡ specs.in_table row byte page.old }
{
    match row {
        RowPart::Start => row_begins(page, byte),
        RowPart::Control => after_row_control(page, byte),
        RowPart::Escape => after_row_escape(page, byte),
        RowPart::Comment => turns(
            page,
            after_byte(RowPart::Comment, byte),
            Seen::taken(Act::Nothing),
        ),
        RowPart::Name => in_row_name(page, byte),
        RowPart::Words => row_words(page, byte),
        RowPart::Rest => row_passes(page, byte),
    }
}

/// A byte passes.
fn row_passes(page: &mut Page, byte: u8) -> Seen
    ensures { offered page.new result ≡ specs.row_passes byte page.old }
{
    turns(
        page,
        after_byte(RowPart::Rest, byte),
        Seen::taken(Act::Byte(byte)),
    )
}

/// At the beginning of a line.
fn row_begins(page: &mut Page, byte: u8) -> Seen
    ensures { offered page.new result ≡ specs.row_begins byte page.old }
{
    if is_control(byte) {
        return turns(
            page,
            Scan::Table(RowPart::Control),
            Seen::taken(Act::Nothing),
        );
    }
    row_passes(page, byte)
}

/// After the control character.
fn after_row_control(page: &mut Page, byte: u8) -> Seen
    ensures { offered page.new result ≡ specs.after_row_control byte page.old }
{
    match byte {
        b' ' | b'\t' => Seen::taken(Act::Nothing),
        b'\n' => turns(page, Scan::Table(RowPart::Start), Seen::taken(Act::Nothing)),
        b'\\' => turns(
            page,
            Scan::Table(RowPart::Escape),
            Seen::taken(Act::Nothing),
        ),
        _ => {
            page.word = Name::of(&[byte]);
            turns(page, Scan::Table(RowPart::Name), Seen::taken(Act::Nothing))
        }
    }
}

/// After the control character and a backslash: a comment, or a line that passes.
fn after_row_escape(page: &mut Page, byte: u8) -> Seen
    ensures { offered page.new result ≡ specs.after_row_escape byte page.old }
{
    if byte == b'"' || byte == b'#' {
        return turns(
            page,
            Scan::Table(RowPart::Comment),
            Seen::taken(Act::Nothing),
        );
    }
    page.word = Name::of(&[b'\\']);
    turns(page, Scan::Table(RowPart::Rest), Seen::left(Act::Control))
}

/// In the name of a control line.
fn in_row_name(page: &mut Page, byte: u8) -> Seen
    ensures { offered page.new result ≡ specs.in_row_name byte page.old }
{
    if ends_word(byte) || byte == b'\\' || page.word.is_full() {
        return named_row(page);
    }
    page.word.push(byte);
    Seen::taken(Act::Nothing)
}

/// The name of a control line is whole.
fn named_row(page: &mut Page) -> Seen
    ensures { offered page.new result ≡ specs.named_row page.old }
{
    if ends_table(page.word.as_bytes()) {
        return turns(
            page,
            Scan::Rest,
            Seen::two(Act::Request(Request::Distance), Act::Control),
        );
    }
    if passes(page.word.as_bytes()) {
        return turns(page, Scan::Table(RowPart::Rest), Seen::left(Act::Control));
    }
    turns(page, Scan::Table(RowPart::Words), Seen::left(Act::Nothing))
}

/// The words of a macro are text of the table.
fn row_words(page: &mut Page, byte: u8) -> Seen
    ensures { offered page.new result ≡ specs.row_words byte page.old }
{
    if byte == b' ' {
        return Seen::taken(Act::Nothing);
    }
    if byte == b'\n' {
        return turns(page, Scan::Table(RowPart::Start), Seen::taken(Act::Nothing));
    }
    if is_control(byte) {
        return turns(
            page,
            Scan::Table(RowPart::Rest),
            Seen::two(Act::Byte(b'\\'), Act::Byte(b'&')),
        );
    }
    turns(page, Scan::Table(RowPart::Rest), Seen::left(Act::Nothing))
}
