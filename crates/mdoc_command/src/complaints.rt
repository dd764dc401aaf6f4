// What the line of a complaint says.
ghost use Rattle.std.specs.Prelude.{◌≡◌, OnOk, OnErr};
ghost use Rattle.std.specs.Io.KnownBytes.{Appends};
ghost use Rattle.nr_units.specs.Failures.{put_counted};
ghost use Rattle.nr_units.specs.Sink.{AppendsPrefix};
ghost use Rattle.mdoc_command.specs.Complaints as specs;

use super::telling::{Complaint, Kind};
use filters::put_all;
use filters_complaints::{Complains, printable};
use nr_units::Name;
use nr_units::sink::Sink;
use nr_units::source::Fault;

/// What a line says is wrong: what, a name of the page, what stands between, and another name.
#[derive(Clone, Copy)]
struct Parts {
    what: &'static [u8],
    first: Name,
    between: &'static [u8],
    second: Name,
}

/// What is wrong, and the name of a macro.
fn about(what: &'static [u8], first: Name) -> Parts
    ensures { specs.parts_text result ≡ specs.about what.now first }
{
    Parts {
        what,
        first,
        between: b"",
        second: Name::new(),
    }
}

/// The name of a macro that is none; what was cut of it stands as dots.
fn unknown(first: Name, cut: bool) -> Parts
    ensures { specs.parts_text result ≡ specs.unknown first cut }
{
    let between = if cut {
        b"..".as_slice()
    } else {
        b"".as_slice()
    };
    Parts {
        what: b"unknown macro: ",
        first,
        between,
        second: Name::new(),
    }
}

/// What is wrong, and the names of two macros, of which the first breaks the block of the second.
fn breaks(what: &'static [u8], first: Name, second: Name) -> Parts
    ensures { specs.parts_text result ≡ specs.breaks what.now first second }
{
    Parts {
        what,
        first,
        between: b" breaks ",
        second,
    }
}

/// What is wrong, the name of a macro, and its word where that is kept.
fn about_word(what: &'static [u8], first: Name, second: Name) -> Parts
    ensures { specs.parts_text result ≡ specs.about_word what.now first second }
{
    if second.is_empty() {
        return about(what, first);
    }
    Parts {
        what,
        first,
        between: b" ",
        second,
    }
}

/// What a macro outside of its list is.
fn outside(name: Name) -> &'static [u8]
    ensures { result.now ≡ specs.outside_text name }
{
    if name.as_bytes() == b"It".as_slice() {
        b"item outside list: "
    } else {
        b"column outside column list: "
    }
}

/// What lacks its kind.
fn without_kind(name: Name) -> &'static [u8]
    ensures { result.now ≡ specs.without_kind_text name }
{
    if name.as_bytes() == b"Bl".as_slice() {
        b"missing list type: "
    } else {
        b"missing display type: "
    }
}

/// What a word is that its macro doesn't know.
fn unknown_word(name: Name) -> &'static [u8]
    ensures { result.now ≡ specs.unknown_word_text name }
{
    if name.as_bytes() == b"St".as_slice() {
        b"unknown standard specifier: "
    } else if name.as_bytes() == b"Lb".as_slice() {
        b"unknown library name: "
    } else {
        b"unknown AT&T UNIX version: "
    }
}

/// What comes after the first heading.
fn late(name: Name) -> &'static [u8]
    ensures { result.now ≡ specs.late_text name }
{
    if name.as_bytes() == b"Dt".as_slice() {
        b"late title macro: "
    } else {
        b"late prologue macro: "
    }
}

/// What is wrong.
fn parts_of(kind: Kind) -> Parts
    ensures { specs.parts_text result ≡ specs.kind_text kind }
{
    match kind {
        Kind::Unknown(name, cut) => unknown(name, cut),
        Kind::NotOpen(name) => about(b"end of block that is not open: ", name),
        Kind::TooMany(name) => about(b"more than 64 blocks open: ", name),
        Kind::Nested(by, block) => breaks(b"blocks badly nested: ", by, block),
        Kind::Broken(by, block) => breaks(b"missing end of block: ", by, block),
        Kind::NotEnded(name) => about(b"missing end of block: ", name),
        Kind::Outside(name) => about(outside(name), name),
        Kind::NoKind(name) => about(without_kind(name), name),
        Kind::BadWord(name, word) => about_word(unknown_word(name), name, word),
        Kind::NoSection(name, word) => about_word(b"missing section argument: ", name, word),
        Kind::Empty(name) => about(b"empty macro: ", name),
        Kind::Words(name) => about(b"arguments that are not taken: ", name),
        Kind::Late(name) => about(late(name), name),
        Kind::OpenQuote(name) => about(b"unterminated quoted argument: ", name),
        Kind::Again(name) => about(b"duplicate prologue macro: ", name),
        Kind::Excess(name, word) => about_word(b"excess arguments: ", name, word),
        Kind::NoName(name) => about(b"missing manual name: ", name),
        Kind::Nameless(name) => about(b"NAME section without Nm before ", name),
    }
}

/// Writes the rest of the line, with names as they are reported.
fn put_parts<E: Sink>(
    what: &[u8],
    first: Name,
    between: &[u8],
    second: Name,
    errors: &mut E,
) -> Result<(), Fault>
    ensures ok { OnOk result (Appends (E.held errors.old) (E.held errors.new)
        (specs.rest_text what.now first between.now second)) }
    ensures err { OnErr result (AppendsPrefix (E.held errors.old) (E.held errors.new)
        (specs.rest_text what.now first between.now second)) }
    ensures failures { E.failures errors.new ≡ put_counted (E.failures errors.old) result }
{
    let first = printable(first);
    let second = printable(second);
    let parts = [what, first.as_bytes(), between, second.as_bytes(), b"\n"];
    put_all(&parts, errors)
}

impl Complains for Complaint {
    ghost use Rattle.mdoc_command.specs.Complaints.{said_of};

    ghost at = { λ c. c.line };

    ghost says = { said_of };

    fn line(&self) -> u64 {
        self.line
    }

    fn put<E: Sink>(&self, errors: &mut E) -> Result<(), Fault> {
        let parts = parts_of(self.kind);
        put_parts(parts.what, parts.first, parts.between, parts.second, errors)
    }
}
