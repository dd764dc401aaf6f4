//! The bytes of a word are kept, between quotes or not.
ghost use Rattle.std.specs.Prelude.{◌≡◌, ◌≤◌};
ghost use Rattle.mdoc_layout.specs.Seeing.{offered};
ghost use Rattle.mdoc_words.specs.Keeping as specs;

use super::escaping::escape_then;
use super::options::{is_shown, reads_options};
use super::rules::is_synopsis;
use mdoc_layout::{Act, Escape, Inside, Macro, Page, Parameters, Scan, Seen};
use nr_units::Name;

/// So many bytes of a word are kept: an escape fits after them.
const MOST_KEPT: usize = 30;

/// What ends a word.
pub fn ends_word(byte: u8) -> bool
    ensures { result ≡ specs.ends_word byte }
{
    byte == b' ' || byte == b'\t' || byte == b'\n'
}

/// The line is read further so.
pub fn turns(page: &mut Page, scan: Scan, seen: Seen) -> Seen
    ensures { offered page.new result ≡ specs.turns scan seen page.old }
{
    page.scan = scan;
    seen
}

/// A word begins.
pub fn word_begins(page: &mut Page, scan: Scan, seen: Seen) -> Seen
    ensures { offered page.new result ≡ specs.word_begins scan seen page.old }
{
    page.word = Name::new();
    page.call.width = 0;
    turns(page, scan, seen)
}

/// The word is wider by one.
fn widens(page: &mut Page)
    ensures { page.new ≡ specs.widens page.old }
{
    if page.call.width < 9999 {
        page.call.width += 1;
    }
}

/// Whether the word is the first of a title.
fn is_titling(page: &Page) -> bool
    ensures { result ≡ specs.is_titling page.now }
{
    matches!(page.call.taker, Macro::Title) && !page.call.some
}

/// A byte that has no room in a word that isn't printed is counted; what was read of a title becomes a string.
#[tactic(auto, unfolding(crate::specs::Keeping::keep_unshown))]
fn keep_unshown(page: &mut Page, byte: u8) -> Seen
    ensures { offered page.new result ≡ specs.keep_unshown byte page.old }
{
    if is_titling(page) {
        page.title = page.word;
        page.word = Name::of(b"\\*(%T");
        page.word.push(byte);
        widens(page);
        return Seen::taken(Act::TitlePrefix);
    }
    widens(page);
    Seen::taken(Act::Nothing)
}

/// A byte of a word is kept, or what was kept goes out first.
fn keep(page: &mut Page, byte: u8, quoted: bool) -> Seen
    ensures { offered page.new result ≡ specs.keep byte quoted page.old }
{
    if page.word.len() < MOST_KEPT {
        page.word.push(byte);
        widens(page);
        return Seen::taken(Act::Nothing);
    }
    if is_shown(page) {
        return turns(page, Scan::Long(within(quoted)), Seen::left(Act::Nothing));
    }
    keep_unshown(page, byte)
}

/// Whether hyphens in the word stay as they are: it may be one that a table has, or a title.
fn is_looked_up(page: &Page) -> bool
    ensures { result ≡ specs.is_looked_up page.now }
{
    match page.call.taker {
        Macro::Part(letter) => is_title(letter),
        Macro::Standard | Macro::Describes | Macro::SectionName | Macro::Subsection => true,
        _ => reads_options(page),
    }
}

/// Whether a hyphen that comes is the second of a dash in a title.
fn is_dash(page: &Page) -> bool
    ensures { result ≡ specs.is_dash page.now }
{
    matches!(
        page.call.taker,
        Macro::Describes | Macro::SectionName | Macro::Subsection | Macro::Part(_)
    ) && ends_in_hyphen(page.word.as_bytes())
}

/// A byte of a word is kept: a hyphen that doesn't begin it as an escape, since no line is broken after that.
fn keep_byte(page: &mut Page, byte: u8, quoted: bool) -> Seen
    ensures { offered page.new result ≡ specs.keep_byte byte quoted page.old }
{
    if byte == b'-' && !page.word.is_empty() && (!is_looked_up(page) || is_dash(page)) {
        return keep_escape(page, byte, quoted);
    }
    keep(page, byte, quoted)
}

/// The words of parameters stay together.
fn is_whole(page: &Page) -> bool
    ensures { result ≡ specs.is_whole page.now }
{
    match page.call.taker {
        Macro::Parameter => !matches!(page.place.parameters, Parameters::Outside),
        Macro::Function => is_synopsis(page),
        _ => false,
    }
}

/// A blank is kept, which stays with what it stands between.
fn keep_blank(page: &mut Page) -> Seen
    ensures { offered page.new result ≡ specs.keep_blank page.old }
{
    if page.word.len() < MOST_KEPT {
        return keep_escape(page, b'~', true);
    }
    turns(page, Scan::Long(Inside::Quoted), Seen::left(Act::Nothing))
}

/// In a word.
pub fn in_word(page: &mut Page, byte: u8) -> Seen
    ensures { offered page.new result ≡ specs.in_word byte page.old }
{
    if ends_word(byte) {
        return turns(page, Scan::Given(false), Seen::left(Act::Nothing));
    }
    if byte == b'\\' {
        return turns(page, Scan::Escape, Seen::taken(Act::Nothing));
    }
    keep_byte(page, byte, false)
}

/// In a word between quotes.
pub fn in_quotes(page: &mut Page, byte: u8) -> Seen
    ensures { offered page.new result ≡ specs.in_quotes byte page.old }
{
    match byte {
        b'"' => turns(page, Scan::Closing, Seen::taken(Act::Nothing)),
        b'\n' => turns(page, Scan::Given(true), Seen::left(Act::Nothing)),
        b'\\' => turns(page, Scan::QuotedEscape, Seen::taken(Act::Nothing)),
        b' ' if is_whole(page) => keep_blank(page),
        _ => keep_byte(page, byte, true),
    }
}

/// A quote between quotes is kept, or what was kept goes out first.
fn keep_quote(page: &mut Page) -> Seen
    ensures { offered page.new result ≡ specs.keep_quote page.old }
{
    if page.word.len() >= MOST_KEPT && is_shown(page) {
        return turns(page, Scan::Long(Inside::Closing), Seen::left(Act::Nothing));
    }
    page.scan = Scan::Quoted;
    keep(page, b'"', true)
}

/// After a quote that may be the last of its word.
pub fn closing(page: &mut Page, byte: u8) -> Seen
    ensures { offered page.new result ≡ specs.closing byte page.old }
{
    if byte == b'"' {
        return keep_quote(page);
    }
    turns(page, Scan::Given(true), Seen::left(Act::Nothing))
}

/// A comment begins: what was read of a word is whole.
fn comment(page: &mut Page, quoted: bool) -> Seen
    ensures { offered page.new result ≡ specs.comment quoted page.old }
{
    page.call.comment = true;
    let none = page.word.is_empty() && !page.call.going;
    let scan = if none {
        Scan::Between
    } else {
        Scan::Given(quoted)
    };
    turns(page, scan, Seen::left(Act::Nothing))
}

/// An escape is kept, or what was kept goes out first.
fn keep_escape(page: &mut Page, byte: u8, quoted: bool) -> Seen
    ensures { offered page.new result ≡ specs.keep_escape byte quoted page.old }
{
    if page.word.len() < MOST_KEPT {
        page.word.push(b'\\');
        page.word.push(byte);
    } else if is_shown(page) {
        return turns(
            page,
            Scan::Long(within_escape(quoted)),
            Seen::left(Act::Nothing),
        );
    }
    if byte != b'&' {
        widens(page);
    }
    turns(page, in_word_of(quoted), Seen::taken(Act::Nothing))
}

/// A line goes on with the next: a word that was not begun may begin there.
fn continued(page: &mut Page, quoted: bool) -> Seen
    ensures { offered page.new result ≡ specs.continued quoted page.old }
{
    let none = !quoted && page.word.is_empty() && !page.call.going;
    let scan = if none {
        Scan::Between
    } else {
        in_word_of(quoted)
    };
    turns(page, scan, Seen::taken(Act::Nothing))
}

/// After a backslash in a word: a line that ends so goes on with the next.
pub fn in_escape(page: &mut Page, byte: u8, quoted: bool) -> Seen
    ensures { offered page.new result ≡ specs.in_escape byte quoted page.old }
{
    match byte {
        b'"' => comment(page, quoted),
        b'\n' => continued(page, quoted),
        _ => keep_begun(page, byte, quoted),
    }
}

/// An escape is kept, and its name or its argument may come.
fn keep_begun(page: &mut Page, byte: u8, quoted: bool) -> Seen
    ensures { offered page.new result ≡ specs.keep_begun byte quoted page.old }
{
    let seen = keep_escape(page, byte, quoted);
    if seen.takes {
        page.scan = in_named(escape_then(Escape::Begun, byte), quoted);
    }
    seen
}

/// A byte that ends an escape is offered as one of the word.
fn after_name(page: &mut Page, quoted: bool, byte: u8) -> Seen
    ensures { offered page.new result ≡ specs.after_name quoted byte page.old }
{
    page.scan = in_word_of(quoted);
    if quoted {
        in_quotes(page, byte)
    } else {
        in_word(page, byte)
    }
}

/// In the name or the argument of an escape: its bytes stay as they are.
pub fn in_name_of(page: &mut Page, escape: Escape, quoted: bool, byte: u8) -> Seen
    ensures { offered page.new result ≡ specs.in_name_of escape quoted byte page.old }
{
    if ends_escape(byte) {
        return after_name(page, quoted, byte);
    }
    if page.word.len() < MOST_KEPT {
        page.word.push(byte);
    } else if is_shown(page) {
        return turns(
            page,
            Scan::Long(Inside::Named(escape, quoted)),
            Seen::left(Act::Nothing),
        );
    }
    turns(
        page,
        in_named(escape_then(escape, byte), quoted),
        Seen::taken(Act::Nothing),
    )
}

/// What ends an escape of a word that has not ended: what ends the word, a quote and a backslash.
fn ends_escape(byte: u8) -> bool
    ensures { result ≡ specs.ends_escape byte }
{
    ends_word(byte) || byte == b'"' || byte == b'\\'
}

/// In what goes on of an escape of a word, or in the word.
fn in_named(escape: Option<Escape>, quoted: bool) -> Scan
    ensures { result ≡ specs.in_named escape quoted }
{
    match escape {
        Some(escape) => Scan::Named(escape, quoted),
        None => in_word_of(quoted),
    }
}

/// In a word between quotes, or not: a byte has no room there.
fn within(quoted: bool) -> Inside
    ensures { result ≡ specs.within quoted }
{
    if quoted { Inside::Quoted } else { Inside::Word }
}

/// After a backslash there.
fn within_escape(quoted: bool) -> Inside
    ensures { result ≡ specs.within_escape quoted }
{
    if quoted {
        Inside::QuotedEscape
    } else {
        Inside::Escape
    }
}

/// A part of a reference that may be broken after a hyphen.
fn is_title(letter: u8) -> bool
    ensures { result ≡ specs.is_title letter }
{
    matches!(letter, b'B' | b'N' | b'O' | b'R' | b'T')
}

/// Whether the last byte is a hyphen.
fn ends_in_hyphen(word: &[u8]) -> bool
    ensures { result ≡ specs.ends_in_hyphen word.now }
{
    let len = word.len();
    len > 0 && word[len - 1] == b'-'
}

/// In a word between quotes, or not.
fn in_word_of(quoted: bool) -> Scan
    ensures { result ≡ specs.in_word_of quoted }
{
    if quoted { Scan::Quoted } else { Scan::Word }
}
