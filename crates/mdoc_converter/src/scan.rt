//! A byte is offered to what is half read.
ghost use Rattle.std.specs.Prelude.{◌≡◌};
ghost use Rattle.mdoc_layout.specs.Seeing.{offered};
ghost use Rattle.mdoc_converter.specs.Scanning as specs;

use super::definitions::in_definition;
use super::lines::{call_of, ends, named_line};
use super::rows::in_table;
use mdoc_layout::{
    Act, Before, Dots, Escape, Last, Macro, Page, Parameters, Prefix, Request, Scan, Seen, Text,
};
use mdoc_words::{
    closing, ends_word, escape_then, given, goes_on, in_escape, in_name_of, in_quotes, in_word,
    long, tab, turns, word_begins,
};
use nr_units::Name;

/// So many lines are looked at for `.Dd`, besides those that are empty or comments.
const MOST_LINES: u8 = 64;

/// A letter: between two of them a line may be broken after a hyphen.
fn is_letter(byte: u8) -> bool
    ensures { result ≡ specs.is_letter byte }
{
    matches!(byte, b'A'..=b'Z' | b'a'..=b'z')
}

/// What a byte that belongs to no escape is for the one after it.
fn first_before(byte: u8) -> Before
    ensures { result ≡ specs.first_before byte }
{
    if is_letter(byte) {
        Before::Letter
    } else if byte == b'\\' {
        Before::Within(Escape::Begun)
    } else {
        Before::Other
    }
}

/// What a byte is for the one after it.
pub(crate) fn before_next(before: Before, byte: u8) -> Before
    ensures { result ≡ specs.before_next before byte }
{
    match before {
        Before::Within(escape) => match escape_then(escape, byte) {
            Some(more) => Before::Within(more),
            None => Before::Other,
        },
        _ => first_before(byte),
    }
}

/// One more byte of `.Dd`.
pub(crate) fn prefix_grows(prefix: Prefix, byte: u8) -> Option<Prefix>
    ensures { result ≡ specs.prefix_grows prefix byte }
{
    match prefix {
        Prefix::Nothing if byte == b'.' => Some(Prefix::Dot),
        Prefix::Dot if byte == b'D' => Some(Prefix::Half),
        Prefix::Half if byte == b'd' => Some(Prefix::Whole),
        _ => None,
    }
}

/// What a line begins with, after one more byte that passes.
fn prefix_then(prefix: Prefix, byte: u8) -> Prefix
    ensures { result ≡ specs.prefix_then prefix byte }
{
    match prefix {
        Prefix::Nothing if byte == b'\'' => Prefix::Control,
        Prefix::Control if byte == b'\\' => Prefix::Escape,
        Prefix::Escape if byte == b'"' || byte == b'#' => Prefix::Comment,
        Prefix::Comment => Prefix::Comment,
        _ => Prefix::Other,
    }
}

/// What a line begins with, where it goes on no `.Dd`.
pub(crate) fn given_up(prefix: Prefix) -> Prefix
    ensures { result ≡ specs.given_up prefix }
{
    match prefix {
        Prefix::Dot => Prefix::Control,
        Prefix::Half | Prefix::Whole => Prefix::Other,
        _ => prefix,
    }
}

/// Whether a line that begins so is empty, or a comment.
fn is_blank(prefix: Prefix) -> bool
    ensures { result ≡ specs.is_blank prefix }
{
    matches!(prefix, Prefix::Nothing | Prefix::Comment)
}

/// One dot more at the beginning of a line.
fn dots_then(dots: Dots, byte: u8) -> Dots
    ensures { result ≡ specs.dots_then dots byte }
{
    match dots {
        Dots::Start if byte == b'.' => Dots::One,
        Dots::One if byte == b'.' => Dots::Two,
        Dots::Two => Dots::Two,
        _ => Dots::Other,
    }
}

/// A line that passes has ended: it was the last, or not.
fn after_ignored(dots: Dots) -> Scan
    ensures { result ≡ specs.after_ignored dots }
{
    match dots {
        Dots::Two => Scan::Start,
        _ => Scan::Ignored(Dots::Start),
    }
}

/// At the beginning of a line.
fn at_start(page: &mut Page, byte: u8) -> Seen
    ensures { offered page.new result ≡ specs.at_start byte page.old }
{
    if byte == b'.' || byte == b'\'' {
        return turns(page, Scan::Control, Seen::taken(Act::Nothing));
    }
    if byte == b'\n' {
        return empty_line(page);
    }
    if page.block.has_rows() {
        return turns(page, Scan::Cell, Seen::left(Act::Row));
    }
    if (byte == b' ' || byte == b'\t') && !page.lay.literal {
        return Seen::taken(Act::Nothing);
    }
    text_begins(page, byte)
}

/// Text begins.
fn text_begins(page: &mut Page, byte: u8) -> Seen
    ensures { offered page.new result ≡ specs.text_begins byte page.old }
{
    page.place.last = Last::Heading;
    turns(
        page,
        Scan::Text(first_before(byte)),
        Seen::taken(Act::Begin(byte)),
    )
}

/// Where a cell of a row of text may begin.
fn in_cell(page: &mut Page, byte: u8) -> Seen
    ensures { offered page.new result ≡ specs.in_cell byte page.old }
{
    match byte {
        b'\n' => turns(page, Scan::Start, Seen::taken(Act::Ends)),
        b'\t' => Seen::taken(Act::Cell),
        b' ' => Seen::taken(Act::Nothing),
        _ => text_begins(page, byte),
    }
}

/// An empty line.
fn empty_line(page: &Page) -> Seen
    ensures { result ≡ specs.empty_line page.now }
{
    if page.lay.literal {
        return Seen::two(Act::Text(Text::Empty), Act::Ends).and_taken();
    }
    Seen::taken(Act::Space)
}

/// In a text line, after such a byte.
fn in_text(page: &mut Page, before: Before, byte: u8) -> Seen
    ensures { offered page.new result ≡ specs.in_text before byte page.old }
{
    if byte == b'\n' {
        return turns(page, Scan::Start, Seen::taken(Act::Ends));
    }
    if byte == b'-' {
        return hyphen_in_text(page, before);
    }
    if byte == b'\t' && page.block.has_rows() {
        return turns(page, Scan::Cell, Seen::taken(Act::Cell));
    }
    turns(
        page,
        Scan::Text(before_next(before, byte)),
        Seen::taken(Act::Byte(byte)),
    )
}

/// A hyphen in a text line: after a letter it is held back, since a line may be broken after it before another; in an escape it
/// stays.
fn hyphen_in_text(page: &mut Page, before: Before) -> Seen
    ensures { offered page.new result ≡ specs.hyphen_in_text before page.old }
{
    match before {
        Before::Letter => turns(page, Scan::Hyphen, Seen::taken(Act::Nothing)),
        Before::Within(_) => turns(
            page,
            Scan::Text(before_next(before, b'-')),
            Seen::taken(Act::Byte(b'-')),
        ),
        Before::Other => turns(page, Scan::Text(Before::Other), Seen::taken(Act::Hyphen)),
    }
}

/// After a hyphen that was held back.
fn after_hyphen(page: &mut Page, byte: u8) -> Seen
    ensures { offered page.new result ≡ specs.after_hyphen byte page.old }
{
    let act = if is_letter(byte) {
        Act::Byte(b'-')
    } else {
        Act::Hyphen
    };
    turns(page, Scan::Text(Before::Other), Seen::left(act))
}

/// After the control character.
fn after_control(page: &mut Page, byte: u8) -> Seen
    ensures { offered page.new result ≡ specs.after_control byte page.old }
{
    match byte {
        b' ' | b'\t' => Seen::taken(Act::Nothing),
        b'\n' => turns(page, Scan::Start, Seen::taken(Act::Nothing)),
        b'\\' => turns(page, Scan::ControlEscape, Seen::taken(Act::Nothing)),
        _ => name_begins(page, byte),
    }
}

/// A name begins.
fn name_begins(page: &mut Page, byte: u8) -> Seen
    ensures { offered page.new result ≡ specs.name_begins byte page.old }
{
    page.word = Name::of(&[byte]);
    turns(page, Scan::Name, Seen::taken(Act::Nothing))
}

/// After the control character and a backslash: a comment, or a line that passes.
fn after_escape(page: &mut Page, byte: u8) -> Seen
    ensures { offered page.new result ≡ specs.after_escape byte page.old }
{
    if byte == b'"' || byte == b'#' {
        return turns(page, Scan::Comment, Seen::taken(Act::Nothing));
    }
    page.word = Name::of(&[b'\\']);
    turns(page, Scan::Rest, Seen::left(Act::Control))
}

/// In a comment.
fn in_comment(page: &mut Page, byte: u8) -> Seen
    ensures { offered page.new result ≡ specs.in_comment byte page.old }
{
    let scan = if byte == b'\n' {
        Scan::Start
    } else {
        Scan::Comment
    };
    turns(page, scan, Seen::taken(Act::Nothing))
}

/// In the name of a control line.
fn in_name(page: &mut Page, byte: u8) -> Seen
    ensures { offered page.new result ≡ specs.in_name byte page.old }
{
    if ends_word(byte) || byte == b'\\' || page.word.is_full() {
        return named_line(page);
    }
    page.word.push(byte);
    Seen::taken(Act::Nothing)
}

/// Between words.
fn between(page: &mut Page, byte: u8) -> Seen
    ensures { offered page.new result ≡ specs.between byte page.old }
{
    if page.call.comment {
        return turns(page, Scan::Dropped, Seen::left(Act::Nothing));
    }
    match byte {
        b' ' => Seen::taken(Act::Nothing),
        b'\t' => tab(page),
        b'\n' => turns(page, Scan::Ends, Seen::left(Act::Nothing)),
        b'"' => word_begins(page, Scan::Quoted, Seen::taken(Act::Nothing)),
        _ => word_begins(page, Scan::Word, Seen::left(Act::Nothing)),
    }
}

/// The rest of the line passes.
fn in_rest(page: &mut Page, byte: u8) -> Seen
    ensures { offered page.new result ≡ specs.in_rest byte page.old }
{
    let scan = if byte == b'\n' {
        Scan::Start
    } else {
        Scan::Rest
    };
    turns(page, scan, Seen::taken(Act::Byte(byte)))
}

/// The rest of the line is dropped.
fn dropped(page: &mut Page, byte: u8) -> Seen
    ensures { offered page.new result ≡ specs.dropped byte page.old }
{
    if byte == b'\n' {
        return turns(page, Scan::Ends, Seen::left(Act::Nothing));
    }
    Seen::taken(Act::Nothing)
}

/// Lines pass, up to one that begins with two dots.
fn ignored(page: &mut Page, dots: Dots, byte: u8) -> Seen
    ensures { offered page.new result ≡ specs.ignored dots byte page.old }
{
    let scan = if byte == b'\n' {
        after_ignored(dots)
    } else {
        Scan::Ignored(dots_then(dots, byte))
    };
    turns(page, scan, Seen::taken(Act::Byte(byte)))
}

/// Before a page is known to be one of mdoc.
fn asleep(page: &mut Page, prefix: Prefix, lines: u8, byte: u8) -> Seen
    ensures { offered page.new result ≡ specs.asleep prefix lines byte page.old }
{
    if let Some(more) = prefix_grows(prefix, byte) {
        return turns(page, Scan::Asleep(more, lines), Seen::taken(Act::Nothing));
    }
    match prefix {
        Prefix::Whole if ends_word(byte) => wakes(page),
        Prefix::Dot | Prefix::Half | Prefix::Whole => turns(
            page,
            Scan::Asleep(given_up(prefix), lines),
            Seen::left(Act::Prefix(prefix)),
        ),
        _ => passes(page, prefix, lines, byte),
    }
}

/// The page is one of mdoc: the macro that ends tags is defined.
fn wakes(page: &mut Page) -> Seen
    ensures { offered page.new result ≡ specs.wakes page.old }
{
    page.call = call_of(Macro::Date);
    let defines = Seen::left(Act::Request(Request::TagMacro));
    turns(page, Scan::Between, defines)
}

/// A byte passes.
fn passes(page: &mut Page, prefix: Prefix, lines: u8, byte: u8) -> Seen
    ensures { offered page.new result ≡ specs.passes prefix lines byte page.old }
{
    turns(
        page,
        passes_to(prefix, lines, byte),
        Seen::taken(Act::Byte(byte)),
    )
}

/// What a byte does.
#[inline(always)]
#[tactic(auto, unfolding(crate::specs::Scanning::offer))]
pub(crate) fn offer(page: &mut Page, byte: u8) -> Seen
    ensures { offered page.new result ≡ specs.offer byte page.old }
{
    match page.scan {
        Scan::Asleep(prefix, lines) => asleep(page, prefix, lines, byte),
        Scan::Start => at_start(page, byte),
        Scan::Text(before) => in_text(page, before, byte),
        Scan::Hyphen => after_hyphen(page, byte),
        Scan::Cell => in_cell(page, byte),
        Scan::Control => after_control(page, byte),
        Scan::ControlEscape => after_escape(page, byte),
        Scan::Comment => in_comment(page, byte),
        Scan::Name => in_name(page, byte),
        Scan::Between => between(page, byte),
        Scan::Word => in_word(page, byte),
        Scan::Quoted => in_quotes(page, byte),
        Scan::Escape => in_escape(page, byte, false),
        Scan::QuotedEscape => in_escape(page, byte, true),
        Scan::Closing => closing(page, byte),
        Scan::Named(escape, quoted) => in_name_of(page, escape, quoted, byte),
        _ => offer_whole(page, byte),
    }
}

/// What it does where a word is whole, or a line ends or passes.
#[tactic(auto, unfolding(crate::specs::Scanning::offer_whole))]
fn offer_whole(page: &mut Page, byte: u8) -> Seen
    ensures { offered page.new result ≡ specs.offer_whole byte page.old }
{
    match page.scan {
        Scan::Given(quoted) => given(page, quoted),
        Scan::Long(inside) => long(page, inside),
        Scan::Goes(inside) => goes_on(page, inside),
        Scan::Rest => in_rest(page, byte),
        Scan::Passes => Seen::taken(Act::Byte(byte)),
        Scan::Dropped => dropped(page, byte),
        Scan::Defines => in_definition(page, byte),
        Scan::Ignored(dots) => ignored(page, dots, byte),
        Scan::Table(row) => in_table(page, row, byte),
        _ => ends(page),
    }
}

/// What comes after a byte that passes, in a line that begins so. So many came before.
pub(crate) fn passes_to(prefix: Prefix, lines: u8, byte: u8) -> Scan
    ensures { result ≡ specs.passes_to prefix lines byte }
{
    if byte != b'\n' {
        return Scan::Asleep(prefix_then(prefix, byte), lines);
    }
    if is_blank(prefix) {
        return Scan::Asleep(Prefix::Nothing, lines);
    }
    if lines < MOST_LINES - 1 {
        return Scan::Asleep(Prefix::Nothing, lines + 1);
    }
    Scan::Passes
}
