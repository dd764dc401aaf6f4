//! Runs of bytes that only go on a line, which are taken at once.
ghost use Rattle.std.specs.Prelude.{◌≡◌, ◌+◌, ◌<◌, ◌≤◌, get_or, length, true, false};
ghost use Rattle.std.specs.List.{prefix_len};
ghost use Rattle.preconv_converter.specs.Runs as specs;

use nr_units::Name;
use preconv_characters::{Before, Class, Mark, Opens, Place, Words, mark_of};
use preconv_lines::{Escape, Half, Line};

/// Each byte that only goes on a text line or a request, at its place, and a hyphen at that of each other.
static TEXT: [u8; 256] =
    *b"-------------------------------- !-#$%&-(--+,-./0123456789:;<=>?@ABCDEFGHIJKLMNOPQRSTUVWXYZ[--^_`abcdefghijklmnopqrstuvwxyz{|}~---------------------------------------------------------------------------------------------------------------------------------";

/// Whether a byte only goes on a text line or a request, whatever stands before it: it prints, and is neither a hyphen, a
/// backslash nor what closes a sentence. One look at a table takes half the instructions of comparing with the ends of three ranges.
pub(crate) fn goes_on_text(byte: u8) -> bool
    ensures { result ≡ specs.goes_on_text byte }
{
    TEXT[usize::from(byte)] != b'-'
}

/// Whether a byte only goes on a word of a font macro's line.
fn goes_on_word(words: Words, byte: u8) -> bool
    ensures { result ≡ specs.goes_on_word words byte }
{
    goes_on_text(byte) && words.goes_on_with(Class::of(byte))
}

/// Whether a word begins with a byte that goes out as it is: up to the eighth.
pub(crate) fn begins_word_with(words: Words, byte: u8) -> bool
    ensures value { result ≡ specs.begins_word_with words byte }
    ensures few { result ≡ true → words.count < 8 }
{
    goes_on_text(byte)
        && byte != b' '
        && byte != b'"'
        && matches!(words.place, Place::Between)
        && words.count < 8
}

/// What closes a sentence after a stop.
fn may_close(byte: u8) -> bool
    ensures { result ≡ specs.may_close byte }
{
    matches!(byte, b'"' | b'\'' | b')' | b'*' | b']')
}

/// Whether a byte only goes on a text line or a request after this one: what may close a sentence does where none has ended.
fn goes_on_after(before: u8, byte: u8) -> bool
    ensures { result ≡ specs.goes_on_after before byte }
{
    goes_on_text(byte) || (may_close(byte) && !matches!(before, b'.' | b'?' | b'!'))
}

/// How many of these bytes come first that go on so whatever stands before them.
fn plain_run(bytes: &[u8]) -> usize
    ensures len { result ≡ prefix_len specs.goes_on_text bytes.now }
    ensures within { result ≤ length bytes.now }
{
    bytes.iter().take_while(|byte| goes_on_text(**byte)).count()
}

/// Whether there is a byte at this place that goes on so after the one before it; before the first a stop may stand.
#[inline(always)]
fn goes_on_at(bytes: &[u8], place: usize) -> bool
    ensures goes { result ≡ true → (place < length bytes.now) × (specs.goes_on_after
        (specs.byte_before bytes.now place) (get_or bytes.now place 0) ≡ true) }
    ensures ends { result ≡ false → place < length bytes.now → specs.goes_on_after
        (specs.byte_before bytes.now place) (get_or bytes.now place 0) ≡ false }
{
    if place >= bytes.len() {
        return false;
    }
    let before = if place == 0 { b'.' } else { bytes[place - 1] };
    goes_on_after(before, bytes[place])
}

/// How many of these bytes come first that only go on a text line or a request.
fn text_run(bytes: &[u8]) -> usize
    ensures len { result ≡ specs.text_run bytes.now }
    ensures within { result ≤ length bytes.now }
{
    let mut run = plain_run(bytes);
    while goes_on_at(bytes, run) {
        let more = plain_run(&bytes[run + 1..]);
        run += 1 + more;
    }
    run
}

/// How many of these bytes come first that only go on a word.
fn word_run(words: Words, bytes: &[u8]) -> usize
    ensures len { result ≡ prefix_len (specs.goes_on_word words) bytes.now }
    ensures within { result ≤ length bytes.now }
{
    bytes
        .iter()
        .take_while(|byte| goes_on_word(words, **byte))
        .count()
}

/// Whether a byte only goes on a comment.
fn goes_on_comment(byte: u8) -> bool
    ensures { result ≡ specs.goes_on_comment byte }
{
    byte < 127 && byte != b'\n'
}

/// How many of these bytes come first that only go on a comment.
fn comment_run(bytes: &[u8]) -> usize
    ensures len { result ≡ prefix_len specs.goes_on_comment bytes.now }
    ensures within { result ≤ length bytes.now }
{
    bytes
        .iter()
        .take_while(|byte| goes_on_comment(**byte))
        .count()
}

/// How many of these bytes come first that only go on the line, in no escape.
#[inline(always)]
pub(crate) fn run_len(half: &Half, bytes: &[u8]) -> usize
    ensures len { result ≡ specs.run_len bytes.now half.now }
    ensures within { result ≤ length bytes.now }
{
    if !half.is_open() {
        return 0;
    }
    match half.line {
        Line::Text | Line::Request | Line::Stored => text_run(bytes),
        Line::Words(words) => word_run(words, bytes),
        _ => 0,
    }
}

/// Takes a run that this byte is the last of.
#[inline(always)]
pub(crate) fn takes_run(half: &mut Half, byte: u8)
    ensures { half.new ≡ specs.after_run byte half.old }
{
    if !half.manual {
        return;
    }
    if let Before::Character(_) = half.before {
        half.before = Before::Character(mark_of(byte));
    }
}

/// How many of these bytes come first that only go on a comment.
#[inline(always)]
pub(crate) fn comment_len(half: &Half, bytes: &[u8]) -> usize
    ensures len { result ≡ specs.comment_len bytes.now half.now }
    ensures within { result ≤ length bytes.now }
{
    match half.line {
        Line::Comment => comment_run(bytes),
        _ => 0,
    }
}

/// How long the name is that these bytes begin with after a dot, at the beginning of a line: up to 32 bytes,
/// none of which ends it.
pub(crate) fn name_len(half: &Half, bytes: &[u8]) -> usize
    ensures len { result ≡ specs.name_len bytes.now half.now }
    ensures few { result ≤ 32 }
    ensures within { 0 < result → result + 1 ≤ length bytes.now }
{
    if !matches!(half.escape, Escape::Plain) || !matches!(half.line, Line::Start) {
        return 0;
    }
    dotted_len(bytes)
}

/// Takes the dot and this name.
pub(crate) fn takes_name(half: &mut Half, name: Name)
    ensures { half.new ≡ specs.after_name name half.old }
{
    half.places(Mark::Stop);
    half.conditional = false;
    half.name = name;
    half.line = Line::Name;
}

/// Takes the dot, a name that opens so, and the blank or newline after it.
#[inline(always)]
pub(crate) fn takes_control(half: &mut Half, opens: Opens, byte: u8)
    ensures { half.new ≡ specs.after_control opens byte half.old }
{
    takes_name(half, Name::new());
    half.opens(opens, byte);
    half.takes(byte);
}

/// Takes the beginning of a comment that is a line of its own.
#[inline(always)]
pub(crate) fn takes_comment(half: &mut Half)
    ensures { half.new ≡ specs.after_comment half.old }
{
    half.forget();
    half.name = Name::new();
    half.conditional = false;
    half.before = Before::Character(Mark::Other);
    half.line = Line::Comment;
}

/// Takes the first byte of a word.
#[inline(always)]
pub(crate) fn takes_word(half: &mut Half, words: Words, byte: u8)
    requires { words.count < 8 }
    ensures { half.new ≡ specs.after_word words byte half.old }
{
    half.goes_by(byte);
    half.line = Line::Words(words.inside());
}

/// Whether an escape may begin here that goes out as it is: in no other, and where no word begins with it.
pub(crate) fn takes_plain_escape(half: &Half) -> bool
    ensures { result ≡ specs.takes_plain_escape half.now }
{
    if !matches!(half.escape, Escape::Plain) {
        return false;
    }
    match half.line {
        Line::Start | Line::Fonts | Line::Text | Line::Request => true,
        Line::Words(words) => !words.begins_word(),
        _ => false,
    }
}

/// Takes a font, as `\\fB`.
#[inline(always)]
pub(crate) fn takes_font(half: &mut Half, letter: u8)
    ensures { half.new ≡ specs.after_font letter half.old }
{
    half.faces(letter);
    half.forget();
    half.line = half.line.with_font();
}

/// Takes an escape of two bytes that goes out as it is.
pub(crate) fn takes_kept(half: &mut Half)
    ensures { half.new ≡ specs.after_kept half.old }
{
    half.places(Mark::Other);
    half.forget();
    half.line = half.line.with_text();
}

/// Whether a byte goes on a name.
fn goes_on_name(byte: u8) -> bool
    ensures { result ≡ specs.goes_on_name byte }
{
    byte < 127 && byte > b' ' && byte != b'\\'
}

/// A blank or a newline, which end a name.
pub(crate) fn is_end(byte: u8) -> bool
    ensures { result ≡ specs.is_end byte }
{
    byte == b' ' || byte == b'\n'
}

/// How many of these bytes come first that go on a name.
fn name_run(bytes: &[u8]) -> usize
    ensures len { result ≡ prefix_len specs.goes_on_name bytes.now }
    ensures within { result ≤ length bytes.now }
{
    bytes.iter().take_while(|byte| goes_on_name(**byte)).count()
}

/// How long the name is that stands after a dot, and doesn't begin with one.
fn dotted_len(bytes: &[u8]) -> usize
    ensures len { result ≡ specs.dotted_len bytes.now }
    ensures few { result ≤ 32 }
    ensures within { 0 < result → result + 1 ≤ length bytes.now }
{
    match bytes {
        [dot, first, ..] if *dot == b'.' && *first != b'.' => name_run(&bytes[1..]).min(32),
        _ => 0,
    }
}

/// The byte after a backslash in an escape of two bytes that goes out as it is: a minus sign, nothing, a thin blank, the
/// end of a text that goes on, a backslash.
fn is_kept(byte: u8) -> bool
    ensures { result ≡ specs.is_kept byte }
{
    matches!(byte, b'-' | b'&' | b'|' | b'c' | b'e')
}

/// Whether a text begins with such an escape.
pub(crate) fn begins_kept(bytes: &[u8]) -> bool
    ensures { result ≡ specs.begins_kept bytes.now }
{
    match bytes {
        [backslash, letter, ..] => *backslash == b'\\' && is_kept(*letter),
        _ => false,
    }
}

/// Whether a text begins with `.\"`.
pub(crate) fn begins_comment(bytes: &[u8]) -> bool
    ensures value { result ≡ specs.begins_comment bytes.now }
    ensures within { result ≡ true → 3 ≤ length bytes.now }
{
    match bytes {
        [dot, backslash, quote, ..] => *dot == b'.' && *backslash == b'\\' && *quote == b'"',
        _ => false,
    }
}

/// Whether a text begins with one of the fonts that the language has.
pub(crate) fn begins_font(bytes: &[u8]) -> bool
    ensures value { result ≡ specs.begins_font bytes.now }
    ensures within { result ≡ true → 3 ≤ length bytes.now }
{
    match bytes {
        [backslash, letter, font, ..] => {
            *backslash == b'\\' && *letter == b'f' && is_font(*font)
        }
        _ => false,
    }
}

/// The letter of a font that the language has.
fn is_font(byte: u8) -> bool
    ensures { result ≡ specs.is_font byte }
{
    matches!(byte, b'B' | b'I' | b'P' | b'R')
}
