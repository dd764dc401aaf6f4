//! Letters of three bytes in UTF-8 that go on a text line: they go out as they come, and so does what only goes on between them.
ghost use Rattle.std.specs.Prelude.{◌≡◌, ◌<◌, ◌≤◌, length, take, true, false};
ghost use Rattle.preconv_characters.specs.Marks.{is_closer};
ghost use Rattle.preconv_converter.specs.Letters as specs;
ghost use Rattle.preconv_converter.specs.Reading.{emitted, fed};

use super::reader::{Pending, Reader, Taken, is_second, is_tail};
use super::runs::goes_on_text;
use preconv_characters::{Mark, Target, mark_of};
use preconv_lines::Line;

/// Whether these are a letter of three bytes, one from U+3000 on.
#[inline(always)]
fn is_letter(a: u8, b: u8, c: u8) -> bool
    ensures { result ≡ specs.is_letter a b c }
{
    matches!(a, 0xE3..=0xEF) && is_second(a, b) && is_tail(c)
}

/// Whether these bytes begin with one.
#[inline(always)]
fn begins_letter(bytes: &[u8]) -> bool
    ensures { result ≡ specs.begins_letter bytes.now }
{
    match bytes {
        [a, b, c, ..] => is_letter(*a, *b, *c),
        _ => false,
    }
}

/// How many bytes of these are such a letter, or one that only goes on a text line: none where they begin with neither.
#[inline(always)]
fn next_len(bytes: &[u8]) -> usize
    requires { 0 < length bytes.now }
    ensures out { 0 < result → specs.GoOut result bytes.now 1 }
    ensures quiet { 0 < result → is_closer (specs.last_mark result bytes.now) ≡ false }
    ensures within { result ≤ length bytes.now }
    ensures few { result ≤ 3 }
{
    if begins_letter(bytes) {
        return 3;
    }
    if goes_on_text(bytes[0]) {
        return 1;
    }
    0
}

/// How many bytes of these, which begin with a letter, come first that are such, and how many letters and bytes of ASCII these are.
#[inline(always)]
fn run_of(bytes: &[u8]) -> Taken
    requires { specs.begins_letter bytes.now ≡ true }
    ensures out { specs.GoOut result.count bytes.now result.steps }
    ensures some { 0 < result.count }
    ensures within { result.count ≤ length bytes.now }
    ensures quick { result.steps ≤ result.count }
{
    let mut count = 3;
    let mut steps = 1;
    while count < bytes.len() {
        let more = next_len(&bytes[count..]);
        if more == 0 {
            return Taken { count, steps };
        }
        count += more;
        steps += 1;
    }
    Taken { count, steps }
}

/// What stands before the next character after this byte, the last of a letter or one of ASCII.
#[inline(always)]
fn mark_after(byte: u8) -> Mark
    ensures { result ≡ specs.mark_after byte }
{
    if byte < 128 {
        mark_of(byte)
    } else {
        Mark::Letter
    }
}

impl Reader {
    /// Whether letters go out as they come: as themselves, in a text line, where nothing is half read and no byte is translated.
    #[inline(always)]
    fn keeps_letters(&self) -> bool
        ensures { result ≡ true → specs.KeepsLetters self.now }
    {
        matches!(self.table, Target::Utf8)
            && matches!(self.pending, Pending::Nothing)
            && matches!(self.half.line, Line::Text)
            && self.half.is_open()
    }

    /// Takes what these bytes begin with of letters, and of what only goes on between them, where it goes out as it comes. Tells
    /// how many bytes that is, and in how many steps.
    #[inline(always)]
    pub(crate) fn pass_letters(&mut self, bytes: &[u8]) -> Taken
        ensures taken { fed self.old (take result.count bytes.now)
            ≡ emitted self.new (take result.count bytes.now) result.steps }
        ensures within { result.count ≤ length bytes.now }
        ensures none { result.count ≡ 0 → self.new ≡ self.old }
        ensures quick { result.steps ≤ result.count }
    {
        if !begins_letter(bytes) || !self.keeps_letters() {
            return Taken { count: 0, steps: 0 };
        }
        let run = run_of(bytes);
        self.half.places(mark_after(bytes[run.count - 1]));
        run
    }
}
