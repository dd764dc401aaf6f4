//! Many bytes at once: those that go out as they are.
ghost use Rattle.std.specs.Prelude.{◌≡◌, ◌+◌, ◌<◌, ◌≤◌, ◌∷◌, [], length, take, true, false};
ghost use Rattle.preconv_converter.specs.declared.reader.Pending.TheVariants.{Nothing};
ghost use Rattle.preconv_lines.specs.Half.{is_open};
ghost use Rattle.preconv_converter.specs.Runs.{dot};
ghost use Rattle.preconv_converter.specs.Passing.{Passes};
ghost use Rattle.preconv_converter.specs.Reading as specs;

use super::reader::{Pending, Reader};
use super::runs::{
    begins_comment, begins_font, begins_kept, begins_word_with, comment_len, is_end, name_len,
    run_len, takes_comment, takes_control, takes_font, takes_kept, takes_name, takes_plain_escape,
    takes_run, takes_word,
};
use nr_units::Name;
use preconv_characters::{may_go_out, opened};
use preconv_lines::{Escape, Line};

impl Reader {
    /// Whether nothing is half read of a character, and nothing of an escape, and no byte is translated.
    #[inline(always)]
    fn is_between(&self) -> bool
        ensures pending { result ≡ true → self.now.pending ≡ Nothing }
        ensures clear { result ≡ true → is_open self.now.half ≡ true }
    {
        matches!(self.pending, Pending::Nothing) && self.half.is_open()
    }

    /// Takes a byte that goes out as it is in one step, where nothing is half read of a character.
    #[inline(always)]
    fn passes(&mut self, byte: u8) -> bool
        requires { self.old.pending ≡ Nothing }
        ensures taken { result ≡ true → specs.read byte self.old ≡ specs.emitted self.new (byte ∷ []) 1 }
        ensures left { result ≡ false → self.new ≡ self.old }
        ensures pending { self.new.pending ≡ Nothing }
    {
        if self.half.is_raw() {
            if !may_go_out(self.table, byte) {
                return false;
            }
            self.half.passes(byte);
            return true;
        }
        if !self.half.takes_as_is(byte) {
            return false;
        }
        self.half.takes(byte);
        true
    }

    /// Takes the first of these bytes, if it goes out as it is.
    #[inline(always)]
    fn pass_one(&mut self, bytes: &[u8]) -> usize
        requires pending { self.old.pending ≡ Nothing }
        requires some { 0 < length bytes.now }
        ensures within { result ≤ length bytes.now }
        ensures plain { Passes result bytes.now self.old self.new }
        ensures pending { self.new.pending ≡ Nothing }
    {
        if self.passes(bytes[0]) { 1 } else { 0 }
    }

    /// Takes a run of those that only go on the line.
    #[inline(always)]
    fn pass_run(&mut self, bytes: &[u8]) -> usize
        requires { self.old.pending ≡ Nothing }
        ensures within { result ≤ length bytes.now }
        ensures plain { Passes result bytes.now self.old self.new }
        ensures pending { self.new.pending ≡ Nothing }
    {
        let run = run_len(&self.half, bytes);
        if run > 0 {
            takes_run(&mut self.half, bytes[run - 1]);
        }
        run
    }

    /// Takes what ends such a run: an escape or one byte.
    #[inline(always)]
    fn pass_stop(&mut self, bytes: &[u8]) -> usize
        requires { self.old.pending ≡ Nothing }
        ensures within { result ≤ length bytes.now }
        ensures plain { Passes result bytes.now self.old self.new }
    {
        if bytes.is_empty() {
            return 0;
        }
        if bytes[0] == b'\\' {
            return self.pass_escape(bytes);
        }
        self.pass_one(bytes)
    }

    /// Takes such a run and what ends it.
    #[inline(always)]
    fn pass_text(&mut self, bytes: &[u8]) -> usize
        requires { self.old.pending ≡ Nothing }
        ensures within { result ≤ length bytes.now }
        ensures plain { Passes result bytes.now self.old self.new }
    {
        let run = self.pass_run(bytes);
        run + self.pass_stop(&bytes[run..])
    }

    /// Takes a text line, or a prefix of it, from its first byte on.
    #[inline(always)]
    fn pass_line(&mut self, bytes: &[u8]) -> usize
        requires pending { self.old.pending ≡ Nothing }
        requires some { 0 < length bytes.now }
        ensures within { result ≤ length bytes.now }
        ensures plain { Passes result bytes.now self.old self.new }
    {
        if bytes[0] == b'\\' {
            return self.pass_escape(bytes);
        }
        let first = self.pass_one(bytes);
        if first == 0 {
            return 0;
        }
        first + self.pass_text(&bytes[first..])
    }

    /// Takes a comment up to its newline, or a byte of a line that is ignored.
    #[inline(always)]
    fn pass_raw(&mut self, bytes: &[u8]) -> usize
        requires pending { self.old.pending ≡ Nothing }
        requires some { 0 < length bytes.now }
        ensures within { result ≤ length bytes.now }
        ensures plain { Passes result bytes.now self.old self.new }
    {
        let comment = comment_len(&self.half, bytes);
        if comment > 0 {
            return comment;
        }
        self.pass_one(bytes)
    }

    /// Takes those of these bytes that come first and go out as they are, each in one step: a line, or a part of
    /// one. There may be none.
    pub(crate) fn pass(&mut self, bytes: &[u8]) -> usize
        requires { 0 < length bytes.now }
        ensures within { result ≤ length bytes.now }
        ensures plain { Passes result bytes.now self.old self.new }
    {
        if !matches!(self.pending, Pending::Nothing) {
            return 0;
        }
        if !matches!(self.half.escape, Escape::Plain) {
            return 0;
        }
        match self.half.line {
            Line::Start | Line::Fonts => self.pass_line(bytes),
            Line::Text | Line::Request => self.pass_text(bytes),
            Line::Stored | Line::Words(_) => self.pass_text(bytes),
            Line::Comment | Line::Ignored(_) => self.pass_raw(bytes),
            _ => 0,
        }
    }

    /// Takes an escape of two bytes or a font that these bytes begin with, each byte in one step, and tells their number.
    #[inline(always)]
    fn pass_escape(&mut self, bytes: &[u8]) -> usize
        requires { self.old.pending ≡ Nothing }
        ensures within { result ≤ length bytes.now }
        ensures plain { Passes result bytes.now self.old self.new }
    {
        if !takes_plain_escape(&self.half) {
            return 0;
        }
        if begins_kept(bytes) {
            takes_kept(&mut self.half);
            return 2;
        }
        if begins_font(bytes) {
            takes_font(&mut self.half, bytes[2]);
            return 3;
        }
        0
    }

    /// Takes the first byte of a word, if it goes out as it is. It is offered three times.
    #[inline(always)]
    pub(crate) fn pass_word(&mut self, byte: u8) -> bool
        ensures taken { result ≡ true → specs.read byte self.old ≡ specs.emitted self.new (byte ∷ []) 3 }
        ensures left { result ≡ false → self.new ≡ self.old }
    {
        if !self.is_between() {
            return false;
        }
        match self.half.line {
            Line::Words(words) if begins_word_with(words, byte) => {
                takes_word(&mut self.half, words, byte);
                true
            }
            _ => false,
        }
    }

    /// Takes a dot, a name and the blank or newline after it, where all go out as they are. The last is offered twice. Tells
    /// their number.
    #[inline(always)]
    pub(crate) fn pass_control(&mut self, bytes: &[u8]) -> usize
        ensures within { result ≤ length bytes.now }
        ensures none { result ≡ 0 → self.new ≡ self.old }
        ensures taken { 0 < result → specs.fed self.old (take result bytes.now)
            ≡ specs.emitted self.new (take result bytes.now) (result + 1) }
    {
        if !self.is_between() {
            return 0;
        }
        let len = name_len(&self.half, bytes);
        if len == 0 || len + 1 >= bytes.len() {
            return 0;
        }
        let end = bytes[len + 1];
        let rest = &bytes[1..];
        let opens = opened(&rest[..len]);
        if !opens.goes_out(len) || !is_end(end) {
            return 0;
        }
        takes_control(&mut self.half, opens, end);
        len + 2
    }

    /// Takes `.\"`, with which a comment begins, at the beginning of a line. The backslash is offered twice.
    #[inline(always)]
    pub(crate) fn pass_comment(&mut self, bytes: &[u8]) -> bool
        ensures within { result ≡ true → 3 ≤ length bytes.now }
        ensures left { result ≡ false → self.new ≡ self.old }
        ensures taken { result ≡ true → specs.fed self.old (take 3 bytes.now)
            ≡ specs.emitted self.new (take 3 bytes.now) 4 }
    {
        if !self.is_between() {
            return false;
        }
        match self.half.line {
            Line::Start if begins_comment(bytes) => {
                takes_comment(&mut self.half);
                true
            }
            _ => false,
        }
    }

    /// Takes a dot and a name that these bytes begin with, each in one step, and tells how long the name is.
    pub(crate) fn pass_name(&mut self, bytes: &[u8]) -> usize
        ensures few { result ≤ 32 }
        ensures within { 0 < result → result + 1 ≤ length bytes.now }
        ensures none { result ≡ 0 → self.new ≡ self.old }
        ensures named { 0 < result → specs.fed self.old (take (result + 1) bytes.now)
            ≡ specs.emitted self.new dot (result + 1) }
    {
        if !matches!(self.pending, Pending::Nothing) {
            return 0;
        }
        let len = name_len(&self.half, bytes);
        if len > 0 {
            let rest = &bytes[1..];
            takes_name(&mut self.half, Name::of(&rest[..len]));
            return len;
        }
        0
    }
}
