//! Parts are laid out as text.
ghost use Rattle.std.specs.Prelude.{◌≡◌, ◌+◌, ◌*◌, ◌≤◌, ◌++◌, length, is_some};
ghost use Rattle.mdoc_layout.specs.Laying as specs;

use super::acts::Act;
use super::libraries::LIBRARIES;
use super::lookup::{before_nul, named_in};
use super::macros::Font;
use super::names::{STANDARDS, SYSTEMS};
use super::page::{At, Page};
use super::texts::{closing, font_begin, font_end};
use nr_units::Name;
use nr_vectors::slice_vec::SliceVec;

/// Whether a line that begins with this byte would be a control line.
pub fn is_control(byte: u8) -> bool
    ensures { result ≡ specs.is_control byte }
{
    byte == b'.' || byte == b'\''
}

/// What stands before text at the beginning of a line.
fn guard(first: u8) -> &'static [u8]
    ensures value { result.now ≡ specs.guard first }
    ensures few { length result.now ≤ 3 }
{
    if is_control(first) { b"\\&" } else { b"" }
}

/// What stands before text on a line of its own.
fn line_guard(first: u8) -> &'static [u8]
    ensures value { result.now ≡ specs.line_guard first }
    ensures few { length result.now ≤ 3 }
{
    if is_control(first) { b"\n\\&" } else { b"\n" }
}

/// What stands before a word that begins with a hyphen: no line is broken after that.
fn before_hyphen(word: &[u8]) -> &'static [u8]
    ensures value { result.now ≡ specs.before_hyphen word.now }
    ensures few { length result.now ≤ 1 }
{
    match word {
        [first, ..] if *first == b'-' => b"\\",
        _ => b"",
    }
}

/// A full stop, a question mark or an exclamation mark.
fn is_stop(byte: u8) -> bool
    ensures { result ≡ specs.is_stop byte }
{
    matches!(byte, b'.' | b'?' | b'!')
}

/// A mark that may stand between the end of a sentence and the end of its line.
fn is_transparent(byte: u8) -> bool
    ensures { result ≡ specs.is_transparent byte }
{
    matches!(byte, b')' | b']' | b'"' | b'\'' | b'*')
}

/// Whether a word would end a sentence at the end of its line.
fn ends_sentence(word: &[u8]) -> bool
    ensures { result ≡ specs.ends_sentence word.now }
{
    let len = word.len();
    (len > 0 && is_stop(word[len - 1]))
        || (len > 1 && is_transparent(word[len - 1]) && is_stop(word[len - 2]))
}

/// The first byte of a text.
fn first_of(text: &[u8]) -> u8
    ensures { result ≡ specs.first_of text.now }
{
    match text {
        [first, ..] => *first,
        [] => b' ',
    }
}

/// The first byte of a word in a font.
fn first_in(font: Font, word: &[u8]) -> u8
    ensures { result ≡ specs.first_in font word.now }
{
    match font {
        Font::Roman => first_of(word),
        Font::Bold | Font::Italic => b'\\',
    }
}

/// Whether `.St` knows a standard by this name.
pub fn is_standard(word: Name) -> bool
    ensures { result ≡ is_some (specs.standard_named word) }
{
    standard_named(word).is_some()
}

/// Whether `.Lb` knows a library by this name.
pub fn is_library(word: Name) -> bool
    ensures { result ≡ is_some (specs.library_named word) }
{
    library_named(word).is_some()
}

/// Whether `.At` knows a version by this name.
pub fn is_version(word: Name) -> bool
    ensures { result ≡ is_some (specs.version_named word) }
{
    version_named(word).is_some()
}

/// The standard that a word names.
fn standard_named(word: Name) -> Option<[u8; 78]>
    ensures { result ≡ specs.standard_named word }
{
    named_in(&STANDARDS, word.as_bytes())
}

/// The library.
fn library_named(word: Name) -> Option<[u8; 78]>
    ensures { result ≡ specs.library_named word }
{
    named_in(&LIBRARIES, word.as_bytes())
}

/// The version of AT&T UNIX.
fn version_named(word: Name) -> Option<[u8; 78]>
    ensures { result ≡ specs.version_named word }
{
    named_in(&SYSTEMS, word.as_bytes())
}

impl Page {
    /// What stands between what went out and a text that begins so.
    pub(crate) fn gap(&self, joined: bool, first: u8) -> &'static [u8]
        ensures value { result.now ≡ specs.gap joined first self.now }
        ensures few { length result.now ≤ 3 }
    {
        match self.lay.at {
            At::Start => guard(first),
            At::Middle => if joined {
                b""
            } else if self.lay.kept {
                b"\\~"
            } else {
                b" "
            },
            At::Ended => {
                if joined {
                    b""
                } else if self.lay.tag {
                    b" "
                } else {
                    line_guard(first)
                }
            }
        }
    }

    /// Text was put.
    pub(crate) fn was_put(&mut self)
        ensures { self.new ≡ specs.was_put self.old }
    {
        self.lay.at = At::Middle;
        self.lay.joined = !self.lay.spaced;
        self.lay.quiet = false;
        self.lay.bare = false;
    }

    /// Whether what comes next from a macro joins what is before.
    pub(crate) fn is_joined(&self) -> bool
        ensures { result ≡ specs.is_joined self.now }
    {
        self.lay.joined || (!self.lay.spaced && matches!(self.lay.at, At::Middle))
    }

    /// Text stands apart from what is before, if it is not joined to it.
    pub(crate) fn put(&mut self, joined: bool, text: &[u8], out: &mut SliceVec<'_, u8>)
        requires { length out.old.items + length text.now + 3 ≤ out.old.capacity }
        ensures page { self.new ≡ (specs.put joined text.now self.old).page }
        ensures items { out.new.items ≡ out.old.items ++ (specs.put joined text.now self.old).bytes }
        ensures few { length out.new.items ≤ length out.old.items + length text.now + 3 }
        ensures room { out.new.capacity ≡ out.old.capacity }
    {
        out.extend(self.gap(joined, first_of(text)));
        out.extend(text);
        self.was_put();
    }

    /// What stands after a word: it ends no sentence.
    fn word_end(&self) -> &'static [u8]
        ensures value { result.now ≡ specs.word_end self.now }
        ensures few { length result.now ≤ 2 }
    {
        if ends_sentence(self.word.as_bytes()) {
            b"\\&"
        } else {
            b""
        }
    }

    /// The font of a word ends, unless more of the word comes.
    fn end_word(&mut self, font: Font, out: &mut SliceVec<'_, u8>)
        requires { length out.old.items + 5 ≤ out.old.capacity }
        ensures page { self.new ≡ (specs.end_word font self.old).page }
        ensures items { out.new.items ≡ out.old.items ++ (specs.end_word font self.old).bytes }
        ensures few { length out.new.items ≤ length out.old.items + 5 }
        ensures room { out.new.capacity ≡ out.old.capacity }
    {
        if self.lay.partial {
            self.lay.partial = false;
            self.lay.font = font;
            return;
        }
        out.extend(self.word_end());
        out.extend(font_end(font));
    }

    /// The word, or its prefix, in a font.
    fn put_word(&mut self, joined: bool, font: Font, out: &mut SliceVec<'_, u8>)
        requires { length out.old.items + 48 ≤ out.old.capacity }
        ensures page { self.new ≡ (specs.put_word joined font self.old).page }
        ensures items { out.new.items ≡ out.old.items ++ (specs.put_word joined font self.old).bytes }
        ensures few { length out.new.items ≤ length out.old.items + 48 }
        ensures room { out.new.capacity ≡ out.old.capacity }
    {
        out.extend(self.gap(joined, first_in(font, self.word.as_bytes())));
        out.extend(font_begin(font));
        out.extend(before_hyphen(self.word.as_bytes()));
        out.extend(self.word.as_bytes());
        self.was_put();
        self.end_word(font, out);
    }

    /// A further part of a word.
    fn put_more(&mut self, out: &mut SliceVec<'_, u8>)
        requires { length out.old.items + 48 ≤ out.old.capacity }
        ensures page { self.new ≡ (specs.put_more self.old).page }
        ensures items { out.new.items ≡ out.old.items ++ (specs.put_more self.old).bytes }
        ensures few { length out.new.items ≤ length out.old.items + 48 }
        ensures room { out.new.capacity ≡ out.old.capacity }
    {
        out.extend(before_hyphen(self.word.as_bytes()));
        out.extend(self.word.as_bytes());
        self.was_put();
    }

    /// Its last part.
    fn put_last_more(&mut self, out: &mut SliceVec<'_, u8>)
        requires { length out.old.items + 48 ≤ out.old.capacity }
        ensures page { self.new ≡ (specs.put_last_more self.old).page }
        ensures items { out.new.items ≡ out.old.items ++ (specs.put_last_more self.old).bytes }
        ensures few { length out.new.items ≤ length out.old.items + 48 }
        ensures room { out.new.capacity ≡ out.old.capacity }
    {
        out.extend(before_hyphen(self.word.as_bytes()));
        out.extend(self.word.as_bytes());
        out.extend(self.word_end());
        out.extend(font_end(self.lay.font));
        self.lay.font = Font::Roman;
        self.was_put();
    }

    /// The word as an option.
    fn put_flag(&mut self, out: &mut SliceVec<'_, u8>)
        requires { length out.old.items + 48 ≤ out.old.capacity }
        ensures page { self.new ≡ (specs.put_flag self.old).page }
        ensures items { out.new.items ≡ out.old.items ++ (specs.put_flag self.old).bytes }
        ensures few { length out.new.items ≤ length out.old.items + 48 }
        ensures room { out.new.capacity ≡ out.old.capacity }
    {
        out.extend(self.gap(self.is_joined(), b'\\'));
        out.extend(b"\\fB\\-");
        out.extend(before_hyphen(self.word.as_bytes()));
        out.extend(self.word.as_bytes());
        self.was_put();
        self.end_word(Font::Bold, out);
    }

    /// A name in bold.
    fn put_name(&mut self, name: Name, out: &mut SliceVec<'_, u8>)
        requires { length out.old.items + 48 ≤ out.old.capacity }
        ensures page { self.new ≡ (specs.put_name name self.old).page }
        ensures items { out.new.items ≡ out.old.items ++ (specs.put_name name self.old).bytes }
        ensures few { length out.new.items ≤ length out.old.items + 48 }
        ensures room { out.new.capacity ≡ out.old.capacity }
    {
        out.extend(self.gap(self.is_joined(), b'\\'));
        out.extend(b"\\fB");
        out.extend(name.as_bytes());
        out.extend(b"\\fR");
        self.was_put();
    }

    /// The name that was held back, after a comma: the word is held back then.
    fn put_held(&mut self, out: &mut SliceVec<'_, u8>)
        requires { length out.old.items + 64 ≤ out.old.capacity }
        ensures page { self.new ≡ (specs.put_held self.old).page }
        ensures items { out.new.items ≡ out.old.items ++ (specs.put_held self.old).bytes }
        ensures few { length out.new.items ≤ length out.old.items + 64 }
        ensures room { out.new.capacity ≡ out.old.capacity }
    {
        self.put(true, b",", out);
        self.put_name(self.held, out);
        self.held = self.word;
    }

    /// The last of several names.
    fn put_last_held(&mut self, many: bool, out: &mut SliceVec<'_, u8>)
        requires { length out.old.items + 64 ≤ out.old.capacity }
        ensures page { self.new ≡ (specs.put_last_held many self.old).page }
        ensures items { out.new.items ≡ out.old.items ++ (specs.put_last_held many self.old).bytes }
        ensures few { length out.new.items ≤ length out.old.items + 64 }
        ensures room { out.new.capacity ≡ out.old.capacity }
    {
        if many {
            self.put(true, b",", out);
        }
        self.put(self.is_joined(), b"and", out);
        self.put_name(self.held, out);
        self.held = Name::new();
    }

    /// The marks that were held back.
    fn put_marks(&mut self, out: &mut SliceVec<'_, u8>)
        requires { length out.old.items + 48 ≤ out.old.capacity }
        ensures page { self.new ≡ (specs.put_marks self.old).page }
        ensures items { out.new.items ≡ out.old.items ++ (specs.put_marks self.old).bytes }
        ensures few { length out.new.items ≤ length out.old.items + 48 }
        ensures room { out.new.capacity ≡ out.old.capacity }
    {
        let marks = self.marks;
        self.put(true, marks.as_bytes(), out);
        self.marks = Name::new();
    }

    /// What closes these enclosures, the last of them first.
    fn put_closing(&mut self, closers: &[u8], out: &mut SliceVec<'_, u8>)
        requires { length out.old.items + 7 * length closers.now ≤ out.old.capacity }
        ensures page { self.new ≡ (specs.put_closing closers.now self.old).page }
        ensures items { out.new.items ≡ out.old.items ++ (specs.put_closing closers.now self.old).bytes }
        ensures few { length out.new.items ≤ length out.old.items + 7 * length closers.now }
        ensures room { out.new.capacity ≡ out.old.capacity }
    {
        match closers {
            [first, rest @ ..] => {
                self.put_closing(rest, out);
                self.put(true, closing(*first), out);
            }
            [] => {}
        }
    }

    /// What closes the enclosures that the line opened.
    fn put_closers(&mut self, out: &mut SliceVec<'_, u8>)
        requires { length out.old.items + 256 ≤ out.old.capacity }
        ensures page { self.new ≡ (specs.put_closers self.old).page }
        ensures items { out.new.items ≡ out.old.items ++ (specs.put_closers self.old).bytes }
        ensures few { length out.new.items ≤ length out.old.items + 256 }
        ensures room { out.new.capacity ≡ out.old.capacity }
    {
        let closers = self.closers;
        self.closers = Name::new();
        self.put_closing(closers.as_bytes(), out);
    }

    /// The version of AT&T UNIX that the word names, or the word after that name.
    fn put_version(&mut self, text: Option<[u8; 78]>, out: &mut SliceVec<'_, u8>)
        requires { length out.old.items + 96 ≤ out.old.capacity }
        ensures page { self.new ≡ (specs.put_version text self.old).page }
        ensures items { out.new.items ≡ out.old.items ++ (specs.put_version text self.old).bytes }
        ensures few { length out.new.items ≤ length out.old.items + 96 }
        ensures room { out.new.capacity ≡ out.old.capacity }
    {
        let joined = self.is_joined();
        match text {
            Some(text) => self.put(joined, before_nul(&text), out),
            None => {
                self.put(joined, b"AT&T UNIX ", out);
                self.put_word(true, Font::Roman, out);
            }
        }
    }

    /// The standard that the word names, or nothing.
    fn put_standard(&mut self, text: Option<[u8; 78]>, out: &mut SliceVec<'_, u8>)
        requires { length out.old.items + 96 ≤ out.old.capacity }
        ensures page { self.new ≡ (specs.put_standard text self.old).page }
        ensures items { out.new.items ≡ out.old.items ++ (specs.put_standard text self.old).bytes }
        ensures few { length out.new.items ≤ length out.old.items + 96 }
        ensures room { out.new.capacity ≡ out.old.capacity }
    {
        if let Some(text) = text {
            self.put(self.is_joined(), before_nul(&text), out);
        }
    }

    /// The word between quotes, as a library.
    fn put_other_library(&mut self, out: &mut SliceVec<'_, u8>)
        requires { length out.old.items + 96 ≤ out.old.capacity }
        ensures page { self.new ≡ (specs.put_other_library self.old).page }
        ensures items { out.new.items ≡ out.old.items ++ (specs.put_other_library self.old).bytes }
        ensures few { length out.new.items ≤ length out.old.items + 96 }
        ensures room { out.new.capacity ≡ out.old.capacity }
    {
        self.put(self.is_joined(), b"library \\(lq", out);
        self.put_word(true, Font::Roman, out);
        out.extend(b"\\(rq");
    }

    /// The library of the word.
    fn put_library(&mut self, text: Option<[u8; 78]>, out: &mut SliceVec<'_, u8>)
        requires { length out.old.items + 96 ≤ out.old.capacity }
        ensures page { self.new ≡ (specs.put_library text self.old).page }
        ensures items { out.new.items ≡ out.old.items ++ (specs.put_library text self.old).bytes }
        ensures few { length out.new.items ≤ length out.old.items + 96 }
        ensures room { out.new.capacity ≡ out.old.capacity }
    {
        match text {
            Some(text) => self.put(self.is_joined(), before_nul(&text), out),
            None => self.put_other_library(out),
        }
    }

    /// The word as a release of BSD.
    fn put_release(&mut self, out: &mut SliceVec<'_, u8>)
        requires { length out.old.items + 64 ≤ out.old.capacity }
        ensures page { self.new ≡ (specs.put_release self.old).page }
        ensures items { out.new.items ≡ out.old.items ++ (specs.put_release self.old).bytes }
        ensures few { length out.new.items ≤ length out.old.items + 64 }
        ensures room { out.new.capacity ≡ out.old.capacity }
    {
        out.push(b'-');
        self.put_word(true, Font::Roman, out);
    }

    /// The head of an item of `-diag`: blanks stand after it, which what comes next joins.
    pub(crate) fn put_head_end(&mut self, out: &mut SliceVec<'_, u8>)
        requires { length out.old.items + 16 ≤ out.old.capacity }
        ensures page { self.new ≡ (specs.put_head_end self.old).page }
        ensures items { out.new.items ≡ out.old.items ++ (specs.put_head_end self.old).bytes }
        ensures few { length out.new.items ≤ length out.old.items + 16 }
        ensures room { out.new.capacity ≡ out.old.capacity }
    {
        self.put(true, b"\\~\\~", out);
        self.lay.joined = true;
        self.lay.bare = true;
    }

    /// The line of the input ends: a joint does, too, where lines stay as they are.
    pub(crate) fn end_line(&mut self)
        ensures { self.new ≡ specs.end_line self.old }
    {
        if matches!(self.lay.at, At::Middle) {
            self.lay.at = At::Ended;
            self.lay.joined = self.lay.joined && !self.lay.literal;
        }
    }

    /// Words and their like.
    pub(crate) fn lay_word(&mut self, act: Act, out: &mut SliceVec<'_, u8>)
        requires { length out.old.items + 256 ≤ out.old.capacity }
        ensures page { self.new ≡ (specs.lay_word act self.old).page }
        ensures items { out.new.items ≡ out.old.items ++ (specs.lay_word act self.old).bytes }
        ensures few { length out.new.items ≤ length out.old.items + 256 }
        ensures room { out.new.capacity ≡ out.old.capacity }
    {
        match act {
            Act::Word(font) => self.put_word(self.is_joined(), font, out),
            Act::Joined(font) => self.put_word(true, font, out),
            Act::Flag => self.put_flag(out),
            Act::More => self.put_more(out),
            Act::LastMore => self.put_last_more(out),
            Act::Own => self.put_name(self.name, out),
            Act::Held => self.put_held(out),
            Act::LastHeld(many) => self.put_last_held(many, out),
            Act::Marks => self.put_marks(out),
            Act::Closers => self.put_closers(out),
            Act::Standard => self.put_standard(standard_named(self.word), out),
            Act::Library => self.put_library(library_named(self.word), out),
            Act::Att => self.put_version(version_named(self.word), out),
            Act::Release => self.put_release(out),
            Act::HeadEnds => self.put_head_end(out),
            _ => {}
        }
    }
}
