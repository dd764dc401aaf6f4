//! Runs of bytes that stand for themselves, in a text line that has begun.
ghost use Rattle.std.specs.Prelude.{◌≡◌, ◌<◌, ◌≤◌, false, length, take, slice_index};
ghost use Rattle.nr_fill.specs.Piece.{begins_line, line_cells, text_cells};
ghost use Rattle.nr_fill.specs.Plain.{IsPlain};
ghost use Rattle.nr_formatter.specs.Access.{collected};
ghost use Rattle.nr_formatter.specs.declared.many.runs.Gap.TheVariants as gaps;
ghost use Rattle.nr_formatter.specs.Many.LineBeginnings.{is_at_text, AfterBeginning};
ghost use Rattle.nr_formatter.specs.Many.LineEnds.{IsNewline, AfterNewline};
ghost use Rattle.nr_formatter.specs.Many.Runs.{reads_next, is_in_line, run_put, gaps_plainly, IsGap, AfterWord, AfterGap, PutsWord, is_rereading_line, manner_of};

use crate::formatter::Formatter;
use crate::tasks::{After, Task};
use nr_input::Event;
use nr_vectors::cell::Look;

/// What became of a blank or a newline after a word.
#[derive(Clone, Copy)]
pub enum Gap {
    /// It was left, and nothing changed.
    Left,
    /// It was read, and full lines go out next.
    Flows,
    /// It was read, and more is read next.
    Reads,
}

/// How words and the blanks after them are read.
#[derive(Clone, Copy)]
pub struct Manner {
    /// How cells look.
    pub look: Look,
    /// A blank does nothing but end a word and widen the gap, unless text for a stop is being read.
    pub ends: bool,
}

/// What was read of some bytes.
#[derive(Clone, Copy)]
pub struct WordPut {
    /// How many of them are cells of a word.
    pub count: usize,
    /// What became of a blank after them.
    pub gap: Gap,
}

impl Formatter {
    /// Whether the input is read next, unless a macro springs.
    #[inline]
    fn reads_next(&self) -> bool
        ensures { result ≡ reads_next self.now.event self.now.task }
    {
        match (self.event, self.task) {
            (Event::Nothing, Task::Read) => true,
            _ => false,
        }
    }

    /// Whether the next item is read in a text line that has begun.
    #[inline]
    pub fn is_in_line(&self) -> bool
        ensures { result ≡ is_in_line self.now }
    {
        self.springs.is_none()
            && self.reads_next()
            && self.reader.half.is_in_text()
            && !self.line.is_empty()
    }

    /// Whether the next item is read in a text line or at the beginning of a line, and what is collected has begun.
    #[inline]
    pub fn is_at_text(&self) -> bool
        ensures { result ≡ is_at_text self.now }
    {
        self.springs.is_none()
            && self.reads_next()
            && self.reader.half.is_at_text()
            && !self.line.is_empty()
    }

    /// The text of a line begins with these bytes, if the first of them is put: where it is plain and no control character, and
    /// the line that is collected is not full. Tells whether it does.
    #[inline]
    pub fn begin_text(&mut self, bytes: &[u8]) -> bool
        ensures { AfterBeginning bytes.now self.old result self.new }
    {
        if bytes.is_empty() || !self.line.takes_plain(bytes[0]) {
            return false;
        }
        let half = &mut self.reader.half;
        if half.signs.begins_control(bytes[0]) {
            return false;
        }
        half.begin_text();
        true
    }

    /// Whether a blank does nothing but end the word and widen the gap.
    #[inline]
    fn gaps_plainly(&self) -> bool
        ensures { result ≡ gaps_plainly self.now }
    {
        self.settings.filling.is_filling()
            && self.line.has_word()
            && !self.line.has_field()
            && (!self.breaks && !self.store.has_words())
    }

    /// Reads a blank after a word, where it does nothing but end the word and widen the gap, and passes no limit.
    #[inline]
    pub fn put_gap(&mut self) -> Gap
        ensures is { AfterGap self.old result self.new }
        ensures left { result ≡ gaps.Left → IsGap self.old → ⊥ }
    {
        if !self.gaps_plainly() {
            return Gap::Left;
        }
        if self.line.end_word().is_err() {
            return Gap::Left;
        }
        self.line.widen_gap();
        self.flow_after()
    }

    /// Reads the newline that ends a text line, where it does nothing but end the word and widen the gap, and passes no limit.
    #[inline]
    pub fn put_newline(&mut self) -> Gap
        ensures is { AfterNewline self.old result self.new }
        ensures left { result ≡ gaps.Left → IsNewline self.old → ⊥ }
    {
        if !self.is_in_line()
            || !self.gaps_plainly()
            || self.line.is_at_joint()
            || self.input_trap.is_some()
            || self.settings.fonts.underlined > 0
        {
            return Gap::Left;
        }
        if self.line.end_word().is_err() {
            return Gap::Left;
        }
        self.line.newline_gap();
        self.reader.half.end_text();
        if self.line.fits() {
            return Gap::Reads;
        }
        self.task = Task::Flow(After::Line, false);
        Gap::Flows
    }

    /// How words and the blanks after them are read.
    #[inline]
    pub fn manner(&self) -> Manner
        ensures { result ≡ manner_of self.now }
    {
        Manner {
            look: self.settings.fonts.look(),
            ends: self.settings.filling.is_filling() && (!self.breaks && !self.store.has_words()),
        }
    }

    /// Adds a prefix of these bytes to the line, up to the first that is not plain or whose cell would pass the limit, and
    /// reads the blank after it as `put_gap` does.
    ///
    /// Proved: Words with the blanks after them, a line's beginning and its end are put at once, as many bytes as can
    /// be; that these are so many moves is fast_machine's claim. (`Formatter::{put_word, put_gap, begin_text,
    /// put_newline}`)
    #[inline]
    pub fn put_word(&mut self, manner: Manner, bytes: &[u8]) -> WordPut
        requires { manner ≡ manner_of self.old }
        ensures { PutsWord bytes.now self.old result self.new }
    {
        let indents = &self.settings.indents;
        let run = self.line.put_word(indents, manner.look, manner.ends, bytes);
        let count = run.count;
        if run.ended {
            return WordPut {
                count,
                gap: self.flow_after(),
            };
        }
        let gap = if count < bytes.len() && bytes[count] == b' ' {
            self.put_gap()
        } else {
            Gap::Left
        };
        WordPut { count, gap }
    }

    /// After a word: full lines go out next where the pieces do not fit the line.
    #[inline]
    fn flow_after(&mut self) -> Gap
        ensures { AfterWord self.old result self.new }
    {
        if self.line.fits() {
            return Gap::Reads;
        }
        self.task = Task::Flow(After::Text, false);
        Gap::Flows
    }

    /// Whether the next item is read in the midst of a diverted line that goes on the page.
    #[inline]
    pub fn is_rereading(&self) -> bool
        ensures { result ≡ is_rereading_line self.now }
    {
        self.springs.is_none()
            && self.reads_next()
            && self.reader.half.is_rereading()
            && self.outlet().is_on_page()
    }
}
