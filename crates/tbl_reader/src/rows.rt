//! Rows and their fields, and what stands between rows.
ghost use Rattle.std.specs.Prelude.{◌≡◌, ◌+◌, ◌<◌, [], ◌∷◌, ◌++◌, length, take, drop, false, IfSome, ◌≤◌};
ghost use Rattle.tbl_reader.specs.Fields as specs;
ghost use Rattle.tbl_reader.specs.Pages.{line_of, wrong};
ghost use Rattle.tbl_reader.specs.RowLines as lines;
ghost use Rattle.tbl_reader.specs.Telling.{Tells};

use super::command::{Start, is_command};
use super::complaint::Kind;
use super::field::{Mark, Shape, marks_of, shape_of, without_blanks_before};
use super::numbers::is_digit;
use super::reader::{Reader, tail_from};
use super::state::{Mode, State};
use super::telling::{Setter, Tell};
use nr_vectors::FixedVec;

/// Whether a line between rows is a request.
fn is_request(line: &[u8]) -> bool
    ensures { result ≡ specs.is_request line.now }
{
    line.len() > 0 && line[0] == b'.' && (line.len() == 1 || !is_digit(line[1]))
}

/// Where the first of these bytes stands.
fn place_of(byte: u8, text: &[u8]) -> Option<usize>
    ensures value { result ≡ specs.place_of byte text.now }
    ensures within { IfSome result (λ place. place < length text.now) }
{
    let mut at = 0;
    for other in text {
        if *other == byte {
            return Some(at);
        }
        at += 1;
    }
    None
}

/// Whether nothing but this byte, which separates fields, stands there.
fn are_empty(tab: u8, text: &[u8]) -> bool
    ensures { result ≡ lines.are_empty tab text.now }
{
    for byte in text.iter() {
        if *byte != tab {
            return false;
        }
    }
    true
}

/// What becomes of a byte of which the one before may be the first of two backslashes.
fn second_of(alone: bool, byte: u8) -> u8
    ensures { result ≡ specs.second_of alone byte }
{
    if alone && byte == b'\\' { b'e' } else { byte }
}

/// Whether a byte is a backslash that may be the first of two.
fn is_alone(alone: bool, byte: u8) -> bool
    ensures { result ≡ specs.is_alone alone byte }
{
    byte == b'\\' && !alone
}

/// Two backslashes become `\\e`, which stays itself where it is read twice. Tells whether the last one stands alone.
fn pair_backslashes(kept: &mut FixedVec<u8>, start: usize) -> bool
    ensures items { kept.new.items ≡ take start kept.old.items
        ++ specs.paired false (drop start kept.old.items) }
    ensures alone { result ≡ specs.open_after false (drop start kept.old.items) }
    ensures room { kept.new.capacity ≡ kept.old.capacity }
{
    let mut alone = false;
    for at in start..kept.len() {
        let byte = kept.get(at);
        kept.set(at, second_of(alone, byte));
        alone = is_alone(alone, byte);
    }
    alone
}

/// Whether a comment begins a text.
fn is_comment(text: &[u8]) -> bool
    ensures { result ≡ specs.is_comment text.now }
{
    text.len() > 1 && text[0] == b'\\' && text[1] == b'"'
}

/// Where a comment begins.
fn comment_in(text: &[u8]) -> Option<usize>
    ensures value { result ≡ specs.comment_in text.now }
    ensures within { IfSome result (λ place. place < length text.now) }
{
    for (at, _) in text.iter().enumerate() {
        if is_comment(&text[at..]) {
            return Some(at);
        }
    }
    None
}

/// A comment is cut off. Tells whether there was one.
#[tactic(auto, using(crate::proofs::Cleaning::cut_there, crate::proofs::Cleaning::cut_nowhere))]
fn cut_comment(kept: &mut FixedVec<u8>, start: usize) -> bool
    ensures items { kept.new.items ≡ take start kept.old.items
        ++ specs.before_comment (drop start kept.old.items) }
    ensures cut { result ≡ specs.has_comment (drop start kept.old.items) }
    ensures room { kept.new.capacity ≡ kept.old.capacity }
{
    match comment_in(tail_from(kept.as_slice(), start)) {
        Some(at) => {
            kept.truncate(start + at);
            true
        }
        None => false,
    }
}

/// Two backslashes become `\\e`, and a comment is cut off. Tells whether the last backslash stands alone.
#[tactic(auto, using(crate::proofs::Cleaning::none_cleaned, crate::proofs::Cleaning::none_goes_on))]
fn clean_line(kept: &mut FixedVec<u8>, start: usize) -> bool
    ensures items { kept.new.items ≡ take start kept.old.items ++ specs.cleaned (drop start kept.old.items) }
    ensures alone { result ≡ specs.continues (drop start kept.old.items) }
    ensures room { kept.new.capacity ≡ kept.old.capacity }
{
    if place_of(b'\\', tail_from(kept.as_slice(), start)).is_none() {
        return false;
    }
    let alone = pair_backslashes(kept, start);
    let cut = cut_comment(kept, start);
    alone & !cut
}

impl State {
    /// A field as it counts: without the blanks before it, where that was said.
    fn trimmed<'t>(&self, text: &'t [u8]) -> &'t [u8]
        ensures value { result.now ≡ lines.trimmed self.now text.now }
        ensures few { length result.now ≤ length text.now }
    {
        if self.options.nospaces {
            without_blanks_before(text)
        } else {
            text
        }
    }

    /// A field without the blanks after it, where that was said.
    fn solid<'t>(&self, text: &'t [u8]) -> &'t [u8]
        ensures { result.now ≡ lines.solid self.now text.now }
    {
        if self.options.nospaces {
            &text[..marks_of(text, self.options.point).solid]
        } else {
            text
        }
    }

    /// How many bytes of a field stand before the place where it is aligned, if a column has numbers.
    fn prefix(&self, text: &[u8]) -> Option<usize>
        ensures { result ≡ lines.prefix_of self.now text.now }
    {
        if self.formats.numeric {
            marks_of(text, self.options.point).prefix()
        } else {
            None
        }
    }

    /// A field of text is emitted.
    fn tell_text<S: Setter>(&self, text: &[u8], setter: &mut S)
        ensures { Tells S.shows S.hears (lines.text_said self.now text.now ∷ []) setter.old setter.new }
    {
        setter.tell(Tell::Field(self.prefix(text)), self.solid(text));
    }

    /// A field of this shape is emitted.
    fn tell_shape<S: Setter>(&self, shape: Shape, text: &[u8], setter: &mut S)
        ensures { Tells S.shows S.hears (lines.shape_said shape self.now text.now ∷ []) setter.old setter.new }
    {
        match shape {
            Shape::Empty => setter.tell(Tell::Mark(Mark::Nothing), b""),
            Shape::Mark(mark) => setter.tell(Tell::Mark(mark), b""),
            Shape::Block | Shape::Text => self.tell_text(text, setter),
        }
    }

    /// A field in a column is emitted.
    fn tell_field<S: Setter>(&mut self, text: &[u8], setter: &mut S)
        ensures state { self.new ≡ (lines.field_said self.old text.now).state }
        ensures emitted { Tells S.shows S.hears (lines.field_said self.old text.now).pieces setter.old
            setter.new }
    {
        let text = self.trimmed(text);
        self.tell_shape(shape_of(text), text, setter);
        self.counts_field();
    }

    /// The last field of a row is emitted; one beyond the columns is text, or nothing.
    pub(crate) fn tell_last<S: Setter>(&mut self, text: &[u8], setter: &mut S)
        ensures state { self.new ≡ (lines.last_said self.old text.now).state }
        ensures emitted { Tells S.shows S.hears (lines.last_said self.old text.now).pieces setter.old
            setter.new }
    {
        if !self.is_beyond() {
            self.tell_field(text, setter);
            return;
        }
        let text = self.trimmed(text);
        if are_empty(self.options.tab, text) {
            return;
        }
        self.complains(Kind::TooManyFields, setter);
        self.tell_text(text, setter);
    }

    /// A text block begins.
    fn tell_block<S: Setter>(&self, setter: &mut S)
        ensures { Tells S.shows S.hears (lines.block_begun self.now) setter.old setter.new }
    {
        if self.is_beyond() {
            self.complains(Kind::TooManyFields, setter);
        }
        setter.tell(Tell::Block, b"");
    }
}

impl Reader {
    /// A line between rows ends.
    pub(crate) fn line_between<S: Setter>(&mut self, setter: &mut S)
        ensures page { self.new ≡ (lines.line_between self.old).page }
        ensures emitted { Tells S.shows S.hears (lines.line_between self.old).pieces setter.old setter.new }
    {
        if is_command(self.kept.as_slice(), b'E') {
            self.table_ends(setter);
        } else if is_command(self.kept.as_slice(), b'&') {
            self.state.begins_formats();
            self.forgets();
            setter.tell(Tell::Formats, b"");
        } else if is_request(self.kept.as_slice()) {
            setter.tell(Tell::Request, self.kept.as_slice());
            self.forgets();
        } else {
            self.row_line(setter);
        }
    }

    /// The fields of a line that something ends that separates them.
    fn tell_ended<S: Setter>(&mut self, setter: &mut S)
        ensures page { self.new ≡ (lines.all_ended self.old).page }
        ensures emitted { Tells S.shows S.hears (lines.all_ended self.old).pieces setter.old setter.new }
    {
        for _ in self.state.fields..self.state.formats.columns {
            match place_of(self.state.options.tab, self.line()) {
                Some(len) => self.tell_ended_at(len, setter),
                None => return,
            }
        }
    }

    /// The field is emitted that ends so far after the beginning of the line.
    fn tell_ended_at<S: Setter>(&mut self, len: usize, setter: &mut S)
        requires { self.old.start + len < length self.old.kept }
        ensures page { self.new ≡ lines.after_field len self.old }
        ensures emitted { Tells S.shows S.hears (lines.next_said len self.old).pieces setter.old setter.new }
    {
        let kept = self.kept.as_slice();
        let end = self.start + len;
        let text = tail_from(&kept[..end], self.from);
        self.state.tell_field(text, setter);
        self.from = end + 1;
        self.start = end + 1;
    }

    /// Two backslashes of the line become `\\e`, and a comment is cut off. Tells whether the last backslash stands alone.
    fn cleans_line(&mut self) -> bool
        ensures page { self.new ≡ lines.line_cleaned self.old }
        ensures alone { result ≡ specs.continues (line_of self.old) }
    {
        clean_line(&mut self.kept, self.start)
    }

    /// A line of a row ends.
    pub(crate) fn row_line<S: Setter>(&mut self, setter: &mut S)
        ensures page { self.new ≡ (lines.row_line self.old).page }
        ensures emitted { Tells S.shows S.hears (lines.row_line self.old).pieces setter.old setter.new }
    {
        let alone = self.cleans_line();
        self.tell_ended(setter);
        self.goes_on(alone, setter);
    }

    /// The row goes on in the next line, if the last backslash of this one stands alone, or ends.
    fn goes_on<S: Setter>(&mut self, alone: bool, setter: &mut S)
        ensures page { self.new ≡ (lines.line_continued alone self.old).page }
        ensures emitted { Tells S.shows S.hears (lines.line_continued alone self.old).pieces setter.old
            setter.new }
    {
        if !alone {
            self.tell_rest(setter);
            return;
        }
        let len = self.kept.len();
        self.kept.truncate(len.saturating_sub(1));
        self.start = self.kept.len();
        self.state.mode = Mode::Row;
    }

    /// What stands after the last field that was emitted: a rule, a text block that begins, or a field, and the row ends.
    fn tell_rest<S: Setter>(&mut self, setter: &mut S)
        ensures page { self.new ≡ (lines.rest_emitted self.old).page }
        ensures emitted { Tells S.shows S.hears (lines.rest_emitted self.old).pieces setter.old setter.new }
    {
        match shape_of(self.state.trimmed(self.rest())) {
            Shape::Block => {
                self.state.tell_block(setter);
                self.state.begins_block();
                self.forgets();
            }
            Shape::Mark(Mark::Rule) if self.state.fields == 0 => {
                setter.tell(Tell::Rule, b"");
                self.begins_row();
            }
            _ => self.last_field_ends(setter),
        }
    }

    /// The last field of a row is emitted.
    pub(crate) fn tell_last_field<S: Setter>(&mut self, setter: &mut S)
        ensures page { self.new ≡ (lines.last_field self.old).page }
        ensures emitted { Tells S.shows S.hears (lines.last_field self.old).pieces setter.old setter.new }
    {
        let text = tail_from(self.kept.as_slice(), self.from);
        self.state.tell_last(text, setter);
    }

    /// The last field of a row is emitted, and the row ends.
    fn last_field_ends<S: Setter>(&mut self, setter: &mut S)
        ensures page { self.new ≡ (lines.last_ended self.old).page }
        ensures emitted { Tells S.shows S.hears (lines.last_ended self.old).pieces setter.old setter.new }
    {
        self.tell_last_field(setter);
        self.row_ends(setter);
    }

    /// The next line begins a row.
    pub(crate) fn begins_row(&mut self)
        ensures { self.new ≡ lines.rows_begun self.old }
    {
        self.state.begins_row();
        self.forgets();
    }

    /// A row ends.
    pub(crate) fn row_ends<S: Setter>(&mut self, setter: &mut S)
        ensures page { self.new ≡ (lines.row_ended self.old).page }
        ensures emitted { Tells S.shows S.hears (lines.row_ended self.old).pieces setter.old setter.new }
    {
        setter.tell(Tell::Row, b"");
        self.begins_row();
    }

    /// Something is wrong on this line.
    fn complains<S: Setter>(&self, kind: Kind, setter: &mut S)
        ensures { Tells S.shows S.hears (wrong kind self.now.state ∷ []) setter.old setter.new }
    {
        self.state.complains(kind, setter);
    }

    /// What was emitted of a row is one.
    fn row_is_cut<S: Setter>(&self, setter: &mut S)
        ensures { Tells S.shows S.hears (lines.row_so_far self.now.state) setter.old setter.new }
    {
        if self.state.fields > 0 {
            setter.tell(Tell::Row, b"");
        }
    }

    /// There is no room for more of a row: what was emitted of it is one, and the rest stands as it is.
    pub(crate) fn row_overflows<S: Setter>(&mut self, setter: &mut S)
        ensures page { self.new ≡ (lines.row_overflown self.old).page }
        ensures emitted { Tells S.shows S.hears (lines.row_overflown self.old).pieces setter.old setter.new }
    {
        self.row_is_cut(setter);
        self.complains(Kind::RowLimit, setter);
        setter.tell(Tell::Plain, b"");
        setter.tell(Tell::Pass, b"\\&");
        setter.tell(Tell::Pass, self.rest());
        self.state.mode = Mode::Plain(Start::Other);
        self.forgets();
    }
}
