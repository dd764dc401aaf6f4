// What is wrong with the lines of a page, reported as its bytes come.
ghost use Rattle.std.specs.Prelude.{◌≡◌, ◌≤◌, length};
ghost use Rattle.mdoc_command.specs.Watching as specs;

use super::lines::{Half, Line, Whole};
use super::names::{is_mark, is_request, opener_of, opens};
use super::naming::Naming;
use super::telling::{Complaint, Kind, report_broken, report_not_ended};
use super::wording::Wording;
use filters_complaints::{Complaints, OpenBlock, place_of};
use mdoc_words::is_macro;
use nr_units::Name;
use nr_vectors::slice_vec::SliceVec;
use std::marker::Model;

/// A page as far as it came: what is half read of it, its blocks that are open, the last of them first, and what is reported.
#[derive(Drop)]
pub struct Watch<'a> {
    half: Half,
    blocks: SliceVec<'a, OpenBlock>,
    reported: Complaints<'a, Complaint>,
    /// The line of a macro.
    wording: Wording,
    /// The page's name.
    naming: Naming,
    /// A section has begun.
    headed: bool,
    /// `.Dt` came.
    titled: bool,
    /// `.Os` came.
    system: bool,
}

/// Whether a word between quotes, or one with an escape, begins where a line is read so after it was read otherwise.
fn begins_other(before: Line, line: Line) -> bool
    ensures { result ≡ specs.begins_other before line }
{
    match before {
        Line::Quoted(_) | Line::Closed => false,
        Line::Escape => matches!(line, Line::Quoted(_) | Line::Text(_)),
        _ => matches!(line, Line::Quoted(_)),
    }
}

/// Whether a name is one of the page's title.
fn is_prologue(name: &[u8]) -> bool
    ensures { result ≡ specs.is_prologue name.now }
{
    name == b"Dd".as_slice() || name == b"Dt".as_slice() || name == b"Os".as_slice()
}

/// Whether a word of a macro asks for columns.
fn asks_columns(word: Name, name: Name) -> bool
    ensures { result ≡ specs.asks_columns word name }
{
    word.as_bytes() == b"-column".as_slice() && name.as_bytes() == b"Bl".as_slice()
}

impl<'a> Model for Watch<'a> {
    ghost use Rattle.mdoc_command.specs.Watching.{Page};

    ghost Value = { Page };

    ghost view = { λ w. record { half = w.half; blocks = w.blocks; reported = w.reported; wording = w.wording; naming = w.naming; headed = w.headed; titled = w.titled; system = w.system } };
}

impl<'a> Watch<'a> {
    /// A page begins.
    pub fn over(blocks: &'a mut [OpenBlock], complaints: &'a mut [Complaint]) -> Watch<'a>
        ensures { result ≡ specs.first_page (length blocks.entry.now) (length complaints.entry.now) }
    {
        Watch {
            half: Half::new(),
            blocks: SliceVec::over(blocks),
            reported: Complaints::over(complaints),
            wording: Wording::none(),
            naming: Naming::new(),
            headed: false,
            titled: false,
            system: false,
        }
    }

    /// What is reported.
    pub fn reported(&self) -> &Complaints<'a, Complaint>
        ensures { result.now ≡ self.now.reported }
    {
        &self.reported
    }

    /// A byte comes.
    ///
    /// Proved: What is reported of a page is what the definition finds wrong with it: macros that are none, blocks
    /// and enclosures that nothing ends, ends of what is not open or in the wrong order, too many that are open, what
    /// stands outside of its list, comes after the title's place or there again, the words of a macro's line, and the
    /// page's name where it is missing. (`Watch::hear`, `Watch::finish`; `tell_complaints` of filters_complaints writes
    /// it)
    #[inline(always)]
    pub fn hear(&mut self, byte: u8)
        ensures { self.new ≡ specs.heard byte self.old }
    {
        if self.half.is_unread(byte) {
            return;
        }
        let before = self.half.line;
        match self.half.take_in(byte) {
            Whole::Nothing => {}
            Whole::Macro => self.judge(),
            Whole::Word => self.word(),
        }
        self.go_on(before);
        self.half.count(byte);
    }

    /// A word is whole.
    #[tactic(auto, unfolding(crate::specs::Watching::worded))]
    fn word(&mut self)
        ensures { self.new ≡ specs.worded self.old }
    {
        let word = self.half.name;
        let calls = self.half.calls;
        self.name_word();
        self.call_if(calls);
        let columns = asks_columns(word, self.wording.name);
        self.columns_if(columns);
        self.wording.takes(word);
    }

    /// A word that may call a macro comes, or one that doesn't.
    fn call_if(&mut self, calls: bool)
        ensures { self.new ≡ specs.called_if calls self.old }
    {
        if calls {
            self.call();
        }
    }

    /// The word may be that of `.Nm`, call it, or call another macro, so that it has none.
    fn name_word(&mut self)
        ensures { self.new ≡ specs.name_worded self.old }
    {
        let word = self.half.name;
        if word.is_empty() || is_mark(word.as_bytes()) {
            return;
        }
        let is_called = !is_request(word.as_bytes()) && is_macro(word.as_bytes());
        if self.half.calls && is_called {
            self.end_name();
            self.naming.waits = word.as_bytes() == b"Nm".as_slice();
        } else {
            self.naming.takes();
        }
    }

    /// Where `.Nm` waits it has no word, and stands for the page's name.
    fn end_name(&mut self)
        ensures { self.new ≡ specs.name_ended self.old }
    {
        if self.naming.waits && !self.naming.known && !self.half.hidden {
            self.tell(Kind::NoName(Name::of(b"Nm")));
        }
        self.naming.waits = false;
    }

    /// A section NAME ends, or its description comes: it has no name where no `.Nm` came.
    fn end_naming(&mut self)
        ensures { self.new ≡ specs.naming_ended self.old }
    {
        let line = self.naming.section;
        self.naming.section = 0;
        if line > 0 && !self.half.hidden {
            let kind = Kind::Nameless(Name::of(b"Nd"));
            self.reported.report(Complaint { kind, line });
        }
    }

    /// The list that the line begins is one of columns, where its word says so.
    fn columns_if(&mut self, columns: bool)
        ensures { self.new ≡ specs.columns_if columns self.old }
    {
        if columns {
            self.has_columns();
        }
    }

    /// The list that the line begins is one of columns.
    fn has_columns(&mut self)
        ensures { self.new ≡ specs.with_columns self.old }
    {
        if !self.blocks.is_empty() {
            let mut list = self.blocks.get(0);
            list.columns = true;
            self.blocks.set(0, list);
        }
    }

    /// The line of a macro goes on, or ends.
    #[tactic(auto, unfolding(crate::specs::Watching::gone_on))]
    fn go_on(&mut self, before: Line)
        ensures { self.new ≡ specs.gone_on before self.old }
    {
        if !self.wording.reading {
            return;
        }
        if begins_other(before, self.half.line) {
            self.wording.takes_other();
            self.naming.takes();
        }
        if matches!(self.half.line, Line::Start) {
            self.end_line(before);
        }
    }

    /// The line of a macro ends: what is wrong with its words is reported.
    fn end_line(&mut self, before: Line)
        ensures { self.new ≡ specs.line_ended before self.old }
    {
        let wrong = self.wrong(before);
        self.wording.reading = false;
        self.end_name();
        self.begins_section();
        self.tell_of_line(wrong);
    }

    /// What is wrong with the words of the line.
    fn wrong(&self, before: Line) -> Option<Kind>
        ensures { result ≡ specs.wrong before self.now }
    {
        if matches!(before, Line::Quoted(_)) {
            return Some(Kind::OpenQuote(self.wording.name));
        }
        self.wording.fault()
    }

    /// The line may begin the section of the page's name.
    fn begins_section(&mut self)
        ensures { self.new ≡ specs.section_begun self.old }
    {
        if self.wording.names_section() {
            self.naming.section = self.wording.line;
        }
    }

    /// Tells what is wrong with its words.
    fn tell_of_line(&mut self, wrong: Option<Kind>)
        ensures { self.new ≡ specs.reported_of_line wrong self.old }
    {
        if let Some(kind) = wrong {
            let line = self.wording.line;
            self.reported.report(Complaint { kind, line });
        }
    }

    /// Bytes come.
    pub fn hear_all(&mut self, bytes: &[u8])
        ensures { self.new ≡ specs.all_heard bytes.now self.old }
    {
        if self.half.is_unwatched() {
            return;
        }
        for byte in bytes {
            self.hear(*byte);
        }
    }

    /// The page ends: what is open is reported.
    pub fn finish(&mut self)
        ensures { self.new ≡ specs.finished self.old }
    {
        self.end_naming();
        report_not_ended(self.blocks.as_slice(), &mut self.reported);
        self.blocks.clear();
    }

    /// Tells what is wrong with the line.
    fn tell(&mut self, kind: Kind)
        ensures { self.new ≡ specs.reported kind self.old }
    {
        let line = self.half.number;
        self.reported.report(Complaint { kind, line });
    }

    /// A macro begins a line.
    #[tactic(auto, unfolding(crate::specs::Watching::judged))]
    fn judge(&mut self)
        ensures { self.new ≡ specs.judged self.old }
    {
        let name = self.half.name;
        let cut = self.half.cut;
        if is_macro(name.as_bytes()) {
            self.wording = Wording::of(name, self.half.number);
            self.names();
            self.begins();
        } else {
            self.tell(Kind::Unknown(name, cut));
        }
        self.half.name = Name::new();
    }

    /// It may name the page, or end the place of its name.
    fn names(&mut self)
        ensures { self.new ≡ specs.named self.old }
    {
        let name = self.half.name;
        let bytes = name.as_bytes();
        if bytes == b"Nm".as_slice() {
            self.naming.waits = true;
            self.naming.section = 0;
        } else if bytes == b"Nd".as_slice() || bytes == b"Sh".as_slice() {
            self.end_naming();
        }
    }

    /// A macro of the title comes: one that came before is told.
    fn title_if(&mut self, came: bool)
        ensures { self.new ≡ specs.title_if came self.old }
    {
        if came {
            self.tell(Kind::Again(self.half.name));
        }
    }

    /// A macro of the title comes. `.Dd` came before, as it tells that the page is one of mdoc.
    fn titles(&mut self)
        ensures { self.new ≡ specs.titles self.old }
    {
        let name = self.half.name;
        if name.as_bytes() == b"Dt".as_slice() {
            let came = self.titled;
            self.titled = true;
            self.title_if(came);
        } else if name.as_bytes() == b"Os".as_slice() {
            let came = self.system;
            self.system = true;
            self.title_if(came);
        } else {
            self.title_if(true);
        }
    }

    /// It is one that is known.
    fn begins(&mut self)
        ensures { self.new ≡ specs.begun self.old }
    {
        let name = self.half.name;
        let n = self.blocks.len();
        let bytes = name.as_bytes();
        if bytes == b"Sh".as_slice() || bytes == b"Ss".as_slice() {
            self.headed = true;
            self.breaks(n);
        } else if self.headed && is_prologue(bytes) {
            self.tell(Kind::Late(name));
        } else if is_prologue(bytes) {
            self.titles();
        } else if bytes == b"It".as_slice() {
            self.begins_item();
        } else {
            self.call();
        }
    }

    /// An item ends what was opened in the one before.
    fn begins_item(&mut self)
        ensures { self.new ≡ specs.item self.old }
    {
        let place = place_of(b"Bl", self.blocks.as_slice());
        match place {
            Some(n) => self.breaks(n),
            None => self.tell(Kind::Outside(self.half.name)),
        }
    }

    /// The macro of the line ends so many blocks that end themselves nowhere, the last that were opened.
    fn breaks(&mut self, n: usize)
        requires { n ≤ length self.old.blocks.items }
        ensures { self.new ≡ specs.broken n self.old }
    {
        let by = self.half.name;
        let line = self.half.number;
        let ended = &self.blocks.as_slice()[..n];
        report_broken(by, line, ended, &mut self.reported);
        self.blocks.remove_prefix(n);
    }

    /// A macro opens or ends a block, or does neither.
    fn call(&mut self)
        ensures { self.new ≡ specs.called self.old }
    {
        let name = self.half.name;
        if name.as_bytes() == b"Ta".as_slice() {
            self.begins_cell();
        } else if opens(name.as_bytes()) {
            self.open_block(name);
        } else if let Some(opener) = opener_of(name.as_bytes()) {
            self.end_block(opener);
        }
    }

    /// A cell stands in a list of columns.
    fn begins_cell(&mut self)
        ensures { self.new ≡ specs.cell self.old }
    {
        let inside = match place_of(b"Bl", self.blocks.as_slice()) {
            Some(place) => self.blocks.get(place).columns,
            None => false,
        };
        if !inside {
            self.tell(Kind::Outside(self.half.name));
        }
    }

    /// A block is opened.
    fn open_block(&mut self, name: Name)
        ensures { self.new ≡ specs.opened name self.old }
    {
        if self.blocks.is_full() {
            self.tell(Kind::TooMany(name));
        } else {
            let line = self.half.number;
            let columns = false;
            self.blocks.insert(
                0,
                OpenBlock {
                    name,
                    line,
                    columns,
                },
            );
        }
    }

    /// The last block that a macro opened is ended.
    fn end_block(&mut self, opener: Name)
        ensures { self.new ≡ specs.ended opener self.old }
    {
        let name = self.half.name;
        let Some(place) = place_of(opener.as_bytes(), self.blocks.as_slice()) else {
            self.tell(Kind::NotOpen(name));
            return;
        };
        if place > 0 {
            let inner = self.blocks.get(0).name;
            self.tell(Kind::Nested(opener, inner));
        }
        self.blocks.remove(place);
    }
}
