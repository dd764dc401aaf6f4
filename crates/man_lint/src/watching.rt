// What is wrong with the lines of a page, reported as its bytes come.
ghost use Rattle.std.specs.Prelude.{◌≡◌, length};
ghost use Rattle.man_lint.specs.Watching as specs;

use super::calls::Call;
use super::escapes::{Escaping, Found};
use super::lines::Half;
use super::names::{
    defines, heads, is_macro, is_request, is_string, leaves, names_first, opener_of, opens,
    reads_macros, region_end,
};
use super::own_names::OwnNames;
use super::reporting::{Complaint, Kind, report_not_ended};
use filters_complaints::{Complaints, OpenBlock, place_of};
use nr_units::Name;
use nr_vectors::slice_vec::SliceVec;
use std::marker::Model;

/// How far a page came.
#[derive(Clone, Copy)]
pub struct Place {
    /// The line, from 1 on.
    pub line: u64,
    /// The line of its first macro; none if 0.
    pub begun: u64,
    /// Its title came.
    pub titled: bool,
    /// What comes is not looked at any more.
    pub left: bool,
}

/// Whether a macro ends all blocks: a heading, and the end of a block where its level is given.
fn ends_all(call: Call) -> bool
    ensures { result ≡ specs.ends_all call }
{
    let name = call.name.as_bytes();
    heads(name) || (name == b"RE".as_slice() && !call.first.is_empty())
}

impl Place {
    /// A page begins.
    pub fn new() -> Place
        ensures { result ≡ specs.first_place }
    {
        Place {
            line: 1,
            begun: 0,
            titled: false,
            left: false,
        }
    }
}

/// A page as far as it came.
#[derive(Drop)]
pub struct Watch<'a> {
    place: Place,
    half: Half,
    escaping: Escaping,
    /// The name of the line that ends a definition, or what a preprocessor reads; empty elsewhere.
    until: Name,
    names: OwnNames<'a>,
    /// Its blocks that are open, the last of them first.
    blocks: SliceVec<'a, OpenBlock>,
    reports: Complaints<'a, Complaint>,
}

impl<'a> Model for Watch<'a> {
    ghost use Rattle.man_lint.specs.Watching.{Page};

    ghost Value = { Page };

    ghost view = { λ w. record {
      place = w.place;
      half = w.half;
      escaping = w.escaping;
      until = w.until;
      names = w.names;
      blocks = w.blocks;
      reports = w.reports;
    } };
}

impl<'a> Watch<'a> {
    /// A page begins.
    pub fn over(
        names: &'a mut [Name],
        blocks: &'a mut [OpenBlock],
        complaints: &'a mut [Complaint],
    ) -> Watch<'a>
        ensures { result ≡ specs.first_page (length names.entry.now) (length blocks.entry.now) (length complaints.entry.now) }
    {
        Watch {
            place: Place::new(),
            half: Half::new(),
            escaping: Escaping::none(),
            until: Name::new(),
            names: OwnNames::over(names),
            blocks: SliceVec::over(blocks),
            reports: Complaints::over(complaints),
        }
    }

    /// What is reported.
    pub fn reports(&self) -> &Complaints<'a, Complaint>
        ensures { result.now ≡ self.now.reports }
    {
        &self.reports
    }

    /// A byte comes.
    ///
    /// Proved: What is reported of a page of man(7) is what the definition finds wrong with it: macros, requests, strings
    /// and escapes that nothing defines, ends of blocks that are not open, blocks that are not ended, and a title that is
    /// missing or late. (`Watch::hear`, `Watch::finish`; `tell_complaints` of filters_complaints writes it)
    pub fn hear(&mut self, byte: u8)
        ensures { self.new ≡ specs.heard byte self.old }
    {
        if self.place.left {
            return;
        }
        if self.half.is_comment() {
            self.take(byte);
        } else {
            self.read(byte);
        }
        if byte == b'\n' && self.place.line < u64::MAX {
            self.place.line += 1;
        }
    }

    /// Bytes come.
    pub fn hear_all(&mut self, bytes: &[u8])
        ensures { self.new ≡ specs.all_heard bytes.now self.old }
    {
        for byte in bytes {
            self.hear(*byte);
        }
    }

    /// The page ends: its last line does, and what is open is reported.
    #[tactic(auto, unfolding(crate::specs::Watching::finished))]
    pub fn finish(&mut self)
        ensures { self.new ≡ specs.finished self.old }
    {
        self.hear(b'\n');
        if self.place.left || !self.until.is_empty() {
            return;
        }
        if self.place.begun > 0 && !self.place.titled {
            let line = self.place.begun;
            self.reports.report(Complaint {
                kind: Kind::NoTitle,
                name: Name::of(b"TH"),
                line,
            });
        }
        report_not_ended(self.blocks.as_slice(), &mut self.reports);
    }

    /// A byte that is none of a comment.
    #[tactic(auto, unfolding(crate::specs::Watching::byte_read))]
    fn read(&mut self, byte: u8)
        ensures { self.new ≡ specs.byte_read byte self.old }
    {
        let escaped = self.escaping.is_begun();
        let found = self.escaping.take(byte);
        if self.until.is_empty() {
            self.judge(found, byte);
        }
        if escaped {
            self.half.take_escaped(byte);
        } else if byte != b'\\' {
            self.take(byte);
        }
    }

    /// A byte that no escape has: a newline ends the line.
    #[tactic(auto, unfolding(crate::specs::Watching::taken))]
    fn take(&mut self, byte: u8)
        ensures { self.new ≡ specs.taken byte self.old }
    {
        self.half.take(byte);
        if byte == b'\n' {
            self.end_line();
        }
    }

    /// What was found of an escape, whose last byte came.
    fn judge(&mut self, found: Found, byte: u8)
        ensures { self.new ≡ specs.judged found byte self.old }
    {
        match found {
            Found::Nothing => {}
            Found::Unknown => self.report(Kind::NoEscape, Name::of(&[b'\\', byte])),
            Found::String => self.judge_string(),
        }
    }

    /// The name of a string came.
    fn judge_string(&mut self)
        ensures { self.new ≡ specs.string_judged self.old }
    {
        let name = self.escaping.name;
        if !is_string(name.as_bytes())
            && !self.names.may_have_others()
            && !self.names.has(name.as_bytes())
        {
            self.report(Kind::NoString, name);
        }
    }

    /// The line ends: what it calls is looked at.
    fn end_line(&mut self)
        ensures { self.new ≡ specs.line_ended self.old }
    {
        let call = self.half.call;
        if !call.name.is_empty() {
            self.act(call);
        }
        self.half.call = Call::none(false);
        self.escaping = Escaping::none();
    }

    /// A line calls something.
    #[tactic(auto, unfolding(crate::specs::Watching::acted))]
    fn act(&mut self, call: Call)
        ensures { self.new ≡ specs.acted call self.old }
    {
        if self.until.is_empty() {
            self.called(call);
        } else if !call.conditional && call.name.as_bytes() == self.until.as_bytes() {
            self.until = Name::new();
        } else {
            self.give_name(call);
        }
    }

    /// A request may give a name, or all those of a file.
    #[tactic(auto, unfolding(crate::specs::Watching::name_given))]
    fn give_name(&mut self, call: Call)
        ensures { self.new ≡ specs.name_given call self.old }
    {
        if names_first(call.name.as_bytes()) {
            self.names.give(call.first, call.escaped);
        } else if call.name.as_bytes() == b"rn".as_slice() {
            self.names.give(call.second, false);
        } else if reads_macros(call.name.as_bytes()) {
            self.names.give(call.first, true);
        }
    }

    /// A line calls something outside of definitions: first a name that the page gave.
    #[tactic(auto, unfolding(crate::specs::Watching::called))]
    fn called(&mut self, call: Call)
        ensures { self.new ≡ specs.called call self.old }
    {
        let word = call.name;
        let name = word.as_bytes();
        if self.names.has(name) {
            return;
        }
        if leaves(name) {
            self.place.left = true;
        } else if is_macro(name) {
            self.begin_macro(call);
        } else if is_request(name) {
            self.begin_request(call);
        } else if !call.conditional && !self.names.may_have_others() {
            self.report(Kind::NoMacro, word);
        }
    }

    /// It is a request.
    #[tactic(auto, unfolding(crate::specs::Watching::requested))]
    fn begin_request(&mut self, call: Call)
        ensures { self.new ≡ specs.requested call self.old }
    {
        self.give_name(call);
        if defines(call.name.as_bytes()) {
            self.define_until(call.second);
        } else if call.name.as_bytes() == b"ig".as_slice() {
            self.ignore(call);
        }
    }

    /// Lines that are ignored begin. After a condition it isn't known whether they do.
    fn ignore(&mut self, call: Call)
        ensures { self.new ≡ specs.ignored call self.old }
    {
        if call.conditional {
            self.place.left = true;
        } else {
            self.define_until(call.first);
        }
    }

    /// Lines that are not looked at begin; two dots end them where no name does.
    fn define_until(&mut self, name: Name)
        ensures { self.new ≡ specs.defined_until name self.old }
    {
        self.until = if name.is_empty() {
            Name::of(b".")
        } else {
            name
        };
    }

    /// It is a macro of man(7), or one of a preprocessor.
    #[tactic(auto, unfolding(crate::specs::Watching::macro_called))]
    fn begin_macro(&mut self, call: Call)
        ensures { self.new ≡ specs.macro_called call self.old }
    {
        let word = call.name;
        let name = word.as_bytes();
        if let Some(end) = region_end(name) {
            self.until = end;
        } else if name == b"TH".as_slice() {
            self.title();
        } else {
            self.begins();
            self.begin_block(call);
        }
    }

    /// The page's title.
    fn title(&mut self)
        ensures { self.new ≡ specs.with_title self.old }
    {
        if self.place.begun > 0 && !self.place.titled {
            self.report(Kind::LateTitle, Name::of(b"TH"));
        }
        self.place.titled = true;
    }

    /// Another macro.
    fn begins(&mut self)
        ensures { self.new ≡ specs.with_macro self.old }
    {
        if self.place.begun == 0 {
            self.place.begun = self.place.line;
        }
    }

    /// A macro opens or ends a block, or does neither.
    #[tactic(auto, unfolding(crate::specs::Watching::block_called))]
    fn begin_block(&mut self, call: Call)
        ensures { self.new ≡ specs.block_called call self.old }
    {
        let word = call.name;
        let name = word.as_bytes();
        if ends_all(call) {
            self.blocks.clear();
        } else if opens(name) {
            self.open_block(word);
        } else if let Some(opener) = opener_of(name) {
            self.end_block(word, opener);
        }
    }

    /// A block is opened.
    fn open_block(&mut self, name: Name)
        ensures { self.new ≡ specs.opened name self.old }
    {
        if self.blocks.is_full() {
            self.report(Kind::TooMany, name);
        } else {
            let line = self.place.line;
            let columns = false;
            self.blocks.insert(
                0,
                OpenBlock {
                    name,
                    line,
                    columns,
                },
            );
        }
    }

    /// The last block that a macro opened is ended.
    fn end_block(&mut self, name: Name, opener: Name)
        ensures { self.new ≡ specs.ended name opener self.old }
    {
        match place_of(opener.as_bytes(), self.blocks.as_slice()) {
            Some(place) => self.blocks.remove(place),
            None => self.report(Kind::NotOpen, name),
        }
    }

    /// Reports what is wrong with a name of the line.
    fn report(&mut self, kind: Kind, name: Name)
        ensures { self.new ≡ specs.reported kind name self.old }
    {
        let line = self.place.line;
        self.reports.report(Complaint { kind, name, line });
    }
}
