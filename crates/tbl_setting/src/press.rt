//! What was read is emitted to what holds a table, and goes out.
ghost use Rattle.std.specs.Prelude.{◌≡◌, ◌++◌, [], ◌∷◌, true, false};
ghost use Rattle.tbl_drawing.specs.Pens.{Bytes};
ghost use Rattle.tbl_drawing.specs.Tapes.{Draws};
ghost use Rattle.tbl_setting.specs.Held.{table_set, table_strokes, wide_reported};
ghost use Rattle.tbl_setting.specs.Setting as specs;
ghost use Rattle.tbl_setting.specs.Setting.{Becomes, EndsAs, IsSame, Notes, wrong_in};

use super::hearing::{end_line, form_of, looks_of, tell_called};
use super::setting::Setting;
use nr_units::sink::Sink;
use nr_units::source::Fault;
use nr_vectors::slice_vec::SliceVec;
use tbl_drawing::Out;
use tbl_reader::{Complaint, Kind, ReadEnd, Setter, Tell};

/// What is set, what goes out, and what is wrong.
#[derive(Drop)]
pub(crate) struct Press<'t, 'p, 'k, 'c, W: Sink> {
    pub setting: &'t mut Setting,
    pub out: Out<'p, W>,
    pub complaints: &'k mut SliceVec<'c, Complaint>,
    /// There were more complaints than there was room for.
    pub missed: bool,
}

impl<'t, 'p, 'k, 'c, W: Sink> Press<'t, 'p, 'k, 'c, W> {
    /// The rows that were read go out, if they take all the room that there is.
    fn relieve(&mut self)
        ensures draws { Draws self.old.out self.new.out (specs.relief self.old.setting.now) }
        ensures setting { Becomes self.old.setting self.new.setting (specs.relieved self.old.setting.now) }
        ensures complaints { IsSame self.old.complaints self.old.missed self.new.complaints self.new.missed }
    {
        if self.setting.table().is_tight() {
            self.setting.put_table(false, &mut self.out);
        }
    }

    /// A byte of a block. Where there is no room for it the row ends, and the block goes on in the next.
    fn add_block_byte(&mut self, byte: u8)
        ensures draws { Draws self.old.out self.new.out (specs.room_strokes self.old.setting.now) }
        ensures setting { Becomes self.old.setting self.new.setting (specs.block_byte byte self.old.setting.now) }
        ensures complaints { IsSame self.old.complaints self.old.missed self.new.complaints self.new.missed }
    {
        self.make_room();
        self.setting.add_byte(byte);
    }

    /// There is room for a byte of a block.
    fn make_room(&mut self)
        ensures draws { Draws self.old.out self.new.out (specs.room_strokes self.old.setting.now) }
        ensures setting { Becomes self.old.setting self.new.setting (specs.room_made self.old.setting.now) }
        ensures complaints { IsSame self.old.complaints self.old.missed self.new.complaints self.new.missed }
    {
        if self.setting.table().is_full() {
            self.divide_block();
        }
    }

    /// The row ends with what was read of a block, and goes out; the block goes on below it.
    fn divide_block(&mut self)
        ensures draws { Draws self.old.out self.new.out
            (table_strokes false (specs.cut_off self.old.setting.now)) }
        ensures setting { Becomes self.old.setting self.new.setting (specs.divided self.old.setting.now) }
        ensures complaints { IsSame self.old.complaints self.old.missed self.new.complaints self.new.missed }
    {
        let column = self.setting.table().row_len();
        self.setting.cut_off();
        self.setting.put_table(false, &mut self.out);
        self.setting.go_on(column);
    }

    /// A part of a block.
    fn add_block(&mut self, text: &[u8])
        ensures draws { Draws self.old.out self.new.out (specs.block_strokes text.now self.old.setting.now) }
        ensures setting { Becomes self.old.setting self.new.setting
            (specs.block_added text.now self.old.setting.now) }
        ensures complaints { IsSame self.old.complaints self.old.missed self.new.complaints self.new.missed }
    {
        for byte in text {
            self.add_block_byte(*byte);
        }
    }

    /// A table that went out is reported, if it is wider than the line.
    fn tell_wide(&mut self)
        ensures out { self.new.out ≡ self.old.out }
        ensures setting { self.new.setting ≡ self.old.setting }
        ensures notes { Notes self.old.complaints self.new.complaints self.old.missed self.new.missed
            (wide_reported self.old.setting.now) }
    {
        if self.setting.wide {
            self.note(Complaint {
                kind: Kind::TooWide,
                line: self.setting.begun,
            });
        }
    }

    /// The table ends: it goes out, or what wasn't put out of it.
    fn end_table(&mut self)
        ensures draws { Draws self.old.out self.new.out (table_strokes true self.old.setting.now) }
        ensures setting { Becomes self.old.setting self.new.setting (table_set true self.old.setting.now) }
        ensures notes { Notes self.old.complaints self.new.complaints self.old.missed self.new.missed
            (specs.end_reported self.old.setting.now) }
    {
        self.setting.put_table(true, &mut self.out);
        self.tell_wide();
    }

    /// The rows that were read go out, if there are some, and the table ends.
    fn ends_begun(&mut self)
        ensures draws { Draws self.old.out self.new.out (specs.begun_strokes self.old.setting.now) }
        ensures setting { Becomes self.old.setting self.new.setting (specs.begun_ended self.old.setting.now) }
        ensures notes { Notes self.old.complaints self.new.complaints self.old.missed self.new.missed
            (specs.begun_reported self.old.setting.now) }
    {
        if self.setting.layout.has_begun() {
            self.end_table();
        }
    }

    /// The table isn't set further.
    fn stands(&mut self)
        ensures draws { Draws self.old.out self.new.out (specs.begun_strokes self.old.setting.now
            ++ Bytes specs.plain_begin ∷ []) }
        ensures setting { Becomes self.old.setting self.new.setting (specs.begun_ended self.old.setting.now) }
        ensures notes { Notes self.old.complaints self.new.complaints self.old.missed self.new.missed
            (specs.begun_reported self.old.setting.now) }
    {
        self.ends_begun();
        let _ = self.out.put(b".br\n.nr *u \\n(.u\n.nf\n");
    }

    /// A row has ended, a rule across the table, or a request.
    fn ends_line(&mut self, tell: Tell, text: &[u8])
        ensures draws { Draws self.old.out self.new.out
            (specs.relief (specs.line_set tell text.now self.old.setting.now)) }
        ensures setting { Becomes self.old.setting self.new.setting
            (specs.relieved (specs.line_set tell text.now self.old.setting.now)) }
        ensures complaints { IsSame self.old.complaints self.old.missed self.new.complaints self.new.missed }
    {
        end_line(tell, text, &mut self.setting.layout.grid.table);
        self.relieve();
    }

    /// Something is wrong.
    fn note(&mut self, complaint: Complaint)
        ensures out { self.new.out ≡ self.old.out }
        ensures setting { self.new.setting ≡ self.old.setting }
        ensures notes { Notes self.old.complaints self.new.complaints self.old.missed self.new.missed
            (complaint ∷ []) }
    {
        if self.complaints.is_full() {
            self.missed = true;
        } else {
            self.complaints.push(complaint);
        }
    }

    /// What was read is set, or goes out.
    #[inline(always)]
    fn hear(&mut self, tell: Tell, text: &[u8])
        ensures draws { Draws self.old.out self.new.out (specs.strokes_in tell text.now self.old.setting.now) }
        ensures setting { Becomes self.old.setting self.new.setting
            (specs.set_in tell text.now self.old.setting.now) }
        ensures notes { Notes self.old.complaints self.new.complaints self.old.missed self.new.missed
            (wrong_in tell self.old.setting.now) }
    {
        match tell {
            Tell::Pass => {
                self.setting.hear(text);
                let _ = self.out.put(text);
            }
            Tell::PlainEnd => {
                let _ = self.out.put(b".if \\n(*u .fi\n");
            }
            Tell::TableEnd => self.end_table(),
            Tell::Plain => self.stands(),
            Tell::Row => self.ends_line(tell, text),
            Tell::Rule => self.ends_line(tell, text),
            Tell::Request => self.ends_line(tell, text),
            Tell::BlockText => self.add_block(text),
            Tell::Wrong(complaint) => self.note(complaint),
            Tell::Table(line) => self.setting.begin_table(line),
            Tell::Options(options) => self.setting.layout.grid.table.set_looks(looks_of(options)),
            Tell::Formats => self.setting.layout.grid.table.formats_begin(),
            Tell::Format(called) => tell_called(called, &mut self.setting.layout.grid.table),
            Tell::FormatsEnd => self.setting.layout.grid.table.formats_end(),
            Tell::Field(prefix) => self.setting.layout.grid.table.add_field(text, prefix),
            Tell::Mark(mark) => self.setting.layout.grid.table.add_mark(form_of(mark)),
            Tell::Block => self.setting.layout.grid.table.text_begins(),
            Tell::BlockEnd => self.setting.layout.grid.table.block_ends(),
        }
    }

    /// All that waits goes out, and the run has ended so.
    pub(crate) fn ends(&mut self, outcome: ReadEnd) -> ReadEnd
        ensures draws { Draws self.old.out self.new.out (Bytes [] ∷ []) }
        ensures setting { self.new.setting ≡ self.old.setting }
        ensures ends { EndsAs outcome result self.new.out }
        ensures complaints { IsSame self.old.complaints self.old.missed self.new.complaints self.new.missed }
    {
        match self.out.flush() {
            Ok(()) => outcome,
            Err(Fault) => ReadEnd::WriteFault,
        }
    }
}

impl<'t, 'p, 'k, 'c, W: Sink> Setter for Press<'t, 'p, 'k, 'c, W> {
    ghost use Rattle.tbl_setting.specs.Setting.{Shown, Shows, hears};

    ghost Shown = { Shown };

    ghost shows = { λ p s. Shows p.out p.setting p.complaints p.missed s };

    ghost hears = { hears };

    ghost failed = { λ p. p.out.failed };

    #[inline(always)]
    fn tell(&mut self, tell: Tell, text: &[u8]) {
        self.hear(tell, text);
    }

    fn has_failed(&self) -> bool {
        self.out.returned().is_err()
    }
}
