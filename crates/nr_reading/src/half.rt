//! What is half read, and what the next item does to it.
ghost use Rattle.std.specs.Prelude.{◌≡◌, ◌<◌, length, drop, true, false};
ghost use Rattle.nr_reading.specs.Half.{nothing_half, take_in};

use super::ask::{Answer, Ask, Kind, Sign};
use super::asks::Asks;
use super::delimited::Delimited;
use super::escape::Offer;
use super::event::Event;
use super::mode::{Escape, Mode, PendingAct, Reading, Signs};
use super::next_item::NextItem;
use super::notes::Notes;
use super::reader::{direct, read, read_over, unescaped};
use super::step::Jot;
use nr_units::Name;

/// What an item tells, and whether it is taken.
#[derive(Clone, Copy)]
pub struct Seen {
    /// What was read.
    pub event: Event,
    /// The item is taken.
    pub takes: bool,
}

/// What is half read.
#[derive(Drop)]
pub struct Half {
    /// Where the reader and the copier are.
    pub reading: Reading,
    /// How lines are read.
    pub signs: Signs,
    /// The escapes whose arguments are half read.
    pub asks: Asks,
    /// Their texts between delimiters.
    pub delimited: Delimited,
    /// What is noted of the line.
    pub notes: Notes,
}

/// How many names deep an interpolation may stand.
const DEEPEST: usize = 8;

impl Seen {
    // The same, put together anew: what a call answers lies in memory, and this need not.
    #[inline(always)]
    fn anew(self) -> Seen
        ensures { result ≡ self }
    {
        Seen {
            event: self.event,
            takes: self.takes,
        }
    }
}

impl Half {
    ghost use Rattle.std.specs.Prelude.{[]};
    ghost use Rattle.nr_reading.specs.Ended.{event_of};
    ghost use Rattle.nr_reading.specs.Many.InText.{is_in_text};
    ghost use Rattle.nr_reading.specs.Many.LineBeginnings.{is_at_text, text_begun, text_ended};
    ghost use Rattle.nr_reading.specs.Many.Rereading.{is_rereading};
    ghost use Rattle.nr_reading.specs.Spelled.{name_of};
    ghost use Rattle.nr_reading.specs.Step.{note_of};
    ghost use Rattle.nr_reading.specs.Half.{asking, too_deep, beginning, settled, replaced, finished, argued, longer, answered, asked_by, noted_in, taken_in_directly, taken_in_copied, hear_by, over_by, escaping, silent, offered, take_in_by, taken_in, offer_by, reads_directly, reads_plainly, reads_next};
    ghost use Rattle.nr_reading.specs.Mode.{is_direct};
    ghost use Rattle.nr_reading.specs.declared.next_item.NextItem.TheVariants as next_items;
    ghost use Rattle.nr_reading.specs.Weights.{PaysFor};

    /// Nothing is half read.
    pub fn new() -> Half
        ensures { result ≡ nothing_half }
    {
        Half {
            reading: Reading::new(),
            signs: Signs::new(),
            asks: Asks::new(),
            delimited: Delimited::new(),
            notes: Notes::new(),
        }
    }

    /// What is half read of another.
    pub fn copy_from(&mut self, other: &Half)
        ensures { self.new ≡ other.now }
    {
        self.reading = other.reading;
        self.signs = other.signs;
        self.asks.copy_from(&other.asks);
        self.delimited.copy_from(&other.delimited);
        self.notes.copy_from(&other.notes);
    }

    /// Whether the next item is read in the midst of a text line, after no part of an escape.
    #[inline]
    pub fn is_in_text(&self) -> bool
        ensures { result ≡ is_in_text self.now }
    {
        matches!(self.reading.mode, Mode::Text) && self.reads_next()
    }

    /// Whether the next item is read in the midst of a text line or at the beginning of a line, after no part of an escape.
    #[inline]
    pub fn is_at_text(&self) -> bool
        ensures { result ≡ is_at_text self.now }
    {
        matches!(self.reading.mode, Mode::Text | Mode::Start) && self.reads_next()
    }

    /// The text of the line has begun.
    #[inline]
    pub fn begin_text(&mut self)
        ensures { self.new ≡ text_begun self.old }
    {
        self.reading.mode = Mode::Text;
        self.reading.continued = false;
    }

    /// The text of the line has ended.
    #[inline]
    pub fn end_text(&mut self)
        ensures { self.new ≡ text_ended self.old }
    {
        self.reading.mode = Mode::Start;
        self.reading.continued = false;
    }

    /// Whether the next item is read in the midst of a diverted line.
    #[inline]
    pub fn is_rereading(&self) -> bool
        ensures { result ≡ is_rereading self.now }
    {
        matches!(self.reading.mode, Mode::Diverted) && self.reads_next()
    }

    // An escape whose argument is still to be read begins.
    #[inline(never)]
    fn ask(&mut self, ask: Ask)
        ensures { self.new ≡ asking ask self.old }
    {
        if ask.kind.has_text() {
            self.delimited.begin();
        }
        self.asks.push(ask);
    }

    // An interpolation that is nested too deep.
    fn refuse(&mut self, kind: Kind)
        ensures { self.new ≡ too_deep kind self.old }
    {
        match kind {
            Kind::Register(_) => {
                self.reading.pending_act = PendingAct::Register(Sign::None);
                self.notes.asked = Name::new();
            }
            _ => {}
        }
    }

    // An interpolation begins.
    fn begin(&mut self, kind: Kind)
        ensures { self.new ≡ beginning kind self.old }
    {
        let named = usize::from(self.reading.mode.reads_name());
        if self.asks.counted() + named <= DEEPEST {
            self.ask(Ask::begun(kind));
        } else {
            self.refuse(kind);
        }
    }

    // It is settled whether the element is taken.
    #[inline(always)]
    fn settle(&mut self, takes: bool, next_item: bool, event: Event) -> Seen
        ensures { taken_in self.new result ≡ settled takes next_item event self.old }
    {
        if takes {
            self.reading.escape = Escape::Plain;
            return Seen {
                event,
                takes: next_item,
            };
        }
        if matches!(self.reading.escape, Escape::Comment) {
            self.reading.escape = Escape::Plain;
        }
        Seen {
            event,
            takes: false,
        }
    }

    // The newest escape has ended.
    fn finish(&mut self, ask: Ask) -> Event
        requires { 0 < length self.old.asks }
        ensures half { self.new ≡ finished ask self.old }
        ensures event { result ≡ event_of ask.kind (name_of ask.name) }
    {
        let name = ask.name.name();
        self.reading.pending_act = ask.pending_act();
        self.asks.pop();
        if ask.kind.has_text() {
            self.delimited.end();
        }
        self.notes.asked = name;
        ask.event()
    }

    // The newest escape has answered.
    #[inline(never)]
    fn answered(&mut self, next_item: bool, answer: Answer) -> Seen
        requires { 0 < length self.old.asks }
        ensures { taken_in self.new result ≡ answered next_item answer self.old }
    {
        match answer {
            Answer::Goes(ask) => {
                self.asks.set_newest(ask);
                self.settle(true, next_item, Event::Nothing)
            }
            Answer::Turns(ask) => {
                self.asks.set_newest(ask);
                self.settle(false, next_item, Event::Nothing)
            }
            Answer::Keeps(byte) => {
                self.delimited.keep(byte);
                self.settle(true, next_item, Event::Nothing)
            }
            Answer::Ends(ask) => {
                let event = self.finish(ask);
                self.settle(true, next_item, event)
            }
            Answer::Stops(ask) => {
                let event = self.finish(ask);
                self.settle(false, next_item, event)
            }
            Answer::Argument(n) => {
                self.reading.pending_act = PendingAct::Argument(n);
                self.asks.pop();
                self.settle(true, next_item, Event::Nothing)
            }
        }
    }

    // This is noted, the reader having gone on.
    #[inline(always)]
    fn note(&mut self, note: Jot)
        ensures { self.new ≡ noted_in (note_of note) self.old }
    {
        match note {
            Jot::Nothing => {}
            Jot::Begin(begun) => self.ask(begun.ask()),
            _ => self.notes.note(note),
        }
    }

    // An element comes: to the newest escape, and else to the reader.
    fn hear(&mut self, next_item: bool, byte: u8) -> Seen
        ensures { taken_in self.new result ≡ hear_by self.old.asks next_item byte self.old }
    {
        let Some(ask) = self.asks.newest() else {
            let said = read(byte, self.signs, &self.notes, &mut self.reading);
            self.note(said.note);
            return self.settle(said.takes, next_item, said.event);
        };
        self.answered(next_item, ask.answer(byte, self.signs.long))
    }

    // What is read ends here.
    #[inline(never)]
    fn over(&mut self) -> Seen
        ensures { taken_in self.new result ≡ over_by self.old.asks self.old }
    {
        let Some(ask) = self.asks.newest() else {
            let said = read_over(self.signs, &self.notes, &mut self.reading);
            self.note(said.note);
            return self.settle(said.takes, false, said.event);
        };
        self.answered(false, ask.answer(b'\n', self.signs.long))
    }

    // The next item was offered, in copy mode.
    #[inline(always)]
    fn offered(&mut self, offer: Offer) -> Seen
        ensures { taken_in self.new result ≡ offered offer self.old }
    {
        match offer {
            Offer::Skip(escape) => {
                self.reading.escape = escape;
                Seen {
                    event: Event::Nothing,
                    takes: true,
                }
            }
            Offer::Begin(kind) => {
                self.reading.escape = Escape::Plain;
                self.begin(kind);
                Seen {
                    event: Event::Nothing,
                    takes: true,
                }
            }
            Offer::Byte(byte) => self.hear(true, byte),
            Offer::Backslash => self.hear(false, b'\\'),
            Offer::Over => self.over(),
        }
    }

    // What the next item is in copy mode.
    #[inline(always)]
    fn offer(&self, next_item: NextItem) -> Offer
        ensures { result ≡ offer_by self.now.asks next_item self.now }
    {
        let escape = self.reading.escape;
        let Some(kind) = self.asks.newest_kind() else {
            return escape.offer(next_item, self.reading.mode.reads_arguments());
        };
        if kind.is_size() {
            return escape.raw_offer(next_item);
        }
        escape.offer(next_item, kind.reads_argument())
    }

    // The next item, whatever it is.
    #[inline]
    fn take_in_item(&mut self, next_item: NextItem) -> Seen
        ensures { taken_in self.new result ≡ take_in next_item self.old }
    {
        if !self.reads_directly() {
            let offer = self.offer(next_item);
            return self.offered(offer);
        }
        let said = direct(next_item, self.signs, &mut self.reading);
        self.note(said.note);
        Seen {
            event: said.event,
            takes: said.takes,
        }
    }

    // Whether items are read as they are, after no escape whose argument is half read.
    fn reads_directly(&self) -> bool
        ensures { result ≡ reads_directly self.now }
    {
        self.asks.is_empty() && self.reading.mode.is_direct()
    }

    /// Whether an item is read next, after no part of an escape.
    #[inline(always)]
    pub(crate) fn reads_next(&self) -> bool
        ensures { result ≡ reads_next self.now }
    {
        matches!(self.reading.pending_act, PendingAct::Look) && self.reads_plainly()
    }

    // Whether no part of an escape is half read.
    #[inline(always)]
    pub(crate) fn reads_plainly(&self) -> bool
        ensures { result ≡ reads_plainly self.now }
    {
        matches!(self.reading.escape, Escape::Plain) && self.asks.is_empty()
    }

    // An item there, where items are read as they are.
    #[inline(always)]
    fn take_in_unescaped(&mut self, next_item: NextItem) -> Seen
        requires plain { reads_plainly self.old ≡ true }
        requires direct { is_direct self.old.reading.mode ≡ true }
        ensures { taken_in self.new result ≡ take_in next_item self.old }
    {
        let said = unescaped(next_item, self.signs, &mut self.reading);
        self.note(said.note);
        Seen {
            event: said.event,
            takes: said.takes,
        }
    }

    // A byte there, in copy mode.
    #[inline(always)]
    fn copy_byte(&mut self, byte: u8) -> Seen
        requires plain { reads_plainly self.old ≡ true }
        requires copied { is_direct self.old.reading.mode ≡ false }
        ensures { taken_in self.new result ≡ take_in (next_items.Byte byte) self.old }
    {
        if byte == b'\\' {
            self.reading.escape = Escape::Begun;
            return Seen {
                event: Event::Nothing,
                takes: true,
            };
        }
        let said = read(byte, self.signs, &self.notes, &mut self.reading);
        self.note(said.note);
        self.settle(said.takes, true, said.event)
    }

    /// What the next item does.
    ///
    /// Proved: What an item of the input does to what is half read is one function of plain values, whatever the item
    /// and the mode.
    /// Proved: What an item brings is paid by it or by what was half read, so no mode leaves an item for ever.
    /// (`Half::take_in`; `Half::take_in_run` in many/runs.rt)
    #[inline(never)]
    pub fn take_in(&mut self, next_item: NextItem) -> Seen
        ensures takes_in { taken_in self.new result ≡ take_in next_item self.old }
        ensures pays { self.old.reading.pending_act ≡ PendingAct.Look → PaysFor next_item self.old self.new result }
    {
        self.take_in_item(next_item)
    }

    /// What the next byte does, as a part of a loop.
    #[inline(always)]
    pub(crate) fn take_in_byte(&mut self, byte: u8) -> Seen
        ensures takes_in { taken_in self.new result ≡ take_in (next_items.Byte byte) self.old }
        ensures pays { self.old.reading.pending_act ≡ PendingAct.Look → PaysFor (next_items.Byte byte) self.old self.new result }
    {
        if !self.reads_plainly() {
            return self.take_in(NextItem::Byte(byte)).anew();
        }
        if self.reading.mode.is_direct() {
            return self.take_in_unescaped(NextItem::Byte(byte));
        }
        self.copy_byte(byte)
    }
}
