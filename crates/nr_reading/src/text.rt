//! Text lines.
ghost use Rattle.std.specs.Prelude.{◌≡◌};
ghost use Rattle.nr_reading.specs.Step.{joined};
ghost use Rattle.nr_reading.specs.Text.{begin_escape, in_text, start_blank, start_newline, start_control, start_byte, start, one_blank_more, text_after_blanks, leading_byte, leading, continued_byte, continued, is_interrupted, ended, end_event, text_byte, text};

use super::event::Event;
use super::mode::{Escape, Mode, PendingAct, Reading, Signs};
use super::next_item::NextItem;
use super::step::{Jot, Said, go, leave, leave_telling, noting, tell};

impl Reading {
    // A text line ends. Answers what that tells.
    #[inline(always)]
    fn end_line(&mut self) -> Event
        ensures reading { self.new ≡ ended self.old }
        ensures event { result ≡ end_event self.old }
    {
        let interrupted = is_interrupted(self.mode);
        self.continued = interrupted;
        self.mode = Mode::Start;
        if interrupted {
            return Event::EndInterrupted;
        }
        Event::EndLine
    }
}

/// `\c` came last.
fn is_interrupted(mode: Mode) -> bool
    ensures { result ≡ is_interrupted mode }
{
    matches!(mode, Mode::Interrupted)
}

/// A `\`.
#[inline(always)]
pub(crate) fn begin_escape(reading: &mut Reading) -> Said
    ensures { joined reading.new result ≡ begin_escape reading.old }
{
    reading.escape = Escape::Begun;
    go()
}

// What begins a line's text, or goes on in it.
#[inline(always)]
fn in_text(event: Event, reading: &mut Reading) -> Said
    ensures { joined reading.new result ≡ in_text event reading.old }
{
    reading.mode = Mode::Text;
    reading.continued = false;
    tell(event)
}

// A blank at a line's beginning.
#[inline(always)]
fn start_blank(reading: &mut Reading) -> Said
    ensures { joined reading.new result ≡ start_blank reading.old }
{
    if reading.continued {
        reading.continued = false;
        reading.mode = Mode::Continued;
        return tell(Event::Byte(b' '));
    }
    reading.mode = Mode::Leading(1);
    tell(Event::Leading)
}

// A newline at a line's beginning.
#[inline(always)]
fn start_newline(reading: &mut Reading) -> Said
    ensures { joined reading.new result ≡ start_newline reading.old }
{
    if reading.continued {
        reading.continued = false;
        return tell(Event::EndContinued);
    }
    tell(Event::Empty)
}

// A control character.
#[inline(always)]
fn start_control(no_break: bool, reading: &mut Reading) -> Said
    ensures { joined reading.new result ≡ start_control no_break reading.old }
{
    reading.mode = Mode::Control;
    reading.no_break = no_break;
    noting(Jot::NewName)
}

// A byte at a line's beginning.
#[inline(always)]
fn start_byte(byte: u8, signs: Signs, reading: &mut Reading) -> Said
    ensures { joined reading.new result ≡ start_byte byte signs reading.old }
{
    if byte == signs.control {
        return start_control(false, reading);
    }
    if byte == signs.no_break {
        return start_control(true, reading);
    }
    if byte == b'\n' {
        return start_newline(reading);
    }
    if byte == b'\\' {
        return begin_escape(reading);
    }
    if byte == b' ' {
        return start_blank(reading);
    }
    in_text(Event::Byte(byte), reading)
}

/// At the beginning of a line.
#[inline(always)]
pub(crate) fn start(next_item: NextItem, signs: Signs, reading: &mut Reading) -> Said
    ensures { joined reading.new result ≡ start next_item signs reading.old }
{
    match next_item {
        NextItem::Mark | NextItem::Resume => go(),
        NextItem::Byte(byte) => start_byte(byte, signs, reading),
        NextItem::Cell(_) | NextItem::LineEnd(_) => {
            reading.mode = Mode::Diverting;
            leave_telling(Event::Diverted)
        }
        NextItem::Over => leave_telling(Event::Over),
    }
}

// One leading blank more. The count stops at the greatest.
fn one_blank_more(count: u32) -> u32
    ensures { result ≡ one_blank_more count }
{
    count.saturating_add(1)
}

/// The text after leading blanks.
#[inline(always)]
pub(crate) fn text_after_blanks(count: u32, reading: &mut Reading) -> Said
    ensures { joined reading.new result ≡ text_after_blanks count reading.old }
{
    reading.mode = Mode::Text;
    reading.pending_act = PendingAct::Lead(count);
    leave()
}

// A byte after leading blanks.
#[inline(always)]
fn leading_byte(byte: u8, count: u32, reading: &mut Reading) -> Said
    ensures { joined reading.new result ≡ leading_byte byte count reading.old }
{
    if byte == b'\n' {
        reading.mode = Mode::Start;
        return tell(Event::Empty);
    }
    if byte == b' ' {
        reading.mode = Mode::Leading(one_blank_more(count));
        return go();
    }
    if byte == b'\\' {
        return begin_escape(reading);
    }
    text_after_blanks(count, reading)
}

/// After leading blanks.
#[inline(always)]
pub(crate) fn leading(next_item: NextItem, count: u32, reading: &mut Reading) -> Said
    ensures { joined reading.new result ≡ leading next_item count reading.old }
{
    match next_item {
        NextItem::Mark => go(),
        NextItem::Byte(byte) => leading_byte(byte, count, reading),
        NextItem::Cell(_) => text_after_blanks(count, reading),
        NextItem::LineEnd(_) => {
            reading.mode = Mode::Start;
            tell(Event::Empty)
        }
        NextItem::Resume | NextItem::Over => {
            reading.mode = Mode::Start;
            leave_telling(Event::Empty)
        }
    }
}

// A byte after the blanks of a line that continues a word.
#[inline(always)]
fn continued_byte(byte: u8, reading: &mut Reading) -> Said
    ensures { joined reading.new result ≡ continued_byte byte reading.old }
{
    if byte == b'\n' {
        reading.mode = Mode::Start;
        reading.continued = false;
        return tell(Event::EndContinued);
    }
    if byte == b' ' {
        return tell(Event::Byte(b' '));
    }
    if byte == b'\\' {
        return begin_escape(reading);
    }
    in_text(Event::Byte(byte), reading)
}

/// After the blanks of a line that continues a word.
#[inline(always)]
pub(crate) fn continued(next_item: NextItem, reading: &mut Reading) -> Said
    ensures { joined reading.new result ≡ continued next_item reading.old }
{
    match next_item {
        NextItem::Mark => go(),
        NextItem::Byte(byte) => continued_byte(byte, reading),
        NextItem::Cell(cell) => in_text(Event::Cell(cell), reading),
        NextItem::LineEnd(_) => {
            reading.mode = Mode::Start;
            reading.continued = false;
            tell(Event::EndContinued)
        }
        NextItem::Resume | NextItem::Over => {
            reading.mode = Mode::Start;
            reading.continued = false;
            leave_telling(Event::EndContinued)
        }
    }
}

// A byte in a text line.
#[inline(always)]
fn text_byte(byte: u8, reading: &mut Reading) -> Said
    ensures { joined reading.new result ≡ text_byte byte reading.old }
{
    if byte == b'\n' {
        let event = reading.end_line();
        return tell(event);
    }
    if byte == b'\\' {
        return begin_escape(reading);
    }
    reading.mode = Mode::Text;
    tell(Event::Byte(byte))
}

/// In a text line.
#[inline(always)]
pub(crate) fn text(next_item: NextItem, reading: &mut Reading) -> Said
    ensures { joined reading.new result ≡ text next_item reading.old }
{
    match next_item {
        NextItem::Mark => go(),
        NextItem::Byte(byte) => text_byte(byte, reading),
        NextItem::Cell(cell) => {
            reading.mode = Mode::Text;
            tell(Event::Cell(cell))
        }
        NextItem::LineEnd(_) => {
            let event = reading.end_line();
            tell(event)
        }
        NextItem::Resume | NextItem::Over => {
            let event = reading.end_line();
            leave_telling(event)
        }
    }
}
