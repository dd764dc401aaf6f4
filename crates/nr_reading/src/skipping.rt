//! Accepted and rejected parts of conditionals, and diverted lines.
ghost use Rattle.std.specs.Prelude.{◌≡◌};
ghost use Rattle.nr_reading.specs.Step.{joined};
ghost use Rattle.nr_reading.specs.Skipping.{accepted_byte, accepted, accepted_escape, past_newline, skip_byte, skip, braces, skip_escape, diverted, diverting};

use super::event::Event;
use super::mode::{Escape, Mode, Reading, Signs};
use super::next_item::NextItem;
use super::spelled::is_blank;
use super::step::{Said, go, leave, leave_telling, tell};
use super::text::{begin_escape, start};

// A byte after an accepted condition.
#[inline(always)]
fn accepted_byte(byte: u8, reading: &mut Reading) -> Said
    ensures { joined reading.new result ≡ accepted_byte byte reading.old }
{
    if is_blank(byte) {
        return go();
    }
    if byte == b'\n' {
        reading.mode = Mode::Start;
        return go();
    }
    if byte == b'\\' {
        return begin_escape(reading);
    }
    reading.mode = Mode::Start;
    leave()
}

/// After an accepted condition.
#[inline(always)]
pub(crate) fn accepted(next_item: NextItem, reading: &mut Reading) -> Said
    ensures { joined reading.new result ≡ accepted next_item reading.old }
{
    match next_item {
        NextItem::Mark => go(),
        NextItem::Byte(byte) => accepted_byte(byte, reading),
        _ => {
            reading.mode = Mode::Start;
            leave()
        }
    }
}

/// After an accepted condition and `\`.
pub(crate) fn accepted_escape(next_item: NextItem, reading: &mut Reading) -> Said
    ensures { joined reading.new result ≡ accepted_escape next_item reading.old }
{
    match next_item {
        NextItem::Mark => go(),
        NextItem::Byte(byte) => {
            if byte == b'{' {
                reading.escape = Escape::Plain;
                return go();
            }
            reading.mode = Mode::Start;
            leave()
        }
        _ => {
            reading.mode = Mode::Start;
            leave()
        }
    }
}

// A newline in a rejected part.
#[inline(always)]
fn past_newline(count: u64, reading: &mut Reading) -> Said
    ensures { joined reading.new result ≡ past_newline count reading.old }
{
    if count == 0 {
        reading.mode = Mode::Start;
        return go();
    }
    go()
}

// A byte in a rejected part.
#[inline(always)]
fn skip_byte(byte: u8, count: u64, reading: &mut Reading) -> Said
    ensures { joined reading.new result ≡ skip_byte byte count reading.old }
{
    if byte == b'\n' {
        return past_newline(count, reading);
    }
    if byte == b'\\' {
        return begin_escape(reading);
    }
    go()
}

/// In a rejected part.
#[inline(always)]
pub(crate) fn skip(next_item: NextItem, count: u64, reading: &mut Reading) -> Said
    ensures { joined reading.new result ≡ skip next_item count reading.old }
{
    match next_item {
        NextItem::Mark | NextItem::Cell(_) => go(),
        NextItem::Byte(byte) => skip_byte(byte, count, reading),
        NextItem::LineEnd(_) => past_newline(count, reading),
        NextItem::Resume | NextItem::Over => {
            reading.mode = Mode::Start;
            leave()
        }
    }
}

// The braces that are open after `\` and a byte.
#[inline(always)]
pub(crate) fn braces(byte: u8, count: u64) -> u64
    ensures { result ≡ braces byte count }
{
    match byte {
        b'{' => count.saturating_add(1),
        b'}' => count.saturating_sub(1),
        _ => count,
    }
}

/// In a rejected part, after `\`.
pub(crate) fn skip_escape(next_item: NextItem, count: u64, reading: &mut Reading) -> Said
    ensures { joined reading.new result ≡ skip_escape next_item count reading.old }
{
    match next_item {
        NextItem::Mark => go(),
        NextItem::Byte(byte) => {
            reading.mode = Mode::Skip(braces(byte, count));
            reading.escape = Escape::Plain;
            go()
        }
        NextItem::Cell(_) | NextItem::LineEnd(_) => {
            reading.escape = Escape::Plain;
            go()
        }
        NextItem::Resume | NextItem::Over => {
            reading.mode = Mode::Start;
            reading.escape = Escape::Plain;
            leave()
        }
    }
}

/// In a diverted line.
#[inline(always)]
pub(crate) fn diverted(next_item: NextItem, reading: &mut Reading) -> Said
    ensures { joined reading.new result ≡ diverted next_item reading.old }
{
    match next_item {
        NextItem::Mark => go(),
        NextItem::Cell(cell) => tell(Event::DivertedCell(cell)),
        NextItem::LineEnd(height) => {
            reading.mode = Mode::Start;
            tell(Event::DivertedEnd(Some(height)))
        }
        _ => {
            reading.mode = Mode::Start;
            leave_telling(Event::DivertedEnd(None))
        }
    }
}

/// At the beginning of a line that may be a diverted one.
#[inline(always)]
pub(crate) fn diverting(next_item: NextItem, signs: Signs, reading: &mut Reading) -> Said
    ensures { joined reading.new result ≡ diverting next_item signs reading.old }
{
    match next_item {
        NextItem::Cell(cell) => {
            reading.mode = Mode::Diverted;
            tell(Event::DivertedCell(cell))
        }
        NextItem::LineEnd(height) => {
            reading.mode = Mode::Start;
            tell(Event::DivertedEnd(Some(height)))
        }
        _ => start(next_item, signs, reading),
    }
}
