//! What the reader does with an item, by its mode.
ghost use Rattle.std.specs.Prelude.{◌≡◌};
ghost use Rattle.nr_reading.specs.Step.{joined};
ghost use Rattle.nr_reading.specs.Reader.{read, read_over, unescaped, after_backslash, ends_comment, direct};

use super::conditions::{read_condition, read_first, read_number, read_second};
use super::control::{
    read_control, read_drop, read_macro_blanks, read_macro_gap, read_name, read_quote, read_quoted,
    read_request_blanks, read_request_line, read_word,
};
use super::definitions::read_body_end;
use super::mode::{Escape, Mode, Reading, Signs};
use super::next_item::NextItem;
use super::notes::Notes;
use super::skipping::{accepted, accepted_escape, diverted, diverting, skip, skip_escape};
use super::step::{Said, go};
use super::strings::{
    read_string_before, read_string_blanks, read_string_name, read_string_text, read_transparent,
};
use super::text::{continued, leading, start, text};
use super::text_escape::escaped;
use super::titles::{before_title, read_title_rest, title};

/// A copied element comes.
#[inline(always)]
pub(crate) fn read(byte: u8, signs: Signs, notes: &Notes, reading: &mut Reading) -> Said
    ensures { joined reading.new result ≡ read byte signs notes.now reading.old }
{
    match reading.mode {
        Mode::Control => read_control(byte, reading),
        Mode::Name => read_name(byte, signs.long, &notes.name, reading),
        Mode::Drop => read_drop(byte, reading),
        Mode::TitleRest => read_title_rest(byte, reading),
        Mode::RequestBlanks => read_request_blanks(byte, reading),
        Mode::RequestLine => read_request_line(byte, reading),
        Mode::MacroBlanks => read_macro_blanks(byte, reading),
        Mode::MacroGap => read_macro_gap(byte, reading),
        Mode::Word => read_word(byte, reading),
        Mode::Quoted => read_quoted(byte, reading),
        Mode::Quote => read_quote(byte, reading),
        Mode::StringBefore => read_string_before(byte, reading),
        Mode::StringName => read_string_name(byte, signs.long, &notes.name, reading),
        Mode::StringBlanks => read_string_blanks(byte, reading),
        Mode::StringText => read_string_text(byte, reading),
        Mode::BodyStart(held) => notes.defining.read_body_start(byte, held, reading),
        Mode::Body => notes.defining.read_body(byte, reading),
        Mode::BodyEnd => read_body_end(byte, reading),
        Mode::Condition => read_condition(byte, notes.condition.negated, reading),
        Mode::Number(depth) => read_number(byte, depth, reading),
        Mode::First(delimiter) => read_first(byte, delimiter, notes.condition, reading),
        Mode::Second(delimiter) => read_second(byte, delimiter, notes.condition, reading),
        Mode::Transparent => read_transparent(byte, reading),
        _ => go(),
    }
}

/// A resume mark or the empty list comes where elements are copied.
pub(crate) fn read_over(signs: Signs, notes: &Notes, reading: &mut Reading) -> Said
    ensures { joined reading.new result ≡ read_over signs notes.now reading.old }
{
    match reading.mode {
        Mode::BodyStart(held) => notes.defining.over_body_start(held, reading),
        _ => read(b'\n', signs, notes, reading),
    }
}

/// An item as it is.
#[inline(always)]
pub(crate) fn unescaped(next_item: NextItem, signs: Signs, reading: &mut Reading) -> Said
    ensures { joined reading.new result ≡ unescaped reading.old.mode next_item signs reading.old }
{
    match reading.mode {
        Mode::Diverting => diverting(next_item, signs, reading),
        Mode::Leading(count) => leading(next_item, count, reading),
        Mode::Continued => continued(next_item, reading),
        Mode::Text | Mode::Interrupted => text(next_item, reading),
        Mode::TitleBefore => before_title(next_item, reading),
        Mode::Title(delimiter, part) => title(next_item, delimiter, part, reading),
        Mode::Diverted => diverted(next_item, reading),
        Mode::Accepted => accepted(next_item, reading),
        Mode::Skip(count) => skip(next_item, count, reading),
        _ => start(next_item, signs, reading),
    }
}

// An item after a `\`.
fn after_backslash(next_item: NextItem, signs: Signs, reading: &mut Reading) -> Said
    ensures { joined reading.new result ≡ after_backslash reading.old.mode next_item signs reading.old }
{
    match reading.mode {
        Mode::Accepted => accepted_escape(next_item, reading),
        Mode::Skip(count) => skip_escape(next_item, count, reading),
        _ => escaped(next_item, signs.long, reading),
    }
}

// A comment ends before the item.
fn ends_comment(next_item: NextItem) -> bool
    ensures { result ≡ ends_comment next_item }
{
    match next_item {
        NextItem::Mark | NextItem::Cell(_) => false,
        NextItem::Byte(byte) => byte == b'\n',
        _ => true,
    }
}

/// An item where items are read as they are.
pub(crate) fn direct(next_item: NextItem, signs: Signs, reading: &mut Reading) -> Said
    ensures { joined reading.new result ≡ direct next_item signs reading.old }
{
    match reading.escape {
        Escape::Plain => unescaped(next_item, signs, reading),
        Escape::Begun => after_backslash(next_item, signs, reading),
        Escape::Comment => {
            if ends_comment(next_item) {
                reading.escape = Escape::Plain;
                return unescaped(next_item, signs, reading);
            }
            go()
        }
    }
}
