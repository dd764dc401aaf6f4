//! Copy mode and argument mode: what the next item is.
ghost use Rattle.std.specs.Prelude.{◌≡◌};
ghost use Rattle.nr_reading.specs.Escape.{escaped, offer_byte, offer, raw_offer};

use super::ask::{Kind, Sign};
use super::mode::Escape;
use super::next_item::NextItem;

/// What the next item is in copy mode.
#[derive(Clone, Copy)]
pub(crate) enum Offer {
    /// It is taken, and gives no element.
    Skip(Escape),
    /// It is taken, and an interpolation begins.
    Begin(Kind),
    /// It is this element.
    Byte(u8),
    /// The `\` before it is an element, and it stays.
    Backslash,
    /// What is read ends here.
    Over,
}

// A byte after `\`.
fn escaped(byte: u8, argument: bool) -> Offer
    ensures { result ≡ escaped byte argument }
{
    match byte {
        b'\\' => Offer::Byte(b'\\'),
        b'.' => Offer::Byte(b'.'),
        b't' => Offer::Byte(b'\t'),
        b'a' => Offer::Byte(1),
        b'\n' => Offer::Skip(Escape::Plain),
        b'"' => Offer::Skip(Escape::Comment),
        b'*' => Offer::Begin(Kind::String),
        b'$' => Offer::Begin(Kind::Argument),
        b'n' => Offer::Begin(Kind::Register(Sign::None)),
        b'w' if argument => Offer::Begin(Kind::Width),
        _ => Offer::Backslash,
    }
}

impl Escape {
    // A byte, by what of an escape was read.
    #[inline(always)]
    fn offer_byte(self, byte: u8, argument: bool) -> Offer
        ensures { result ≡ offer_byte byte self argument }
    {
        match self {
            Escape::Plain => {
                if byte == b'\\' {
                    return Offer::Skip(Escape::Begun);
                }
                Offer::Byte(byte)
            }
            Escape::Begun => escaped(byte, argument),
            Escape::Comment => {
                if byte == b'\n' {
                    return Offer::Byte(b'\n');
                }
                Offer::Skip(Escape::Comment)
            }
        }
    }

    /// What the next item is; in argument mode a width is interpolated too.
    #[inline(always)]
    pub(crate) fn offer(self, next_item: NextItem, argument: bool) -> Offer
        ensures { result ≡ offer next_item self argument }
    {
        match next_item {
            NextItem::Mark => Offer::Skip(self),
            NextItem::Byte(byte) => self.offer_byte(byte, argument),
            NextItem::Cell(cell) => match self {
                Escape::Plain => Offer::Byte(cell.byte),
                Escape::Begun => Offer::Backslash,
                Escape::Comment => Offer::Skip(Escape::Comment),
            },
            NextItem::LineEnd(_) => match self {
                Escape::Begun => Offer::Backslash,
                _ => Offer::Byte(b'\n'),
            },
            NextItem::Resume | NextItem::Over => match self {
                Escape::Begun => Offer::Backslash,
                _ => Offer::Over,
            },
        }
    }

    /// What it is where it is read as it stands.
    pub(crate) fn raw_offer(self, next_item: NextItem) -> Offer
        ensures { result ≡ raw_offer next_item self }
    {
        match next_item {
            NextItem::Mark => Offer::Skip(self),
            NextItem::Byte(byte) => Offer::Byte(byte),
            _ => Offer::Over,
        }
    }
}
