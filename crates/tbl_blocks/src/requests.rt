//! The requests and macros of a block that are set here (tbl(1), TEXT BLOCKS).
ghost use Rattle.std.specs.Prelude.{◌≡◌};
ghost use Rattle.tbl_blocks.specs.Requests as specs;

use super::parts::Font;

/// What a request does.
#[derive(Clone, Copy)]
pub(crate) enum Request {
    /// A line ends.
    Break,
    /// Empty lines follow.
    Space,
    /// Full lines are not spread.
    Ragged,
    /// They are, or not, as it says.
    Adjust,
    /// The font.
    Font,
    /// Lines stay as they are.
    Keep,
    /// They are filled.
    Fill,
    /// A paragraph begins.
    Paragraph,
    /// One that begins with a tag, the first word.
    Item,
    /// One whose next line is a tag.
    Tagged,
    /// One whose first line hangs.
    Hanging,
    /// The indent.
    Indent,
    /// A deeper indent.
    Deeper,
    /// The indent before that.
    Back,
    /// Its words are in this font; without words the next line is.
    Face(Font),
    /// Its words are joined, in these fonts in turn.
    Faces(Font, Font),
    /// An address, the first word, that stands after a text.
    Address,
    /// The text ends, and the words follow its address.
    AddressEnd,
    /// It defines what may print, or asks for it.
    Defines,
    /// It does nothing to words and lines here.
    Nothing,
    /// It would, and is not set here.
    Unset,
    /// It is not known.
    Unknown,
}

/// The requests by their two letters; a name of one letter has 0 as its second.
static NAMES: [(u8, u8, Request); 65] = [
    (b'b', b'r', Request::Break),
    (b's', b'p', Request::Space),
    (b'n', b'a', Request::Ragged),
    (b'a', b'd', Request::Adjust),
    (b'f', b't', Request::Font),
    (b'n', b'f', Request::Keep),
    (b'E', b'X', Request::Keep),
    (b'f', b'i', Request::Fill),
    (b'E', b'E', Request::Fill),
    (b'P', b'P', Request::Paragraph),
    (b'L', b'P', Request::Paragraph),
    (b'P', 0, Request::Paragraph),
    (b'Q', b'P', Request::Paragraph),
    (b'X', b'P', Request::Paragraph),
    (b'I', b'P', Request::Item),
    (b'T', b'P', Request::Tagged),
    (b'T', b'Q', Request::Tagged),
    (b'H', b'P', Request::Hanging),
    (b'i', b'n', Request::Indent),
    (b'R', b'S', Request::Deeper),
    (b'R', b'E', Request::Back),
    (b'B', 0, Request::Face(Font::Bold)),
    (b'S', b'B', Request::Face(Font::Bold)),
    (b'I', 0, Request::Face(Font::Italic)),
    (b'R', 0, Request::Face(Font::Roman)),
    (b'S', b'M', Request::Face(Font::Roman)),
    (b'C', b'W', Request::Face(Font::Roman)),
    (b'B', b'R', Request::Faces(Font::Bold, Font::Roman)),
    (b'B', b'I', Request::Faces(Font::Bold, Font::Italic)),
    (b'I', b'R', Request::Faces(Font::Italic, Font::Roman)),
    (b'I', b'B', Request::Faces(Font::Italic, Font::Bold)),
    (b'R', b'B', Request::Faces(Font::Roman, Font::Bold)),
    (b'R', b'I', Request::Faces(Font::Roman, Font::Italic)),
    (b'U', b'R', Request::Address),
    (b'M', b'T', Request::Address),
    (b'U', b'E', Request::AddressEnd),
    (b'M', b'E', Request::AddressEnd),
    (b'd', b's', Request::Defines),
    (b'a', b's', Request::Defines),
    (b'n', b'r', Request::Defines),
    (b'r', b'r', Request::Defines),
    (b'r', b'm', Request::Defines),
    (b'a', b'f', Request::Defines),
    (b'i', b'f', Request::Defines),
    (b'i', b'e', Request::Defines),
    (b'e', b'l', Request::Defines),
    (0, 0, Request::Nothing),
    (b'n', b'h', Request::Nothing),
    (b'h', b'y', Request::Nothing),
    (b'n', b'e', Request::Nothing),
    (b'p', b's', Request::Nothing),
    (b'v', b's', Request::Nothing),
    (b'h', b'w', Request::Nothing),
    (b'n', b's', Request::Nothing),
    (b'r', b's', Request::Nothing),
    (b'c', b'p', Request::Nothing),
    (b'l', b'f', Request::Nothing),
    (b'l', b'l', Request::Unset),
    (b't', b'a', Request::Unset),
    (b't', b'i', Request::Unset),
    (b'c', b'e', Request::Unset),
    (b'l', b's', Request::Unset),
    (b'P', b'D', Request::Nothing),
    (b'D', b'T', Request::Nothing),
    (b'c', b's', Request::Unset),
];

/// What a table says of two letters.
fn looked_up(table: &[(u8, u8, Request)], first: u8, second: u8) -> Request
    ensures { result ≡ specs.looked_up table.now first second }
{
    for entry in table {
        if entry.0 == first && entry.1 == second {
            return entry.2;
        }
    }
    Request::Unknown
}

/// The request of two letters.
fn letters_request(first: u8, second: u8) -> Request
    ensures { result ≡ specs.letters_request first second }
{
    looked_up(&NAMES, first, second)
}

/// The request of a name.
pub(crate) fn request_of(name: &[u8]) -> Request
    ensures { result ≡ specs.request_of name.now }
{
    let Some((first, rest)) = name.split_first() else {
        return letters_request(0, 0);
    };
    let Some((second, more)) = rest.split_first() else {
        return letters_request(*first, 0);
    };
    if more.is_empty() {
        letters_request(*first, *second)
    } else {
        Request::Unknown
    }
}

impl Request {
    /// Whether it is set, or changes nothing here.
    pub(crate) fn is_set(self) -> bool
        ensures { result ≡ specs.is_set self }
    {
        !matches!(self, Request::Unset | Request::Unknown)
    }
}
