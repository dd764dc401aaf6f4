//! The requests and macros outside of tables that say something of those that follow.
ghost use Rattle.std.specs.Prelude.{◌≡◌};
ghost use Rattle.tbl_setting.specs.Requests as specs;

/// What a macro of papers says.
#[derive(Clone, Copy)]
pub(crate) enum Macro {
    /// `.2C`: two columns begin.
    Halves,
    /// `.MC`: columns of a width.
    Columns,
    /// `.2c`: as many as are said.
    Parts,
    /// `.1C`, `.1c`: they end.
    Whole,
    /// `.QS`: a quote begins.
    Quote,
    /// `.QE`: it ends.
    QuoteEnd,
    /// `.(q`: one of -me begins.
    Cite,
    /// `.)q`: it ends.
    CiteEnd,
}

/// What a request says.
#[derive(Clone, Copy)]
pub(crate) enum Request {
    /// `.TH`: the page is a manual page.
    Title,
    /// `.SH`, `.SS`: a section begins.
    Section,
    /// `.PP`: a paragraph without a tag.
    Paragraph,
    /// `.IP`: one whose indent is the second word.
    Item,
    /// `.TP`: one whose indent is the first.
    Tagged,
    /// `.RS`
    Deeper,
    /// `.RE`
    Back,
    /// `.in`
    Indent,
    /// `.na`
    Ragged,
    /// `.ad`
    Adjust,
    /// `.ll`
    Length,
    /// `.nr`
    Register,
    /// `.de`, `.am`, `.ig`: the lines that follow are copied.
    Copy,
    /// One of papers.
    Paper(Macro),
    /// Nothing of tables.
    Other,
}

/// They, by their two letters; a name of one letter has 0 as its second.
static NAMES: [(u8, u8, Request); 27] = [
    (b'T', b'H', Request::Title),
    (b'S', b'H', Request::Section),
    (b'S', b'S', Request::Section),
    (b'P', b'P', Request::Paragraph),
    (b'L', b'P', Request::Paragraph),
    (b'P', 0, Request::Paragraph),
    (b'I', b'P', Request::Item),
    (b'T', b'P', Request::Tagged),
    (b'R', b'S', Request::Deeper),
    (b'R', b'E', Request::Back),
    (b'i', b'n', Request::Indent),
    (b'n', b'a', Request::Ragged),
    (b'a', b'd', Request::Adjust),
    (b'l', b'l', Request::Length),
    (b'n', b'r', Request::Register),
    (b'd', b'e', Request::Copy),
    (b'a', b'm', Request::Copy),
    (b'i', b'g', Request::Copy),
    (b'2', b'C', Request::Paper(Macro::Halves)),
    (b'M', b'C', Request::Paper(Macro::Columns)),
    (b'1', b'C', Request::Paper(Macro::Whole)),
    (b'2', b'c', Request::Paper(Macro::Parts)),
    (b'1', b'c', Request::Paper(Macro::Whole)),
    (b'Q', b'S', Request::Paper(Macro::Quote)),
    (b'Q', b'E', Request::Paper(Macro::QuoteEnd)),
    (b'(', b'q', Request::Paper(Macro::Cite)),
    (b')', b'q', Request::Paper(Macro::CiteEnd)),
];

/// What a table says of two letters.
fn looked_up(table: &[(u8, u8, Request)], first: u8, second: u8) -> Request
    ensures { result ≡ specs.looked_up table.now first second }
{
    for entry in table {
        if entry.0 == first && entry.1 == second {
            return entry.2;
        }
    }
    Request::Other
}

/// The request of two letters.
fn letters_request(first: u8, second: u8) -> Request
    ensures { result ≡ specs.letters_request first second }
{
    looked_up(&NAMES, first, second)
}

/// The request of a name.
pub(crate) fn request_of(name: &[u8]) -> Request
    ensures { result ≡ specs.request_of name.now }
{
    match name {
        [first] => letters_request(*first, 0),
        [first, second] => letters_request(*first, *second),
        _ => Request::Other,
    }
}
