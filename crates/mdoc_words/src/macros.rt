//! The table of macros.
ghost use Rattle.std.specs.Prelude.{◌≡◌, is_some};
ghost use Rattle.mdoc_words.specs.Macros as specs;

use mdoc_layout::{Font, Macro, Pair, System};

/// The macros with names of two bytes, and the requests that are of account here.
static NAMES: [(u8, u8, Macro); 110] = [
    (b'A', b'c', Macro::Closes(Pair::Angles)),
    (b'A', b'd', Macro::Words(Font::Italic)),
    (b'A', b'n', Macro::Author),
    (b'A', b'o', Macro::Opens(Pair::Angles)),
    (b'A', b'p', Macro::Apostrophe),
    (b'A', b'q', Macro::Encloses(Pair::Angles)),
    (b'A', b'r', Macro::Argument),
    (b'A', b't', Macro::Att),
    (b'B', b'c', Macro::Closes(Pair::Brackets)),
    (b'B', b'd', Macro::Display),
    (b'B', b'f', Macro::FontBegins),
    (b'B', b'k', Macro::Keeps),
    (b'B', b'l', Macro::List),
    (b'B', b'o', Macro::Opens(Pair::Brackets)),
    (b'B', b'q', Macro::Encloses(Pair::Brackets)),
    (b'B', b't', Macro::Stands(System::Beta)),
    (b'B', b'x', Macro::Bsd),
    (b'C', b'd', Macro::Configuration),
    (b'C', b'm', Macro::Words(Font::Bold)),
    (b'D', b'1', Macro::Line),
    (b'D', b'b', Macro::Silent),
    (b'D', b'c', Macro::Closes(Pair::DoubleQuotes)),
    (b'D', b'd', Macro::Date),
    (b'D', b'l', Macro::LiteralLine),
    (b'D', b'o', Macro::Opens(Pair::DoubleQuotes)),
    (b'D', b'q', Macro::Encloses(Pair::DoubleQuotes)),
    (b'D', b't', Macro::Title),
    (b'D', b'v', Macro::Words(Font::Roman)),
    (b'D', b'x', Macro::Stands(System::DragonFly)),
    (b'E', b'c', Macro::OwnCloses),
    (b'E', b'd', Macro::DisplayEnds),
    (b'E', b'f', Macro::FontEnds),
    (b'E', b'k', Macro::KeepEnds),
    (b'E', b'l', Macro::ListEnds),
    (b'E', b'm', Macro::Words(Font::Italic)),
    (b'E', b'n', Macro::Words(Font::Roman)),
    (b'E', b'o', Macro::OwnOpens),
    (b'E', b'r', Macro::Words(Font::Roman)),
    (b'E', b's', Macro::Silent),
    (b'E', b'v', Macro::Words(Font::Roman)),
    (b'E', b'x', Macro::Exits),
    (b'F', b'a', Macro::Parameter),
    (b'F', b'c', Macro::FunctionCloses),
    (b'F', b'd', Macro::Declaration),
    (b'F', b'l', Macro::Flag),
    (b'F', b'n', Macro::Function),
    (b'F', b'o', Macro::FunctionOpens),
    (b'F', b'r', Macro::Words(Font::Italic)),
    (b'F', b't', Macro::ResultType),
    (b'F', b'x', Macro::Stands(System::FreeBsd)),
    (b'H', b'f', Macro::Plain),
    (b'I', b'c', Macro::Words(Font::Bold)),
    (b'I', b'n', Macro::Include),
    (b'I', b't', Macro::Item),
    (b'L', b'b', Macro::Library),
    (b'L', b'i', Macro::Words(Font::Roman)),
    (b'L', b'k', Macro::Link),
    (b'L', b'p', Macro::Paragraph),
    (b'M', b's', Macro::Words(Font::Bold)),
    (b'M', b't', Macro::Mail),
    (b'N', b'd', Macro::Describes),
    (b'N', b'm', Macro::Name),
    (b'N', b'o', Macro::Words(Font::Roman)),
    (b'N', b's', Macro::Joins),
    (b'N', b'x', Macro::Stands(System::NetBsd)),
    (b'O', b'c', Macro::Closes(Pair::Brackets)),
    (b'O', b'o', Macro::Opens(Pair::Brackets)),
    (b'O', b'p', Macro::Encloses(Pair::Brackets)),
    (b'O', b's', Macro::System),
    (b'O', b't', Macro::Words(Font::Italic)),
    (b'O', b'x', Macro::Stands(System::OpenBsd)),
    (b'P', b'a', Macro::Path),
    (b'P', b'c', Macro::Closes(Pair::Parentheses)),
    (b'P', b'f', Macro::Prefix),
    (b'P', b'o', Macro::Opens(Pair::Parentheses)),
    (b'P', b'p', Macro::Paragraph),
    (b'P', b'q', Macro::Encloses(Pair::Parentheses)),
    (b'Q', b'c', Macro::Closes(Pair::PlainQuotes)),
    (b'Q', b'l', Macro::Encloses(Pair::SingleQuotes)),
    (b'Q', b'o', Macro::Opens(Pair::PlainQuotes)),
    (b'Q', b'q', Macro::Encloses(Pair::PlainQuotes)),
    (b'R', b'e', Macro::BookEnds),
    (b'R', b's', Macro::Book),
    (b'R', b'v', Macro::Returns),
    (b'S', b'c', Macro::Closes(Pair::SingleQuotes)),
    (b'S', b'h', Macro::Section),
    (b'S', b'm', Macro::Spacing),
    (b'S', b'o', Macro::Opens(Pair::SingleQuotes)),
    (b'S', b'q', Macro::Encloses(Pair::SingleQuotes)),
    (b'S', b's', Macro::Subsection),
    (b'S', b't', Macro::Standard),
    (b'S', b'x', Macro::SectionName),
    (b'S', b'y', Macro::Words(Font::Bold)),
    (b'T', b'&', Macro::Table),
    (b'T', b'E', Macro::TableEnds),
    (b'T', b'S', Macro::Table),
    (b'T', b'a', Macro::Cell),
    (b'T', b'g', Macro::Silent),
    (b'T', b'n', Macro::Words(Font::Roman)),
    (b'U', b'd', Macro::Stands(System::Developed)),
    (b'U', b'x', Macro::Stands(System::Unix)),
    (b'V', b'a', Macro::Words(Font::Italic)),
    (b'V', b't', Macro::Variable),
    (b'X', b'c', Macro::Closes(Pair::Nothing)),
    (b'X', b'o', Macro::Opens(Pair::Nothing)),
    (b'X', b'r', Macro::Reference),
    (b'a', b'm', Macro::Defines),
    (b'd', b'e', Macro::Defines),
    (b'i', b'g', Macro::Defines),
    (b's', b'p', Macro::Spaces),
];

/// What a table says of a name of two bytes.
pub fn looked_up<T: Copy>(table: &[(u8, u8, T)], first: u8, second: u8) -> Option<T>
    ensures { result ≡ specs.looked_up table.now first second }
{
    for entry in table {
        if entry.0 == first && entry.1 == second {
            return Some(entry.2);
        }
    }
    None
}

/// The macro of a name of two letters.
fn letters_macro(first: u8, second: u8) -> Option<Macro>
    ensures { result ≡ specs.letters_macro first second }
{
    looked_up(&NAMES, first, second)
}

/// The font of a part of a reference.
pub(crate) fn part_font(letter: u8) -> Font
    ensures { result ≡ specs.part_font letter }
{
    match letter {
        b'B' | b'I' | b'J' => Font::Italic,
        _ => Font::Roman,
    }
}

/// The macro of a name of two bytes.
fn short_macro(first: u8, second: u8) -> Option<Macro>
    ensures { result ≡ specs.short_macro first second }
{
    if first == b'%' {
        return Some(Macro::Part(second));
    }
    letters_macro(first, second)
}

/// The macro of a name of three bytes.
fn long_macro(first: u8, second: u8, third: u8) -> Option<Macro>
    ensures { result ≡ specs.long_macro first second third }
{
    if first == b'B' && second == b's' && third == b'x' {
        return Some(Macro::Stands(System::BsdOs));
    }
    if first != b'B' || second != b'r' {
        return None;
    }
    match third {
        b'q' => Some(Macro::Encloses(Pair::Braces)),
        b'o' => Some(Macro::Opens(Pair::Braces)),
        b'c' => Some(Macro::Closes(Pair::Braces)),
        _ => None,
    }
}

/// The macro of a name.
///
/// Proved: `macro_of` looks a name up in the table of macros, and `meaning_of` has what each of them means: whether a
/// word calls it, how it takes words, what stands for it without words. (`macro_of`, `meaning_of`)
pub fn macro_of(name: &[u8]) -> Option<Macro>
    ensures { result ≡ specs.macro_of name.now }
{
    match name {
        [first, second] => short_macro(*first, *second),
        [first, second, third] => long_macro(*first, *second, *third),
        _ => None,
    }
}

/// Whether a name is that of a macro of mdoc(7), or of a request that is read as one.
pub fn is_macro(name: &[u8]) -> bool
    ensures { result ≡ is_some (specs.macro_of name.now) }
{
    macro_of(name).is_some()
}
