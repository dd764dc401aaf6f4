//! Words that are read for what they ask, and not printed.
ghost use Rattle.std.specs.Prelude.{◌≡◌, ◌≤◌, OnSome};
ghost use Rattle.mdoc_layout.specs.Seeing.{offered};
ghost use Rattle.mdoc_words.specs.Options as specs;

use mdoc_layout::{
    Act, Asks, Font, Kind, Macro, Page, Request, Scan, Section, Seen, Split, Text, Wanted, at_most,
    named_in, number_said, offset_named, width_named,
};

/// What the options of lists and displays ask.
static ASKED: [([u8; 15], Asks); 19] = [
    (*b"-bullet\0\0\0\0\0\0\0\0", Asks::Kind(Kind::Bullet)),
    (*b"-dash\0\0\0\0\0\0\0\0\0\0", Asks::Kind(Kind::Dash)),
    (*b"-hyphen\0\0\0\0\0\0\0\0", Asks::Kind(Kind::Dash)),
    (*b"-enum\0\0\0\0\0\0\0\0\0\0", Asks::Kind(Kind::Number)),
    (*b"-tag\0\0\0\0\0\0\0\0\0\0\0", Asks::Kind(Kind::Tag)),
    (*b"-hang\0\0\0\0\0\0\0\0\0\0", Asks::Kind(Kind::Hang)),
    (*b"-inset\0\0\0\0\0\0\0\0\0", Asks::Kind(Kind::Inset)),
    (*b"-ohang\0\0\0\0\0\0\0\0\0", Asks::Kind(Kind::Overhang)),
    (*b"-diag\0\0\0\0\0\0\0\0\0\0", Asks::Kind(Kind::Diagnosis)),
    (*b"-item\0\0\0\0\0\0\0\0\0\0", Asks::Kind(Kind::Item)),
    (*b"-column\0\0\0\0\0\0\0\0", Asks::Kind(Kind::Column)),
    (*b"-literal\0\0\0\0\0\0\0", Asks::Kind(Kind::Literal)),
    (*b"-unfilled\0\0\0\0\0\0", Asks::Kind(Kind::Unfilled)),
    (*b"-centered\0\0\0\0\0\0", Asks::Kind(Kind::Centered)),
    (*b"-filled\0\0\0\0\0\0\0\0", Asks::Kind(Kind::Filled)),
    (*b"-ragged\0\0\0\0\0\0\0\0", Asks::Kind(Kind::Filled)),
    (*b"-width\0\0\0\0\0\0\0\0\0", Asks::Width),
    (*b"-offset\0\0\0\0\0\0\0\0", Asks::Offset),
    (*b"-compact\0\0\0\0\0\0\0", Asks::Compact),
];

/// The fonts of `.Bf`.
static FONTS: [([u8; 15], Font); 4] = [
    (*b"Em\0\0\0\0\0\0\0\0\0\0\0\0\0", Font::Italic),
    (*b"-emphasis\0\0\0\0\0\0", Font::Italic),
    (*b"Sy\0\0\0\0\0\0\0\0\0\0\0\0\0", Font::Bold),
    (*b"-symbolic\0\0\0\0\0\0", Font::Bold),
];

/// The sections in which macros print otherwise, by the first word of their headings.
static SECTIONS: [([u8; 15], Section); 4] = [
    (*b"NAME\0\0\0\0\0\0\0\0\0\0\0", Section::Name),
    (*b"SYNOPSIS\0\0\0\0\0\0\0", Section::Synopsis),
    (*b"AUTHORS\0\0\0\0\0\0\0\0", Section::Authors),
    (*b"SEE\0\0\0\0\0\0\0\0\0\0\0\0", Section::SeeAlso),
];

/// What an option asks.
fn asked(word: &[u8]) -> Option<Asks>
    ensures { result ≡ specs.asked word.now }
{
    named_in(&ASKED, word)
}

/// The font of `.Bf`.
fn font_named(word: &[u8]) -> Option<Font>
    ensures { result ≡ specs.font_named word.now }
{
    named_in(&FONTS, word)
}

/// The section of a heading that begins with a word.
fn section_named(word: &[u8]) -> Option<Section>
    ensures { result ≡ specs.section_named word.now }
{
    named_in(&SECTIONS, word)
}

/// Words are read for what they ask.
pub(crate) fn reads_options(page: &Page) -> bool
    ensures { result ≡ specs.reads_options page.now }
{
    matches!(
        page.call.taker,
        Macro::Date
            | Macro::Title
            | Macro::List
            | Macro::Display
            | Macro::FontBegins
            | Macro::Spacing
            | Macro::Exits
            | Macro::Returns
            | Macro::Section
    )
}

/// Words go out, of a heading too.
pub(crate) fn is_shown(page: &Page) -> bool
    ensures { result ≡ specs.is_shown page.now }
{
    !reads_options(page) || matches!(page.call.taker, Macro::Section)
}

/// A word comes for what it asks.
pub(crate) fn option(page: &mut Page) -> Seen
    ensures { offered page.new result ≡ specs.option page.old }
{
    page.scan = Scan::Between;
    let seen = option_word(page);
    page.call.some = true;
    seen
}

/// By the macro that takes it.
#[tactic(auto, unfolding(crate::specs::Options::option_word))]
fn option_word(page: &mut Page) -> Seen
    ensures { offered page.new result ≡ specs.option_word page.old }
{
    match page.call.taker {
        Macro::Date => date_word(page),
        Macro::Title => title_word(page),
        Macro::List | Macro::Display => block_word(page),
        Macro::FontBegins => font_word(page),
        Macro::Spacing => spacing_word(page),
        Macro::Exits => utility(page),
        Macro::Returns => returning(page),
        _ => heading_word(page),
    }
}

/// A word of the date: a month, a day and a year. What stands for the version's own is dropped.
fn date_word(page: &mut Page) -> Seen
    ensures { offered page.new result ≡ specs.date_word page.old }
{
    if is_version(page.word.as_bytes()) {
        return Seen::left(Act::Nothing);
    }
    if page.month.is_empty() {
        page.month = page.word;
    } else if page.day.is_empty() {
        page.day = page.word;
    } else if page.year.is_empty() {
        page.year = page.word;
    }
    Seen::left(Act::Nothing)
}

/// A word of the title.
fn title_word(page: &mut Page) -> Seen
    ensures { offered page.new result ≡ specs.title_word page.old }
{
    if !page.call.some {
        page.title = page.word;
    } else if page.chapter.is_empty() {
        page.chapter = page.word;
    }
    Seen::left(Act::Nothing)
}

/// The first word of a section's heading says which it is.
fn enters(page: &mut Page)
    ensures { page.new ≡ specs.enters page.old }
{
    page.place.section = match section_named(page.word.as_bytes()) {
        Some(section) => section,
        None => Section::Other,
    };
    page.place.split = match page.place.section {
        Section::Authors => Split::Next,
        _ => Split::Never,
    };
}

/// The first word of a section's heading.
fn heading_word(page: &mut Page) -> Seen
    ensures { offered page.new result ≡ specs.heading_word page.old }
{
    enters(page);
    page.call.taker = Macro::Words(Font::Roman);
    Seen::left(Act::Word(Font::Roman))
}

/// The font of `.Bf`.
fn font_word(page: &mut Page) -> Seen
    ensures { offered page.new result ≡ specs.font_word page.old }
{
    match font_named(page.word.as_bytes()) {
        Some(font) => Seen::left(Act::Request(Request::Font(font))),
        None => Seen::left(Act::Nothing),
    }
}

/// Words are set apart, or not.
fn spacing_word(page: &mut Page) -> Seen
    ensures { offered page.new result ≡ specs.spacing_word page.old }
{
    page.lay.spaced = page.word.as_bytes() != b"off".as_slice();
    Seen::left(Act::Nothing)
}

/// Whether the word is `-std`.
fn is_usual(page: &Page) -> bool
    ensures { result ≡ specs.is_usual page.now }
{
    page.word.as_bytes() == b"-std".as_slice()
}

/// The name of a utility.
fn utility(page: &mut Page) -> Seen
    ensures { offered page.new result ≡ specs.utility page.old }
{
    if is_usual(page) {
        return Seen::left(Act::Nothing);
    }
    if !page.call.listed {
        page.call.listed = true;
        return Seen::left(Act::Word(Font::Bold));
    }
    holds(page)
}

/// A name is held back, as it may be the last: the one that was held back before it is not.
fn holds(page: &mut Page) -> Seen
    ensures { offered page.new result ≡ specs.holds page.old }
{
    if page.held.is_empty() {
        page.held = page.word;
        return Seen::left(Act::Nothing);
    }
    page.call.many = true;
    Seen::left(Act::Held)
}

/// The name of a function.
fn returning(page: &mut Page) -> Seen
    ensures { offered page.new result ≡ specs.returning page.old }
{
    if is_usual(page) {
        return Seen::left(Act::Nothing);
    }
    if page.call.listed {
        return holds_function(page);
    }
    page.call.listed = true;
    Seen::three(
        Act::Text(Text::The),
        Act::Word(Font::Bold),
        Act::Close(Text::Parentheses),
    )
}

/// The same of a function.
fn holds_function(page: &mut Page) -> Seen
    ensures { offered page.new result ≡ specs.holds_function page.old }
{
    let mut seen = holds(page);
    if page.call.many {
        seen.second = Act::Close(Text::Parentheses);
    }
    seen
}

/// The width that the word says: by its name, by a number, or by its length.
fn width_said(page: &Page) -> u16
    ensures { result ≡ specs.width_said page.now }
{
    match width_named(page.word.as_bytes()) {
        Some(width) => width,
        None => match number_said(page.word.as_bytes()) {
            Some(width) => width,
            None => page.call.width,
        },
    }
}

/// The indent that the word says: displays have two more names for one.
fn offset_said(page: &Page) -> u16
    ensures { result ≡ specs.offset_said page.now }
{
    if matches!(page.call.taker, Macro::Display) {
        return match offset_named(page.word.as_bytes()) {
            Some(offset) => offset,
            None => width_said(page),
        };
    }
    width_said(page)
}

/// A word of `.Bl` or `.Bd`.
fn block_word(page: &mut Page) -> Seen
    ensures { offered page.new result ≡ specs.block_word page.old }
{
    match page.call.wanted {
        Wanted::Width => wide(page),
        Wanted::Offset => indented(page),
        Wanted::Option | Wanted::Column => block_option(page),
    }
}

/// The width of tags.
fn wide(page: &mut Page) -> Seen
    ensures { offered page.new result ≡ specs.wide page.old }
{
    page.block.width = Some(at_most(900, width_said(page)));
    page.call.wanted = Wanted::Option;
    Seen::left(Act::Nothing)
}

/// The indent.
fn indented(page: &mut Page) -> Seen
    ensures { offered page.new result ≡ specs.indented page.old }
{
    page.block.offset = at_most(900, page.block.offset) + at_most(90, offset_said(page));
    page.call.wanted = Wanted::Option;
    Seen::left(Act::Nothing)
}

/// The width comes next, or the indent.
fn wants(page: &mut Page, wanted: Wanted) -> Seen
    ensures { offered page.new result ≡ specs.wants wanted page.old }
{
    page.call.wanted = wanted;
    Seen::left(Act::Nothing)
}

/// An option of `.Bl` or `.Bd`.
fn block_option(page: &mut Page) -> Seen
    ensures { offered page.new result ≡ specs.block_option page.old }
{
    match asked(page.word.as_bytes()) {
        Some(Asks::Width) => wants(page, Wanted::Width),
        Some(Asks::Offset) => wants(page, Wanted::Offset),
        Some(Asks::Compact) => {
            page.block.compact = true;
            Seen::left(Act::Nothing)
        }
        Some(Asks::Kind(kind)) => {
            page.block.kind = kind;
            Seen::left(Act::Nothing)
        }
        None => column(page),
    }
}

/// One more column.
fn adds_column(page: &mut Page)
    ensures { page.new ≡ specs.added_column page.old }
{
    page.block.columns = at_most(99, page.block.columns) + 1;
    page.lay.cell = 0;
}

/// The width of a column.
fn column(page: &mut Page) -> Seen
    ensures { offered page.new result ≡ specs.column page.old }
{
    if !matches!(page.block.kind, Kind::Column) {
        return Seen::left(Act::Nothing);
    }
    let width = at_most(900, page.call.width);
    adds_column(page);
    let act = Act::Column(width);
    if matches!(page.call.wanted, Wanted::Column) {
        return Seen::left(act);
    }
    page.call.wanted = Wanted::Column;
    Seen::two(Act::Columns, act)
}

/// Whether a word is one that stands for the version's date.
fn is_version(word: &[u8]) -> bool
    ensures { result ≡ specs.is_version word.now }
{
    match word {
        [first, ..] => *first == b'$',
        [] => true,
    }
}
