//! Macros with rules of their own: what stands for them, and how they take words.
ghost use Rattle.std.specs.Prelude.{◌≡◌, ◌≤◌};
ghost use Rattle.mdoc_layout.specs.Seeing.{offered};
ghost use Rattle.mdoc_words.specs.Rules as specs;

use mdoc_layout::{
    Act, Following, Font, Last, Macro, Page, Pair, Parameters, Request, Section, Seen, Split,
    System, Text,
};
use nr_units::Name;

/// The width of a hanging line, after a name of this width.
pub(crate) fn hanging(width: u16) -> u16
    ensures value { result ≡ specs.hanging width }
    ensures few { result ≤ 900 }
{
    if width < 900 { width + 1 } else { 900 }
}

/// In the synopsis.
pub fn is_synopsis(page: &Page) -> bool
    ensures { result ≡ specs.is_synopsis page.now }
{
    matches!(page.place.section, Section::Synopsis)
}

/// No macro takes words.
pub(crate) fn takes_no_more(page: &mut Page)
    ensures { page.new ≡ specs.takes_no_more page.old }
{
    page.call.taker = Macro::Words(Font::Roman);
    page.call.first = false;
    page.call.some = true;
}

/// A name begins a line of the synopsis.
pub(crate) fn heads_line(page: &Page) -> bool
    ensures { result ≡ specs.heads_line page.now }
{
    page.call.first && !page.call.some && is_synopsis(page)
}

/// The page's name is printed, in a synopsis as the beginning of a line.
pub(crate) fn own_name(page: &mut Page) -> Seen
    ensures { offered page.new result ≡ specs.own_name page.old }
{
    if heads_line(page) {
        page.place.last = Last::Name;
        page.lay.kept = true;
        return Seen::two(Act::Hanging(hanging(page.place.width)), Act::Own);
    }
    Seen::left(Act::Own)
}

/// A function's parameters end.
pub(crate) fn function_closes(page: &mut Page) -> Seen
    ensures { offered page.new result ≡ specs.function_closes page.old }
{
    page.place.parameters = Parameters::Outside;
    if is_synopsis(page) {
        return Seen::two(
            Act::Close(Text::FunctionEnds),
            Act::Request(Request::HangEnds),
        );
    }
    Seen::left(Act::Close(Text::Closing(b')')))
}

/// A link comes after its name.
pub(crate) fn link_closes(page: &Page) -> Seen
    ensures { result ≡ specs.link_closes page.now }
{
    if page.call.listed {
        return Seen::two(Act::Close(Text::Colon), Act::Text(Text::Link));
    }
    Seen::two(Act::Fresh, Act::Text(Text::Link))
}

/// A name under a condition: the page's is a string of nroff, which keeps the one that is read.
fn named_under_condition(page: &mut Page)
    ensures { page.new ≡ specs.named_under_condition page.old }
{
    page.name = Name::of(b"\\*(%n");
    page.place.section = Section::Name;
    page.place.width = page.call.width;
}

/// A word of `.Nm`: the first of all is the page's name.
pub(crate) fn named(page: &mut Page) -> Seen
    ensures { offered page.new result ≡ specs.named page.old }
{
    if matches!(page.place.section, Section::Condition) {
        named_under_condition(page);
        return Seen::two(Act::Naming, Act::Word(Font::Bold));
    }
    if page.name.is_empty() {
        page.name = page.word;
        page.place.width = page.call.width;
    }
    if heads_line(page) {
        page.place.last = Last::Name;
        page.lay.kept = true;
        return Seen::two(
            Act::Hanging(hanging(page.call.width)),
            Act::Word(Font::Bold),
        );
    }
    Seen::left(Act::Word(Font::Bold))
}

/// A parameter came before, on this line and no mark after it, or on another line.
fn is_listed(page: &Page) -> bool
    ensures { result ≡ specs.is_listed page.now }
{
    page.call.listed || (!page.call.some && matches!(page.place.parameters, Parameters::Further))
}

/// A parameter: commas stand between them.
pub(crate) fn parameter(page: &mut Page) -> Seen
    ensures { offered page.new result ≡ specs.parameter page.old }
{
    if matches!(page.place.parameters, Parameters::Outside) {
        return Seen::left(Act::Word(Font::Italic));
    }
    let further = is_listed(page);
    if matches!(page.place.parameters, Parameters::First) {
        page.place.parameters = Parameters::Further;
    }
    page.call.listed = true;
    if further {
        return Seen::two(Act::Close(Text::Comma), Act::Word(Font::Italic));
    }
    Seen::left(Act::Word(Font::Italic))
}

/// A page, and then its section.
pub(crate) fn reference(page: &mut Page) -> Seen
    ensures { offered page.new result ≡ specs.reference page.old }
{
    if !page.call.some {
        return Seen::left(Act::Word(Font::Roman));
    }
    takes_no_more(page);
    Seen::three(
        Act::Close(Text::Opening(Pair::Parentheses)),
        Act::Joined(Font::Roman),
        Act::Close(Text::Closing(b')')),
    )
}

/// A system and its version, which stays with its name.
pub(crate) fn version(page: &mut Page, system: System) -> Seen
    ensures { offered page.new result ≡ specs.version system page.old }
{
    takes_no_more(page);
    Seen::three(
        Act::Text(Text::System(system)),
        Act::Close(Text::FixedSpace),
        Act::Joined(Font::Roman),
    )
}

/// Authors begin lines, or not.
fn splits(page: &mut Page, split: Split) -> Seen
    ensures { offered page.new result ≡ specs.splits split page.old }
{
    page.place.split = split;
    Seen::left(Act::Nothing)
}

/// An author, or how authors are set.
pub(crate) fn author(page: &mut Page) -> Seen
    ensures { offered page.new result ≡ specs.author page.old }
{
    if page.word.as_bytes() == b"-split".as_slice() {
        return splits(page, Split::Always);
    }
    if page.word.as_bytes() == b"-nosplit".as_slice() {
        return splits(page, Split::Never);
    }
    named_author(page)
}

/// An author by name.
#[tactic(auto, unfolding(crate::specs::Rules::named_author))]
fn named_author(page: &mut Page) -> Seen
    ensures { offered page.new result ≡ specs.named_author page.old }
{
    if page.call.first && !page.call.some {
        return author_line(page);
    }
    Seen::left(Act::Word(Font::Roman))
}

/// An author who may begin a line.
fn author_line(page: &mut Page) -> Seen
    ensures { offered page.new result ≡ specs.author_line page.old }
{
    match page.place.split {
        Split::Always => Seen::two(Act::Request(Request::Break), Act::Word(Font::Roman)),
        Split::Next => {
            page.place.split = Split::Always;
            Seen::left(Act::Word(Font::Roman))
        }
        Split::Never => Seen::left(Act::Word(Font::Roman)),
    }
}

/// The version of BSD.
pub(crate) fn release(page: &mut Page) -> Seen
    ensures { offered page.new result ≡ specs.release page.old }
{
    page.call.taker = Macro::BsdRelease;
    Seen::two(Act::Word(Font::Roman), Act::Close(Text::Bsd))
}

/// A word that the next one joins.
pub(crate) fn prefix(page: &mut Page) -> Seen
    ensures { offered page.new result ≡ specs.prefix page.old }
{
    takes_no_more(page);
    if page.lay.partial {
        page.call.following = Following::Joint;
        return Seen::left(Act::Word(Font::Roman));
    }
    Seen::two(Act::Word(Font::Roman), Act::Join)
}

/// A function, and then its parameters.
pub(crate) fn function(page: &mut Page) -> Seen
    ensures { offered page.new result ≡ specs.function page.old }
{
    if !page.call.some {
        return function_begins(page);
    }
    if !page.call.listed {
        page.call.listed = true;
        return Seen::left(Act::Word(Font::Italic));
    }
    Seen::two(Act::Close(Text::Comma), Act::Word(Font::Italic))
}

/// The name of a function, and a parenthesis, which stands after all of the name.
fn function_begins(page: &mut Page) -> Seen
    ensures { offered page.new result ≡ specs.function_begins page.old }
{
    if page.lay.partial {
        page.call.following = Following::Parenthesis;
        return Seen::left(Act::Word(Font::Bold));
    }
    Seen::three(
        Act::Word(Font::Bold),
        Act::Close(Text::Opening(Pair::Parentheses)),
        Act::Join,
    )
}

/// A function whose parameters come on other lines.
pub(crate) fn function_opens(page: &mut Page) -> Seen
    ensures { offered page.new result ≡ specs.function_opens page.old }
{
    takes_no_more(page);
    page.place.parameters = Parameters::First;
    function_begins(page)
}

/// A file that is included.
pub(crate) fn include(page: &mut Page) -> Seen
    ensures { offered page.new result ≡ specs.include page.old }
{
    takes_no_more(page);
    if page.lay.partial {
        page.call.following = Following::Angle;
        return Seen::two(
            Act::Text(Text::Opening(Pair::Signs)),
            Act::Joined(Font::Italic),
        );
    }
    Seen::three(
        Act::Text(Text::Opening(Pair::Signs)),
        Act::Joined(Font::Italic),
        Act::Close(Text::Closing(b'>')),
    )
}

/// A link, which a string keeps up to the end of its name. On a line that can't be broken off it goes out itself.
pub(crate) fn link(page: &mut Page) -> Seen
    ensures { offered page.new result ≡ specs.link page.old }
{
    if page.call.some {
        return link_name(page);
    }
    if keeps_link(page) {
        return Seen::two(Act::Request(Request::Link), Act::Word(Font::Bold));
    }
    page.call.taker = Macro::Words(Font::Italic);
    Seen::left(Act::Word(Font::Bold))
}

/// Whether a string may be set here: the link begins a line that no tag, reference or joint goes on with.
fn keeps_link(page: &Page) -> bool
    ensures { result ≡ specs.keeps_link page.now }
{
    let goes_on = page.lay.tag || page.lay.joined || page.place.reference;
    page.call.first && !goes_on
}

/// A word of the link's name: the string is set before the first.
fn link_name(page: &mut Page) -> Seen
    ensures { offered page.new result ≡ specs.link_name page.old }
{
    if page.call.listed {
        return Seen::left(Act::Word(Font::Italic));
    }
    page.call.listed = true;
    Seen::two(Act::Fresh, Act::Word(Font::Italic))
}
