//! What macros mean that take words, an entry for each, and the rules.
ghost use Rattle.std.specs.Prelude.{◌≡◌};
ghost use Rattle.mdoc_layout.specs.Seeing.{offered};
ghost use Rattle.mdoc_words.specs.Meanings as specs;

use self::Called::{Anew, ByWord, Never};
use self::Pending::{Both, FunctionEnds, Joined, LinkEnds, Nothing, Opening, OwnName, Stands};
use self::Takes::{Each, One};
use super::macros::part_font;
use super::rules::{
    author, function, function_closes, function_opens, include, link, link_closes, named, own_name,
    parameter, prefix, reference, release, takes_no_more, version,
};
use mdoc_layout::{Act, Font, Macro, Page, Pair, Seen, System, Text};

/// Whether a word calls a macro, on a line that another one began.
#[derive(Clone, Copy)]
pub(crate) enum Called {
    /// No word calls it.
    Never,
    /// A word calls it.
    ByWord,
    /// A word calls it, and after closing marks it begins anew.
    Anew,
}

/// How a macro takes words.
#[derive(Clone, Copy)]
pub(crate) enum Takes {
    /// Each word is said so.
    Each(Act),
    /// One word is said so; those after it are text.
    One(Act),
    /// Words that are the page's name, or another.
    Name,
    /// Parameters of a function.
    Parameters,
    /// A page and its section.
    Reference,
    /// An author.
    Author,
    /// A link and its name.
    Link,
    /// A function and its parameters.
    Function,
    /// A function whose parameters come on other lines.
    FunctionOpens,
    /// A file that is included.
    Include,
    /// The version of a system.
    Version(System),
    /// The version of BSD.
    Release,
    /// One word, which the next one joins.
    Prefix,
}

/// What is said once a macro takes no more words.
#[derive(Clone, Copy)]
pub(crate) enum Pending {
    /// Nothing.
    Nothing,
    /// This stands for it where it took no word.
    Stands(Text),
    /// This does, and what a macro says next joins it.
    Joined(Text),
    /// Both of these do.
    Both(Text, Text),
    /// The page's name does, where it has one.
    OwnName,
    /// What opens an enclosure, where it has no word yet.
    Opening(Pair),
    /// What ends a function, after its words.
    FunctionEnds,
    /// What ends a link, after its words.
    LinkEnds,
}

/// What a macro means.
#[derive(Clone, Copy)]
pub(crate) struct Meaning {
    /// Whether a word calls it.
    pub called: Called,
    /// How it takes words.
    pub takes: Takes,
    /// What is said then.
    pub pending: Pending,
}

/// A meaning by its parts.
fn means(called: Called, takes: Takes, pending: Pending) -> Meaning
    ensures { result ≡ specs.means called takes pending }
{
    Meaning {
        called,
        takes,
        pending,
    }
}

/// Each word is in a font.
fn each_in(font: Font) -> Takes
    ensures { result ≡ specs.each_in font }
{
    Each(Act::Word(font))
}

/// Sentences are called by no word, names are.
fn called_name(system: System) -> Called
    ensures { result ≡ specs.called_name system }
{
    match system {
        System::Beta | System::Developed => Never,
        _ => ByWord,
    }
}

/// What each macro means.
pub(crate) fn meaning_of(called: Macro) -> Meaning
    ensures { result ≡ specs.meaning_of called }
{
    match called {
        Macro::Words(font) => means(ByWord, each_in(font), Nothing),
        Macro::Flag => means(Anew, Each(Act::Flag), Joined(Text::Dash)),
        Macro::Argument => means(Anew, each_in(Font::Italic), Both(Text::File, Text::Dots)),
        Macro::Path | Macro::Mail => means(Anew, each_in(Font::Italic), Stands(Text::Home)),
        Macro::Name => means(Anew, Takes::Name, OwnName),
        Macro::Reference => means(ByWord, Takes::Reference, Nothing),
        Macro::Author => means(ByWord, Takes::Author, Nothing),
        Macro::Link => means(ByWord, Takes::Link, LinkEnds),
        Macro::SectionName => means(ByWord, each_in(Font::Italic), Nothing),
        Macro::ResultType => means(ByWord, each_in(Font::Italic), Nothing),
        Macro::Variable => means(ByWord, each_in(Font::Italic), Nothing),
        Macro::Configuration => means(ByWord, each_in(Font::Bold), Nothing),
        Macro::Declaration => means(Never, each_in(Font::Bold), Nothing),
        Macro::Parameter => means(ByWord, Takes::Parameters, Nothing),
        Macro::Function => means(ByWord, Takes::Function, FunctionEnds),
        Macro::FunctionOpens => means(ByWord, Takes::FunctionOpens, Nothing),
        Macro::Include => means(ByWord, Takes::Include, Nothing),
        Macro::Encloses(pair) => means(ByWord, each_in(Font::Roman), Opening(pair)),
        Macro::Opens(pair) => means(ByWord, each_in(Font::Roman), Opening(pair)),
        Macro::Closes(_) | Macro::FunctionCloses => means(ByWord, each_in(Font::Roman), Nothing),
        Macro::Joins | Macro::Apostrophe => means(ByWord, each_in(Font::Roman), Nothing),
        Macro::Cell => means(ByWord, each_in(Font::Roman), Nothing),
        Macro::OwnCloses => means(ByWord, One(Act::Joined(Font::Roman)), Nothing),
        Macro::OwnOpens | Macro::Prefix => means(ByWord, Takes::Prefix, Nothing),
        Macro::Stands(system) => means(
            called_name(system),
            Takes::Version(system),
            Stands(Text::System(system)),
        ),
        Macro::Att => means(ByWord, One(Act::Att), Stands(Text::Att)),
        Macro::Bsd => means(ByWord, Takes::Release, Stands(Text::Bsd)),
        Macro::BsdRelease => means(Never, One(Act::Release), Nothing),
        Macro::Standard => means(ByWord, One(Act::Standard), Nothing),
        Macro::Library => means(Never, One(Act::Library), Nothing),
        Macro::Part(letter) => means(Never, each_in(part_font(letter)), Nothing),
        _ => means(Never, each_in(Font::Roman), Nothing),
    }
}

/// Whether it is called by a word of a line that another macro began.
pub(crate) fn is_callable(called: Macro) -> bool
    ensures { result ≡ specs.is_callable called }
{
    !matches!(meaning_of(called).called, Never)
}

/// Whether after marks it begins another element.
pub(crate) fn begins_anew(called: Macro) -> bool
    ensures { result ≡ specs.begins_anew called }
{
    matches!(meaning_of(called).called, Anew)
}

/// Whether what opens an enclosure stands after the opening marks that come first in it.
pub(crate) fn is_opened_by(called: Macro) -> bool
    ensures { result ≡ specs.is_opened_by called }
{
    match meaning_of(called).pending {
        Opening(pair) => !matches!(pair, Pair::Nothing),
        _ => false,
    }
}

/// Whether something is said once it takes no more words, by whether it took some and the page has a name.
pub(crate) fn is_pending_from(called: Macro, some: bool, has_name: bool) -> bool
    ensures { result ≡ specs.is_pending_from called some has_name }
{
    match meaning_of(called).pending {
        Stands(_) | Joined(_) | Both(_, _) => !some,
        OwnName => !some && has_name,
        FunctionEnds | LinkEnds => some,
        Opening(pair) => !matches!(pair, Pair::Nothing) && !some,
        Nothing => false,
    }
}

/// Whether what the next macro says joins it.
pub(crate) fn joins_next(called: Macro) -> bool
    ensures { result ≡ specs.joins_next called }
{
    matches!(meaning_of(called).pending, Joined(_))
}

/// What is pending is said.
pub(crate) fn said_for(page: &mut Page, pending: Pending) -> Seen
    ensures { offered page.new result ≡ specs.said_for pending page.old }
{
    match pending {
        Stands(text) | Joined(text) => Seen::left(Act::Text(text)),
        Both(first, second) => Seen::two(Act::Text(first), Act::Text(second)),
        OwnName => own_name(page),
        FunctionEnds => function_closes(page),
        LinkEnds => link_closes(page),
        Opening(pair) => Seen::two(Act::Text(Text::Opening(pair)), Act::Join),
        Nothing => Seen::left(Act::Nothing),
    }
}

/// A word is taken.
pub(crate) fn taken_as(page: &mut Page, takes: Takes) -> Seen
    ensures { offered page.new result ≡ specs.taken_as takes page.old }
{
    match takes {
        Each(act) => Seen::left(act),
        One(act) => {
            takes_no_more(page);
            Seen::left(act)
        }
        Takes::Name => named(page),
        Takes::Parameters => parameter(page),
        Takes::Reference => reference(page),
        Takes::Author => author(page),
        Takes::Link => link(page),
        Takes::Function => function(page),
        Takes::FunctionOpens => function_opens(page),
        Takes::Include => include(page),
        Takes::Version(system) => version(page, system),
        Takes::Release => release(page),
        Takes::Prefix => prefix(page),
    }
}
