//! Macros are called: what is pending from the one before, and what they say before their words.
ghost use Rattle.std.specs.Prelude.{◌≡◌, ◌≤◌};
ghost use Rattle.mdoc_layout.specs.Seeing.{offered};
ghost use Rattle.mdoc_words.specs.Calls as specs;

use super::macros::macro_of;
use super::meanings::{
    is_callable, is_opened_by, is_pending_from, joins_next, meaning_of, said_for,
};
use super::rules::{function_closes, takes_no_more};
use mdoc_layout::{Act, Kind, Macro, Page, Pair, Scan, Seen, Text, closer};
use nr_units::Name;

/// How many enclosures a line may have open.
const MOST_CLOSERS: usize = 8;

/// The macro that a word calls, which is not between quotes.
pub(crate) fn called_by(quoted: bool, word: &[u8]) -> Option<Macro>
    ensures { result ≡ specs.called_by quoted word.now }
{
    match macro_of(word) {
        Some(called) if !quoted && is_callable(called) => Some(called),
        _ => None,
    }
}

/// Whether the last enclosure is one of angle brackets.
fn ends_in_angle(closers: &[u8]) -> bool
    ensures { result ≡ specs.ends_in_angle closers.now }
{
    let len = closers.len();
    len > 0 && closers[len - 1] == b'a'
}

/// What takes words stands for text where it took none, or has an end.
pub fn is_pending(page: &Page) -> bool
    ensures { result ≡ specs.is_pending page.now }
{
    is_pending_from(page.call.taker, page.call.some, !page.name.is_empty())
}

/// What opens an enclosure stands after the opening marks that come first in it.
pub(crate) fn is_enclosure_pending(page: &Page) -> bool
    ensures { result ≡ specs.is_enclosure_pending page.now }
{
    is_opened_by(page.call.taker) && !page.call.some
}

/// What is pending from the macro that took words.
fn pending(page: &mut Page) -> Seen
    ensures { offered page.new result ≡ specs.pending page.old }
{
    said_for(page, meaning_of(page.call.taker).pending)
}

/// What is pending is said, and no macro takes words then.
#[tactic(auto, unfolding(crate::specs::Calls::leaves))]
pub fn leaves(page: &mut Page) -> Seen
    ensures { offered page.new result ≡ specs.leaves page.old }
{
    let seen = pending(page);
    takes_no_more(page);
    seen
}

/// A macro is called: what is pending from the one before comes first.
#[tactic(auto, unfolding(crate::specs::Calls::call))]
pub(crate) fn call(page: &mut Page, called: Macro) -> Seen
    ensures { offered page.new result ≡ specs.call called page.old }
{
    if !is_pending(page) {
        return calls(page, called);
    }
    if encloses_address(page, called) {
        return opens_address(page);
    }
    let joins = joins_next(page.call.taker);
    let mut seen = leaves(page);
    if joins {
        seen.second = Act::Join;
    }
    seen
}

/// An address of mail comes first in what angle brackets would enclose.
fn encloses_address(page: &Page, called: Macro) -> bool
    ensures { result ≡ specs.encloses_address called page.now }
{
    matches!(page.call.taker, Macro::Encloses(Pair::Angles))
        && matches!(called, Macro::Mail)
        && ends_in_angle(page.closers.as_bytes())
}

/// Signs enclose it.
fn opens_address(page: &mut Page) -> Seen
    requires { specs.has_closer page.old }
    ensures { offered page.new result ≡ specs.opens_address page.old }
{
    let closers = page.closers;
    let bytes = closers.as_bytes();
    page.closers = Name::of(&bytes[..bytes.len() - 1]);
    page.closers.push(closer(Pair::Signs));
    takes_no_more(page);
    Seen::two(Act::Text(Text::Opening(Pair::Signs)), Act::Join)
}

/// A macro takes the words that follow, or stands for text. What begins a cell ends what the one before opened.
fn calls(page: &mut Page, taker: Macro) -> Seen
    ensures { offered page.new result ≡ specs.calls taker page.old }
{
    page.scan = Scan::Between;
    page.call.taker = taker;
    page.call.first = false;
    page.call.some = false;
    page.call.listed = false;
    if matches!(taker, Macro::Cell) && matches!(page.block.kind, Kind::Column) {
        return Seen::two(Act::Closers, Act::Cell);
    }
    called(page, taker)
}

/// Whether tabs end cells: those of an item of columns do.
fn has_cells(page: &Page) -> bool
    ensures { result ≡ specs.has_cells page.now }
{
    matches!(page.call.line, Macro::Item) && matches!(page.block.kind, Kind::Column)
}

/// A tab between words: in an item of columns it ends all that its cell opened.
pub fn tab(page: &mut Page) -> Seen
    ensures { offered page.new result ≡ specs.tab page.old }
{
    if !has_cells(page) {
        return Seen::taken(Act::Cell);
    }
    if is_pending(page) {
        return leaves(page);
    }
    if !page.marks.is_empty() {
        return Seen::two(Act::Closers, Act::Marks);
    }
    takes_no_more(page);
    Seen::two(Act::Closers, Act::Cell).and_taken()
}

/// What a macro says before its words.
pub fn called(page: &mut Page, called: Macro) -> Seen
    ensures { offered page.new result ≡ specs.called called page.old }
{
    match called {
        Macro::Encloses(pair) => encloses(page, pair),
        Macro::Opens(_) => opens(page),
        Macro::Closes(pair) => closes(page, pair),
        Macro::Joins => joins(page),
        Macro::Apostrophe => Seen::two(Act::Close(Text::Apostrophe), Act::Join),
        Macro::FunctionCloses => function_closes(page),
        Macro::Cell => Seen::left(Act::Cell),
        _ => Seen::left(Act::Nothing),
    }
}

/// What comes next joins what is before, but where it begins a line.
fn joins(page: &Page) -> Seen
    ensures { result ≡ specs.joins page.now }
{
    if page.call.first {
        return Seen::left(Act::Nothing);
    }
    Seen::left(Act::Join)
}

/// The rest of the line is enclosed.
fn encloses(page: &mut Page, pair: Pair) -> Seen
    ensures { offered page.new result ≡ specs.encloses pair page.old }
{
    if page.closers.len() < MOST_CLOSERS {
        page.closers.push(closer(pair));
    }
    Seen::left(Act::Nothing)
}

/// An enclosure begins that may end on another line.
fn opens(page: &mut Page) -> Seen
    ensures { offered page.new result ≡ specs.opens page.old }
{
    if page.place.depth < 255 {
        page.place.depth += 1;
    }
    Seen::left(Act::Nothing)
}

/// It ends, and no sentence with it.
fn closes(page: &mut Page, pair: Pair) -> Seen
    ensures { offered page.new result ≡ specs.closes pair page.old }
{
    if page.place.depth > 0 {
        page.place.depth -= 1;
    }
    if matches!(pair, Pair::Nothing) {
        return Seen::left(Act::Apart);
    }
    Seen::two(
        Act::Close(Text::Closing(closer(pair))),
        Act::Close(Text::Empty),
    )
}
