//! A word is whole: it is a closing mark, calls a macro, or is read for one; or it is longer than what is kept of one.
ghost use Rattle.std.specs.Prelude.{◌≡◌, ◌≤◌};
ghost use Rattle.mdoc_layout.specs.Seeing.{offered};
ghost use Rattle.mdoc_words.specs.Words as specs;

use super::calls::{call, called_by, is_enclosure_pending, is_pending, leaves};
use super::meanings::begins_anew;
use super::options::{option, reads_options};
use super::rules::prefix;
use super::taking::argument;
use mdoc_layout::{Act, Following, Font, Inside, Macro, Page, Pair, Scan, Seen, Text};
use nr_units::Name;

/// The byte of a word that is a closing mark, which is not between quotes.
fn closing_mark(quoted: bool, word: &[u8]) -> Option<u8>
    ensures { result ≡ specs.closing_mark quoted word.now }
{
    match word {
        [mark] => if !quoted && is_closing(*mark) {
            Some(*mark)
        } else {
            None
        },
        _ => None,
    }
}

/// A closing mark.
fn is_closing(mark: u8) -> bool
    ensures { result ≡ specs.is_closing mark }
{
    matches!(mark, b'.' | b',' | b':' | b';' | b')' | b']' | b'?' | b'!')
}

/// What takes the words after a long one: those after the first of a heading are read as on other lines.
fn taken_after(taker: Macro) -> Macro
    ensures { result ≡ specs.taken_after taker }
{
    match taker {
        Macro::Section => Macro::Words(Font::Roman),
        _ => taker,
    }
}

/// The last part of a long word, and what stands after it.
fn after_long(following: Following) -> Seen
    ensures { result ≡ specs.after_long following }
{
    match following {
        Following::Nothing => Seen::left(Act::LastMore),
        Following::Parenthesis => Seen::three(
            Act::LastMore,
            Act::Close(Text::Opening(Pair::Parentheses)),
            Act::Join,
        ),
        Following::Angle => Seen::two(Act::LastMore, Act::Close(Text::Closing(b'>'))),
        Following::Joint => Seen::two(Act::LastMore, Act::Join),
    }
}

/// What takes the words after a mark: it ends what the release of BSD may be.
fn taken_after_mark(taker: Macro) -> Macro
    ensures { result ≡ specs.taken_after_mark taker }
{
    match taker {
        Macro::BsdRelease => Macro::Words(Font::Roman),
        _ => taker,
    }
}

/// A word is whole.
pub fn given(page: &mut Page, quoted: bool) -> Seen
    ensures { offered page.new result ≡ specs.given quoted page.old }
{
    if page.call.going {
        return ends_long(page);
    }
    if reads_options(page) && !heading_calls(page, quoted) {
        return option(page);
    }
    parsed(page, quoted)
}

/// The first word of a section's heading calls a macro.
fn heading_calls(page: &Page, quoted: bool) -> bool
    ensures { result ≡ specs.heading_calls quoted page.now }
{
    matches!(page.call.taker, Macro::Section) && called_by(quoted, page.word.as_bytes()).is_some()
}

/// A word is a closing mark, calls a macro, or is read for one.
#[tactic(auto, unfolding(crate::specs::Words::parsed))]
fn parsed(page: &mut Page, quoted: bool) -> Seen
    ensures { offered page.new result ≡ specs.parsed quoted page.old }
{
    match closing_mark(quoted, page.word.as_bytes()) {
        Some(byte) => mark(page, byte),
        None => unmarked(page, quoted),
    }
}

/// Marks that were held back come before a word that is none.
#[tactic(auto, unfolding(crate::specs::Words::unmarked))]
fn unmarked(page: &mut Page, quoted: bool) -> Seen
    ensures { offered page.new result ≡ specs.unmarked quoted page.old }
{
    if !page.marks.is_empty() {
        return Seen::left(Act::Marks);
    }
    match called_by(quoted || page.call.plain, page.word.as_bytes()) {
        Some(called) => call(page, called),
        None => argument(page, quoted),
    }
}

/// A closing mark comes: it is held back, as it may be the last of the line.
#[tactic(auto, unfolding(crate::specs::Words::mark))]
fn mark(page: &mut Page, mark: u8) -> Seen
    ensures { offered page.new result ≡ specs.mark mark page.old }
{
    if is_pending(page) {
        return stands(page);
    }
    if is_text(page) {
        return mark_as_word(page);
    }
    if page.marks.is_full() {
        return Seen::left(Act::Marks);
    }
    page.marks.push(mark);
    page.call.taker = taken_after_mark(page.call.taker);
    page.call.some = true;
    page.call.listed = false;
    page.scan = Scan::Between;
    Seen::left(Act::Nothing)
}

/// A mark comes first: the macro stands for text, and may go on after marks.
#[tactic(auto, unfolding(crate::specs::Words::stands))]
fn stands(page: &mut Page) -> Seen
    ensures { offered page.new result ≡ specs.stands page.old }
{
    let taker = page.call.taker;
    let seen = leaves(page);
    if begins_anew(taker) {
        page.call.taker = taker;
    }
    seen
}

/// A closing mark that comes first is a word for some macros.
fn is_text(page: &Page) -> bool
    ensures { result ≡ specs.is_text page.now }
{
    !page.call.some
        && matches!(
            page.call.taker,
            Macro::Words(_)
                | Macro::SectionName
                | Macro::Subsection
                | Macro::Parameter
                | Macro::ResultType
                | Macro::Variable
                | Macro::Configuration
                | Macro::Declaration
                | Macro::Prefix
        )
}

/// Such a word is read for the macro.
fn mark_as_word(page: &mut Page) -> Seen
    ensures { offered page.new result ≡ specs.mark_as_word page.old }
{
    page.scan = Scan::Between;
    if matches!(page.call.taker, Macro::Prefix) {
        return prefix(page);
    }
    page.call.some = true;
    Seen::left(Act::Word(Font::Roman))
}

/// The last part of a long word.
fn ends_long(page: &mut Page) -> Seen
    ensures { offered page.new result ≡ specs.ends_long page.old }
{
    page.call.going = false;
    page.scan = Scan::Between;
    let following = page.call.following;
    page.call.following = Following::Nothing;
    page.call.taker = taken_after(page.call.taker);
    after_long(following)
}

/// The prefix of a long word is read as a word, and more of it comes.
fn long_begins(page: &mut Page, inside: Inside) -> Seen
    ensures { offered page.new result ≡ specs.long_begins inside page.old }
{
    page.lay.partial = true;
    page.call.going = true;
    let seen = argument(page, true);
    page.scan = Scan::Goes(inside);
    seen
}

/// A word is longer than what is kept of one: its prefix goes out, or a further part.
pub fn long(page: &mut Page, inside: Inside) -> Seen
    ensures { offered page.new result ≡ specs.long inside page.old }
{
    if page.call.going {
        page.scan = Scan::Goes(inside);
        return Seen::left(Act::More);
    }
    if !page.marks.is_empty() {
        return Seen::left(Act::Marks);
    }
    if is_enclosure_pending(page) {
        return leaves(page);
    }
    long_begins(page, inside)
}

/// A long word goes on.
pub fn goes_on(page: &mut Page, inside: Inside) -> Seen
    ensures { offered page.new result ≡ specs.goes_on inside page.old }
{
    page.word = Name::new();
    page.scan = match inside {
        Inside::Word => Scan::Word,
        Inside::Escape => Scan::Escape,
        Inside::Quoted => Scan::Quoted,
        Inside::QuotedEscape => Scan::QuotedEscape,
        Inside::Closing => Scan::Closing,
        Inside::Named(escape, quoted) => Scan::Named(escape, quoted),
    };
    Seen::left(Act::Nothing)
}
