//! What the words of a macro are read for.
ghost use Rattle.std.specs.Prelude.{◌≡◌, ◌≤◌};
ghost use Rattle.mdoc_layout.specs.Seeing.{offered};
ghost use Rattle.mdoc_words.specs.Taking as specs;

use super::calls::{is_enclosure_pending, is_pending, leaves};
use super::meanings::{meaning_of, taken_as};
use mdoc_layout::{Act, Font, Macro, Page, Scan, Seen};

/// Whether a word is an opening mark.
fn is_opening(word: &[u8]) -> bool
    ensures { result ≡ specs.is_opening word.now }
{
    match word {
        [mark] => *mark == b'(' || *mark == b'[',
        _ => false,
    }
}

/// Whether a word is the mark in the midst.
fn is_bar(word: &[u8]) -> bool
    ensures { result ≡ specs.is_bar word.now }
{
    match word {
        [mark] => *mark == b'|',
        _ => false,
    }
}

/// A word that is read for the macro that takes words.
#[tactic(auto, unfolding(crate::specs::Taking::argument))]
pub(crate) fn argument(page: &mut Page, quoted: bool) -> Seen
    ensures { offered page.new result ≡ specs.argument quoted page.old }
{
    if !quoted && is_bar(page.word.as_bytes()) && is_pending(page) {
        return leaves(page);
    }
    if is_enclosure_pending(page) && (quoted || !is_opening(page.word.as_bytes())) {
        return leaves(page);
    }
    page.scan = Scan::Between;
    if !quoted && is_bar(page.word.as_bytes()) {
        return Seen::left(Act::Word(Font::Roman));
    }
    let prefix = matches!(page.call.taker, Macro::Prefix);
    if !quoted && is_opening(page.word.as_bytes()) && !prefix {
        return Seen::two(Act::Word(Font::Roman), Act::Join);
    }
    let seen = taken(page);
    page.call.some = true;
    seen
}

/// By the macro that takes it.
#[tactic(auto, unfolding(crate::specs::Taking::taken_word))]
fn taken(page: &mut Page) -> Seen
    ensures { offered page.new result ≡ specs.taken_word page.old }
{
    taken_as(page, meaning_of(page.call.taker).takes)
}
