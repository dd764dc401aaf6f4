//! Page selection: a list of pages, as `1,3-5,9-`, and whether a page is in it.
ghost use Rattle.std.specs.Prelude.{◌≡◌, ◌≢◌, ℕ, ◌<◌, ◌≤◌, ◌↔◌, List, [], ◌∷◌, ◌++◌, ℤ, IsTrue, IsErr, IfOk, Some, IfSome, IfNone, IsSomeAnd, None, true, codes};
ghost use Rattle.nr_page.specs.Selection.{WritesNumber, SpellsItem, Spells, IsPageList, Includes, Selects};
ghost use Rattle.nr_page.specs.SelectionReading.{BeginsNoDigit, BeginsAfterItem};
ghost use Rattle.nr_page.specs.declared.selection.PageRange.{PageRange as Item};

use arrayvec::ArrayVec;
use std::error::Error;
use std::fmt;
use std::marker::Model;

/// The most items that a page list may have.
const MOST_ITEMS: usize = 64;

/// The largest number that a page list may name.
const LARGEST_NUMBER: u64 = 2_147_483_647;

const COMMA: u8 = b',';

const HYPHEN: u8 = b'-';

/// The pages that one item of a page list names. N and M are at most 2147483647.
#[derive(Clone, Copy)]
pub enum PageRange {
    /// `N`: page N alone.
    One(u32),
    /// `N-M`: from page N to page M, both included.
    Between(u32, u32),
    /// `-N`: each page whose number is at most N.
    UpTo(u32),
    /// `N-`: each page whose number is at least N.
    From(u32),
}

impl PageRange {
    /// Whether the item names the page.
    fn includes(self, page: i64) -> bool
        ensures { IsTrue result ↔ Includes self page }
    {
        match self {
            PageRange::One(number) => page == i64::from(number),
            PageRange::Between(first, last) => i64::from(first) <= page && page <= i64::from(last),
            PageRange::UpTo(last) => page <= i64::from(last),
            PageRange::From(first) => i64::from(first) <= page,
        }
    }
}

/// Page 0 alone, which fills the unused places of a list.
impl Default for PageRange {
    ghost use Rattle.nr_page.specs.declared.selection.PageRange.TheVariants.{One};

    ghost is_default = { λ pages. pages ≡ One 0 };

    fn default() -> Self {
        PageRange::One(0)
    }
}

/// The error of a text that is no page list.
#[derive(Clone, Copy, Debug)]
pub struct BadList;

impl fmt::Display for BadList {
    ghost output = { λ _. Some (codes "bad page list") };

    fn fmt<W: fmt::Write>(&self, f: &mut fmt::Formatter<W>) -> fmt::Result {
        write!(f, "bad page list")
    }
}

impl Error for BadList {}

/// The pages to print: all of them, or those that a page list names.
#[derive(Drop)]
pub struct Select {
    list: Option<ArrayVec<PageRange, MOST_ITEMS>>,
}

impl Model for Select {
    ghost use Rattle.std.specs.Prelude.{Option, List, option_map};
    ghost use Rattle.nr_page.specs.declared.selection.PageRange.{PageRange as Item};

    ghost Value = { Option (List Item) };

    ghost view = { λ s. option_map (λ list. list.items) s.list };

    ghost inverse = { λ v. record { list = option_map (λ items. record { items = items }) v } };
}

impl Select {
    /// Every page.
    pub fn all() -> Self
        ensures every { (page : ℤ) → Selects result page }
        ensures no_list { result ≡ None }
    {
        Select { list: None }
    }

    /// Reads a page list (CSTR 54, "Usage", the option `-o`): items `N`, `N-M` with N not above M, `-N` and `N-`,
    /// 1 to 64 of them, separated by commas. A number is decimal digits, at most 2147483647; leading zeros are
    /// allowed, a sign or a blank isn't. `BadList` where the text is no such list.
    ///
    /// Proved: A page list is read exactly where a text spells one, of 1 to 64 items.
    pub fn parse(text: &[u8]) -> Result<Self, BadList>
        ensures listed { IfOk result (λ select. IsSomeAnd select (λ items. IsPageList items text.now)) }
        ensures read { (items : List Item) → IsPageList items text.now → result ≡ Ok (Some items) }
        ensures bad { IsErr result ↔ ((items : List Item) → IsPageList items text.now → ⊥) }
    {
        match read_list(text) {
            Some(list) => Ok(Select { list: Some(list) }),
            None => Err(BadList),
        }
    }

    /// The same pages, in memory of their own.
    pub fn copied(&self) -> Select
        ensures { result ≡ self.now }
    {
        let Some(items) = &self.list else {
            return Select::all();
        };
        let mut list = ArrayVec::new();
        let _ = list.try_extend_from_slice(items.as_slice());
        Select { list: Some(list) }
    }

    /// Whether there is no list: every page is printed.
    pub fn is_all(&self) -> bool
        ensures { result ≡ true → self.now ≡ None }
    {
        self.list.is_none()
    }

    /// Whether the page of that number is selected. The number may be 0 or negative: `-N` selects those pages too.
    ///
    /// Proved: A page is selected exactly where an item of the list names it, or there is no list. (`Select::{has,
    /// all}`)
    pub fn has(&self, page: i64) -> bool
        ensures { IsTrue result ↔ Selects self.now page }
    {
        match &self.list {
            None => true,
            Some(list) => list.iter().any(|item| item.includes(page)),
        }
    }
}

/// The items of the list, all of the text.
fn read_list(text: &[u8]) -> Option<ArrayVec<PageRange, MOST_ITEMS>>
    ensures listed { IfSome result (λ list. IsPageList list.items text.now) }
    ensures read { (items : List Item) → IsPageList items text.now
        → IsSomeAnd result (λ list. list.items ≡ items) }
{
    let mut list = ArrayVec::new();
    let mut rest = text;
    loop {
        let (item, after) = read_item(rest)?;
        list.try_push(item).ok()?;
        if after.is_empty() {
            return Some(list);
        }
        rest = after_byte(after, COMMA)?;
    }
}

/// The item at the beginning of the text, and what follows it.
fn read_item(text: &[u8]) -> Option<(PageRange, &[u8])>
    ensures found { IfSome result (λ found. (prefix : List ℕ) × (text.now ≡ prefix ++ found.1.now)
        × SpellsItem found.0 prefix) }
    ensures read { (item : Item) (prefix after : List ℕ) → SpellsItem item prefix → BeginsAfterItem after
        → text.now ≡ prefix ++ after → IsSomeAnd result (λ found. (found.0 ≡ item) × (found.1.now ≡ after)) }
{
    if let Some(rest) = after_byte(text, HYPHEN) {
        let (last, after) = read_number(rest)?;
        return Some((PageRange::UpTo(last), after));
    }
    let (first, after_first) = read_number(text)?;
    let Some(rest) = after_byte(after_first, HYPHEN) else {
        return Some((PageRange::One(first), after_first));
    };
    let Some((last, after)) = read_number(rest) else {
        return Some((PageRange::From(first), rest));
    };
    if first <= last {
        Some((PageRange::Between(first, last), after))
    } else {
        None
    }
}

/// The number at the beginning of the text, and what follows its last digit.
fn read_number(text: &[u8]) -> Option<(u32, &[u8])>
    ensures found { IfSome result (λ found. (prefix : List ℕ) × (text.now ≡ prefix ++ found.1.now)
        × WritesNumber found.0 prefix) }
    ensures read { (n : ℕ) (prefix after : List ℕ) → WritesNumber n prefix → BeginsNoDigit after
        → text.now ≡ prefix ++ after → IsSomeAnd result (λ found. (found.0 ≡ n) × (found.1.now ≡ after)) }
{
    let mut value: u64 = 0;
    let mut len = 0;
    for byte in text {
        if !byte.is_ascii_digit() {
            break;
        }
        value = value * 10 + u64::from(*byte - b'0');
        if value > LARGEST_NUMBER {
            return None;
        }
        len += 1;
    }
    if len == 0 {
        return None;
    }
    Some((value as u32, &text[len..]))
}

/// What follows the byte, where the text begins with it.
fn after_byte(text: &[u8], byte: u8) -> Option<&[u8]>
    ensures found { IfSome result (λ rest. text.now ≡ byte ∷ rest.now) }
    ensures none { IfNone result ((rest : List ℕ) → text.now ≢ byte ∷ rest) }
{
    let (first, rest) = text.split_first()?;
    if *first == byte { Some(rest) } else { None }
}
