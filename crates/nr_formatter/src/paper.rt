//! The page under way, but for its lines. (CSTR 54, section 3.)
ghost use Rattle.std.specs.Prelude.{◌≡◌};
ghost use Rattle.nr_formatter.specs.Beginning.{first_given, first_paper};
ghost use Rattle.nr_formatter.specs.Pages.{following};
ghost use Rattle.nr_formatter.specs.Places.{page_outlet, is_on_page, is_open, page_place};

use nr_units::Format;

/// Whether a page is open.
#[derive(Clone, Copy)]
pub enum PageState {
    /// The first page has not begun.
    Unbegun,
    Open,
    /// The last page has ended, and no other has begun.
    Closed,
}

/// Where output goes.
#[derive(Clone, Copy)]
pub enum Outlet {
    /// To the innermost diversion.
    Diversion,
    /// To a page that has still to begin.
    NoPage,
    /// To the page after the open one, which has no room.
    Full,
    /// To the open page.
    Room,
}

impl Outlet {
    /// Whether it is a page.
    #[inline]
    pub(crate) fn is_on_page(self) -> bool
        ensures { result ≡ is_on_page self }
    {
        match self {
            Outlet::Diversion => false,
            _ => true,
        }
    }
}

/// The page under way.
#[derive(Clone, Copy)]
pub struct Paper {
    pub state: PageState,
    /// The number of the open page, or the one that the next will have.
    pub number: i32,
    /// The number of the page after the open one, where it was given.
    pub next: Option<i32>,
    /// The place on the open page, in u from its top.
    pub place: u32,
    /// The open page is being ejected.
    pub ejecting: bool,
}

/// The registers `dn` and `dl`, and the formats of the built-in registers that have one.
#[derive(Clone, Copy)]
pub struct Given {
    /// `dn`, in u.
    pub height: i32,
    /// `dl`, in u.
    pub width: i32,
    pub page_format: Format,
    pub place_format: Format,
    pub height_format: Format,
    pub width_format: Format,
}

/// The lowest place on a page, in u.
pub(crate) const LOWEST: u32 = 2_147_483_647;

impl Paper {
    /// The first page has not begun.
    pub fn new() -> Paper
        ensures { result ≡ first_paper }
    {
        Paper {
            state: PageState::Unbegun,
            number: 1,
            next: None,
            place: 0,
            ejecting: false,
        }
    }

    /// Where output goes that is not diverted, on pages so many u long.
    pub fn outlet(self, page_length: u32) -> Outlet
        ensures { result ≡ page_outlet self.state self.place page_length }
    {
        match self.state {
            PageState::Unbegun | PageState::Closed => Outlet::NoPage,
            PageState::Open => {
                if self.place < page_length {
                    Outlet::Room
                } else {
                    Outlet::Full
                }
            }
        }
    }

    /// A page is open.
    pub fn is_open(self) -> bool
        ensures { result ≡ is_open self.state }
    {
        matches!(self.state, PageState::Open)
    }

    /// The place on the open page, or 0 while none is open.
    pub(crate) fn page_place(self) -> u32
        ensures { result ≡ page_place self }
    {
        if self.is_open() { self.place } else { 0 }
    }

    /// The number of the page after this one. After 2147483647 it is that again.
    pub(crate) fn following(self) -> i32
        ensures { result ≡ following self }
    {
        match self.next {
            Some(number) => number,
            None => {
                if self.number < 2_147_483_647 {
                    self.number + 1
                } else {
                    self.number
                }
            }
        }
    }
}

impl Given {
    /// 0, in digits.
    pub fn new() -> Given
        ensures { result ≡ first_given }
    {
        let plain = Format::Arabic { places: 1 };
        Given {
            height: 0,
            width: 0,
            page_format: plain,
            place_format: plain,
            height_format: plain,
            width_format: plain,
        }
    }
}
