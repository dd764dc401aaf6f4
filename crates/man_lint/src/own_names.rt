// The names that a page gives its own macros and strings.
ghost use Rattle.std.specs.Prelude.{◌≡◌, length};
ghost use Rattle.man_lint.specs.OwnNames as specs;

use nr_units::Name;
use nr_vectors::slice_vec::SliceVec;
use std::marker::Model;

/// How many names of a page are kept.
pub const MOST_NAMES: usize = 512;

/// The names of a page.
#[derive(Drop)]
pub struct OwnNames<'a> {
    names: SliceVec<'a, Name>,
    /// There may be others: there were too many, or one had escapes.
    others: bool,
}

impl<'a> Model for OwnNames<'a> {
    ghost use Rattle.man_lint.specs.OwnNames.{AllNames};

    ghost Value = { AllNames };

    ghost view = { λ n. record { names = n.names; others = n.others } };
}

impl<'a> OwnNames<'a> {
    /// None yet: names come into this room.
    pub fn over(room: &'a mut [Name]) -> OwnNames<'a>
        ensures { result ≡ specs.no_names (length room.entry.now) }
    {
        OwnNames {
            names: SliceVec::over(room),
            others: false,
        }
    }

    /// Whether there may be other names than those that are kept.
    pub fn may_have_others(&self) -> bool
        ensures { result ≡ self.now.others }
    {
        self.others
    }

    /// Whether the page gave this name.
    pub fn has(&self, name: &[u8]) -> bool
        ensures { result ≡ specs.has name.now self.now.names.items }
    {
        for own in self.names.as_slice() {
            if own.as_bytes() == name {
                return true;
            }
        }
        false
    }

    /// The page gives a name, which has escapes or not.
    pub fn give(&mut self, name: Name, escaped: bool)
        ensures { self.new ≡ specs.given name escaped self.old }
    {
        if escaped || self.names.is_full() {
            self.others = true;
        } else {
            self.names.push(name);
        }
    }
}
