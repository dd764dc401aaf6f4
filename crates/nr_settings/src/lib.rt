//! The formatter's settings, the requests that only set them, and the arguments of the other requests; the
//! widths of `\w`, `\h` and `\l`. Plain data and plain functions.
//!
//! It stands on nr_units and nr_vectors. To read: `lengths`, `arguments`, `plain_numbers`, `numbers`; then a file for each
//! matter, in any order: `filling`, `indents`, `fonts`, `pages`, `hyphenation`, `characters`, `registers`, `traps`, `spacing`,
//! and `stops` before `tabs`; `settings`; `specials`, `motions`, `escapes`, `widths`.
#![tactic(auto)]

mod arguments;
mod characters;
mod escapes;
mod filling;
mod fonts;
mod hyphenation;
mod indents;
mod lengths;
mod motions;
mod numbers;
mod pages;
mod plain_numbers;
mod registers;
mod settings;
mod spacing;
mod specials;
mod stops;
mod tabs;
mod traps;
mod widths;

pub use arguments::Arguments;
pub use characters::{c2, cc, cp, prints};
pub use filling::{Align, Filling, Way};
pub use fonts::{Font, Fonts};
pub use hyphenation::Hyphenation;
pub use indents::{Indents, Kept, Margins};
pub use lengths::{Height, Width};
pub use motions::{Repeated, motion, rule};
pub use numbers::{Change, is_true_number};
pub use pages::{Pages, page_number};
pub use registers::{FormatChange, RegisterChange, af, nr};
pub use settings::Settings;
pub use spacing::{ne, rt, sp};
pub use specials::Special;
pub use stops::{Stop, StopKind, Stops};
pub use tabs::Tabs;
pub use traps::{DiversionTrap, LineTrap, PageTrap, TrapMove, ch, dt, it, wh};
pub use widths::width;
