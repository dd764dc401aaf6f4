//! What the store keeps beside texts: tables of what has a name, traps, hyphenation words.
//!
//! It stands on nr_units and nr_vectors. To read: `table`; `trap`, `traps`; `word`, `hyphenation`.
#![tactic(auto)]

pub mod hyphenation;
pub mod table;
pub mod trap;
pub mod traps;
pub mod word;

pub use hyphenation::HyphenationWords;
pub use table::{Entry, SymbolTable};
pub use trap::Trap;
pub use traps::Traps;
pub use word::HyphenationWord;
