//! The store: texts under names beside the requests of the language, texts being built, the levels that read
//! texts, registers, traps and hyphenation words, under one charge.
//!
//! It stands on nr_units, nr_vectors, nr_pool, nr_levels and nr_symbol_tables. To read: `height`, `element`, `request`,
//! `named`, `register`, `shown`, `refusal`; `memory`; `store`, and its calls in `store/`: `beginning`, `names`,
//! `lines`, `building`, `levels`, `arguments`, `registers`, `traps`, `words`.
//!
//! Proved: Callers see the store as one record of plain lists.
#![tactic(auto)]

pub mod element;
pub mod height;
pub mod memory;
pub mod named;
pub mod refusal;
pub mod register;
pub mod request;
pub mod shown;
pub mod store;

pub use element::{Diversion, Draft, Element};
pub use height::Height;
pub use memory::Room;
pub use named::{Meaning, Sense};
pub use nr_symbol_tables::{HyphenationWord, Trap};
pub use refusal::{Refusal, StoredBytes};
pub use register::Register;
pub use request::Request;
pub use shown::{Rest, Shown, Sight};
pub use store::Store;
