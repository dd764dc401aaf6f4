//! What a name stands for.
use crate::request::Request;
use nr_pool::Id;
use nr_symbol_tables::Entry;

/// What a name of the one name list stands for.
#[derive(Clone, Copy)]
pub enum Meaning {
    /// Nothing.
    Unknown,
    /// A request.
    Request(Request),
    /// A text: a macro, a string or a diversion.
    Text,
}

/// What a name of the name list stands for, with the number of a text.
#[derive(Clone, Copy)]
pub enum Sense {
    /// A request.
    Request(Request),
    /// A text of the pool.
    Text(Id),
}

impl Sense {
    /// An entry of the name list to fill new slices with.
    pub fn blank() -> Entry<Sense> {
        Entry::blank(Sense::Request(Request::Br))
    }
}
