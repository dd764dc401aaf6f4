//! What comes next of the levels.
use crate::element::Element;

/// What comes next of the levels, a mode left where it lies.
#[derive(Clone, Copy)]
pub enum Sight {
    /// An element of the newest level.
    Item(Element),
    /// The end of the newest level.
    End,
    /// A mode that is to be resumed.
    Resume,
    /// There is no level.
    Nothing,
}

/// What comes next of the levels, with the modes `K` that sprung texts resume. A level gives its text, then its end;
/// after the end of a sprung one comes its mode.
#[derive(Clone, Copy)]
pub enum Shown<K> {
    /// An element of the newest level.
    Item(Element),
    /// The end of the newest level.
    End,
    /// The mode that is to be resumed.
    Resume(K),
    /// There is no level.
    Nothing,
}

/// What is left of a level's text.
#[derive(Clone, Copy)]
pub enum Rest<'s> {
    /// Elements of a text.
    Text(&'s [Element]),
    /// Bytes that were given, or of an argument.
    Bytes(&'s [u8]),
}
