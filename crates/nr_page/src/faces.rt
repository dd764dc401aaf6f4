//! How much of the looks of cells is shown.

/// How much of the looks of cells a page shows. A backspace strikes one byte over another.
#[derive(Clone, Copy, Debug, PartialEq, Eq)]
pub enum Faces {
    /// Letters and digits of ASCII are underlined, and nothing is bold.
    Letters,
    /// Each cell but a blank is underlined or bold.
    All,
}
