//! What is half read of an escape.

/// What was read of an escape that may name a string.
#[derive(Clone, Copy)]
pub(crate) enum Pending {
    /// Nothing.
    Nothing,
    /// A backslash.
    Backslash,
    /// And `*`.
    Star,
    /// And `(`.
    Open,
    /// And a byte.
    Pair(u8),
    /// `[` after the star.
    Bracket,
    /// And a byte.
    One(u8),
    /// And two.
    Two(u8, u8),
}
