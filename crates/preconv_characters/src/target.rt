//! What characters beyond ASCII become.
ghost use Rattle.std.specs.Prelude.{◌≡◌};
ghost use Rattle.preconv_characters.specs.Targets.{is_utf8, target_of};

use utf8_characters::FixedTable;

/// What characters beyond ASCII become.
#[derive(Clone, Copy, Debug, PartialEq, Eq)]
pub enum Target {
    /// What they look like in ASCII.
    Ascii,
    /// Those of a table become its bytes, the others what they look like.
    Bytes(FixedTable),
    /// They stay themselves, in UTF-8.
    Utf8,
}

impl Target {
    /// The bytes of a table, or ASCII.
    pub fn of(table: Option<FixedTable>) -> Target
        ensures { result ≡ target_of table }
    {
        match table {
            Some(table) => Target::Bytes(table),
            None => Target::Ascii,
        }
    }

    /// Whether characters stay themselves.
    pub(crate) fn is_utf8(self) -> bool
        ensures { result ≡ is_utf8 self }
    {
        matches!(self, Target::Utf8)
    }
}
