//! What counts for the width of a column.

ghost use Rattle.std.specs.Prelude.{◌≡◌};
ghost use Rattle.tbl_columns.specs.Counted as specs;

use super::grid::Column;

impl Column {
    /// A text counts for it.
    pub(crate) fn with_text(self, width: usize) -> Column
        ensures { result ≡ specs.with_text width self }
    {
        Column {
            width: self.width.max(width),
            ..self
        }
    }

    /// A field of `a` counts for it.
    pub(crate) fn with_alpha(self, width: usize) -> Column
        ensures { result ≡ specs.with_alpha width self }
    {
        Column {
            alphas: true,
            alpha: self.alpha.max(width),
            ..self
        }
    }

    /// A number counts for it, where its width shows.
    pub(crate) fn with_number(self, width: usize, prefix: usize) -> Column
        ensures { result ≡ specs.with_number width prefix self }
    {
        Column {
            numbers: true,
            prefix: self.prefix.max(prefix),
            back: self.back.max(width.saturating_sub(prefix)),
            ..self
        }
    }

    /// What its fields of `a` take.
    fn alpha_width(self) -> usize
        ensures { result ≡ specs.alpha_width self }
    {
        if self.alphas {
            self.alpha.saturating_add(2)
        } else {
            0
        }
    }

    /// As wide as what counts for it.
    pub(crate) fn as_wide(self) -> Column
        ensures { result ≡ specs.as_wide self }
    {
        let numbers = self.prefix.saturating_add(self.back);
        let least = self.least_cells;
        let wide = self.width.max(numbers).max(self.alpha_width());
        Column {
            width: wide.max(least).max(1),
            ..self
        }
    }
}
