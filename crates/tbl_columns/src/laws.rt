//! Laws of the columns of a table, each the contract of a function that does nothing: they speak of the definitions alone.
ghost use Rattle.tbl_columns.specs.Laws.{EqualColumns, FieldsFit, FittingTablesStay, LeastFits, SpansFit, TablesFit};

/// A field fits in its columns, where its width shows: once columns are measured by their fields, a column is no narrower than a field
/// that stands in it alone, and several together, with the spaces between them, no narrower than one that stands in these.
///
/// Proved: Once columns are measured by their fields, a field fits in its columns: one is no narrower than a field that stands in it
/// alone, and several with the spaces between them no narrower than one that stands in these.
pub fn fields_fit_columns()
    ensures one { FieldsFit }
    ensures several { SpansFit }
{}

/// Columns keep to their formats: once they are measured by their fields, each has one cell at least and is as wide as `w` says, and
/// those of `e` are of one width.
///
/// Proved: Once columns are measured by their fields, each has one cell at least and is as wide as `w` says, and columns of `e`
/// are of one width.
pub fn columns_keep_formats()
    ensures least { LeastFits }
    ensures equal { EqualColumns }
{}

/// A table that is no wider than the line stays as it is.
///
/// Proved: A table that is no wider than the line is not narrowed: its columns and fields are what they would be without a line.
pub fn fitting_tables_stay()
    ensures { FittingTablesStay }
{}

/// A table that is wider than the line fits once it is narrowed, if the least widths of its columns do, with the spaces between them, what
/// stands at its edges and the cell of a rule.
///
/// Proved: A table that is wider than the line ends within it once it is narrowed, where the least widths of its columns do, with
/// the spaces between them and what stands at its edges, and no text that is set in lines is wider than what it is filled in.
pub fn narrowed_tables_fit()
    ensures { TablesFit }
{}
