//! Laws of tables and of whole pages, each the contract of a function that does nothing: they speak of the definitions alone.
ghost use Rattle.tbl_laws.specs.Columns.{EqualAtLast, FieldsFitAtLast, LeastFitsAtLast, SpansFitAtLast};
ghost use Rattle.tbl_laws.specs.HeldRows.{RowsAreHeld};
ghost use Rattle.tbl_laws.specs.Lines.{FieldsGoOut};
ghost use Rattle.tbl_laws.specs.OutsideText.{FirstTextStays, LastTextStays, PagesStay, TablesEnd, TextBetweenStays};
ghost use Rattle.tbl_laws.specs.Rows.{FormatsAreRead, OptionsAreRead, RowsAreEmitted, TablesAreEmitted};
ghost use Rattle.tbl_laws.specs.Texts.{BarsHaveTheirTexts, EdgesHaveNone, RowsHaveTheirTexts, RulesHaveTheirTexts, TextsGoOut};

/// Text outside of tables goes out as it came: a page in which no line begins a table; what stands before the first such line; and
/// what stands after `.TE`, up to the next such line or to the page's end. `.TE` ends a table after any line that doesn't end with a
/// backslash.
///
/// Proved: A page in which no line is `.TS` goes out byte for byte, whatever its bytes are and whether its last line
/// ends. Of any page goes out first, byte for byte, what stands before its first line `.TS`; after a line `.TE` (that
/// follows on no line with a backslash at its end, where three bytes of a row may be kept) goes out what the page comes
/// to up to there, then byte for byte the text up to the next line `.TS`, and nothing more where none comes.
pub fn text_outside_stays()
    ensures pages { PagesStay }
    ensures first { FirstTextStays }
    ensures last { LastTextStays }
    ensures between { TextBetweenStays }
    ensures ends { TablesEnd }
{}

/// The rows of a table are emitted to who sets it as they stand on the page: each field once, in the order of rows and columns, and
/// empty fields too. So it is of lines that are no requests, with at most as many fields as there are columns, whose fields are text
/// without escapes, neither rules nor blocks; in any table of which blanks are kept, and in one whose formats are a line of columns
/// of `l`, `r` and `c`, with a line of options before it or without.
///
/// Proved: Of rows whose fields are text (no backslash, no `_`, `=` or `T{` alone; at most as many fields as columns; no
/// line that begins with a point or is longer than what is kept) each field is emitted once, in the order of rows and
/// columns, with its bytes, wherever a page stands between the rows of a table without `nospaces`; so it stands after
/// `.TS`, a line of options or none, and a line of formats of 1 to 64 letters `l`, `r`, `c`, blanks and a point.
pub fn rows_are_emitted()
    ensures formats { FormatsAreRead }
    ensures options { OptionsAreRead }
    ensures rows { RowsAreEmitted }
    ensures tables { TablesAreEmitted }
{}

/// Who sets a table holds such rows as they were emitted: the text of each field once, in the order of rows and columns, and each row
/// with its fields. So it is in a table with one line of formats that holds no rows yet, where there is room for all of them, so
/// that no part of the table goes out before its end.
///
/// Proved: What is held of a table with one line of formats, once such rows were emitted and before any goes out, is the
/// text of each field once, in the order of rows and columns, and each row with its own, where there is room for all.
pub fn rows_are_held()
    ensures { RowsAreHeld }
{}

/// Fields fit in the columns with which a table goes out, where it isn't narrowed, whatever blocks and shares of the line add to these:
/// a column is no narrower than a field that stands in it alone, and as wide as `w` says, and one cell at least; several together, with
/// the spaces between them, are no narrower than one that stands in these, but with `expand`, by which spaces may be less. Columns of
/// `e` are of one width, where none is of `x`.
///
/// Proved: A table that isn't narrowed goes out with columns in which its fields fit: one is no narrower than a field that
/// stands in it alone, as wide as `w` says, and one cell at least; several with the spaces between them are no narrower than
/// one that stands in these, where the table has no `expand`, and columns of `e` of one width, where none is of `x`, too.
pub fn fields_fit_at_last()
    ensures one { FieldsFitAtLast }
    ensures several { SpansFitAtLast }
    ensures least { LeastFitsAtLast }
    ensures equal { EqualAtLast }
{}

/// With a line go out the texts of the fields that stand on it, each once, in the order of columns, and no others: with a row
/// those that begin in it, and of those that go on over rows below the ones that stand here, of a block one of its lines; with a rule
/// and with bars alone only of fields that go on, and lines of blocks. They stand in its bytes one after the other.
///
/// Proved: With a line go out the texts of the fields that stand on it, of a block the text of one of its lines, each once, in
/// the order of columns, and no others.
pub fn each_text_once()
    ensures rows { RowsHaveTheirTexts }
    ensures bars { BarsHaveTheirTexts }
    ensures rules { RulesHaveTheirTexts }
    ensures edges { EdgesHaveNone }
    ensures bytes { TextsGoOut }
{}

/// From bytes to bytes: a page of text, a table and text goes out as the text, a line for each row, and the text. On the line of a row
/// stand its fields, each once, in the order of columns, with blanks before each; nothing else stands there, but `\&` before a line
/// that would begin with a blank, or as a request does. Four requests stand before the lines, and two after them. So it is of a table
/// without options, with one line of columns of `l`, `r` and `c`, whose rows are as `rows_are_emitted` has them and have no control
/// characters, where it is held whole, and is not narrowed: where tables are not to be, where the page is no manual page, or where the
/// table is no wider than the line.
///
/// Proved: A page of text, one table and text goes out as the text byte for byte, `.TS`, four requests, a line for each row
/// with the texts of its fields, each once, in the order of columns, and besides only blanks before each and `\&` before a line
/// that would begin with a blank or as a request does, two requests, `.TE`, and the text byte for byte, where the table has no
/// options, one line of formats of 1 to 64 letters `l`, `r`, `c`, blanks and a point, and rows as above without control
/// characters, all within the limits, and no table is narrowed there or this one is no wider than the line.
pub fn fields_go_out()
    ensures { FieldsGoOut }
{}
