//! Laws of a block's words and lines, each the contract of a function that does nothing: they speak of the definitions alone.
ghost use Rattle.tbl_blocks.specs.Laws.{BlocksAreAdded, FieldsAreAdded, LinesFit, LinesStay, LongestFits, PartsStandOnce, WidthIsThatOfW, WordsAreRead, WordsFit};

/// A text is as wide as the formatter's width function has it.
///
/// Proved: Where only the page's own text counts (no string, register, motion, line, tab or control character), a text takes
/// as many cells as `\w` measures, with long names on, at any size.
pub fn width_is_that_of_w()
    ensures { WidthIsThatOfW }
{}

/// Each word of a text is read once, and in order.
///
/// Proved: The parts that are read of a line of text, or of a field, have its bytes without blanks and tabs, each once and in
/// their order, where it has no backslash and there is room for as many parts as it has bytes.
pub fn words_are_read()
    ensures { WordsAreRead }
{}

/// Each part of a block stands on one line, and in order.
///
/// Proved: Whatever the width is, the lines of a block have its parts, each once and in their order, and no line has none.
pub fn parts_stand_once()
    ensures { PartsStandOnce }
{}

/// Each line fits in its width, or is one run, in which no line may end.
///
/// Proved: A line of a block takes no more cells than the width, or is one run: parts within which no line may end.
pub fn lines_fit()
    ensures { LinesFit }
{}

/// What is read of a text is added to the parts of others, and nothing of a field is indented.
///
/// Proved: The parts of a block or a field stand after those that were read before, which stay as they are; those of a field have
/// no indent.
pub fn parts_are_added()
    ensures blocks { BlocksAreAdded }
    ensures fields { FieldsAreAdded }
{}

/// All lines fit where the width is no less than the longest run, or in a text without indents than its longest word.
///
/// Proved: The lines of a block take no more cells than the width, spread or not, where that is no less than its longest run, or
/// where nothing is indented than its longest word: a table is never narrowed so far that a word juts out.
pub fn longest_fits()
    ensures runs { LongestFits }
    ensures words { WordsFit }
{}

/// Lines that aren't spread are the same in any lesser width in which each of them fits.
///
/// Proved: Ragged lines of a block are those of any lesser width that is no less than the widest of them, where no word is
/// cut with a hyphen before what has no cell.
pub fn lines_stay()
    ensures { LinesStay }
{}
