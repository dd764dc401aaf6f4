//! What is promised of a coded text: laws of the definitions alone, so the functions do nothing.
ghost use Rattle.utf8_own_stage.specs.Laws.{ComesBack, NoPoints, OnlyPoints};

/// Where a table has all that a text shows, its bytes are read back as its letters with their marks, and points.
///
/// Proved: What is coded of a text is read back as the letters and marks of the text, and its other characters of ASCII, with points in
/// it, for each text and each table that has all of them. (`coded_texts_come_back`, `Coder`)
pub fn coded_texts_come_back()
    ensures { ComesBack }
{}

/// Points are all that is added to a text.
///
/// Proved: Of a text with points each letter stands once and in order, and before it nothing, `\(zb`, or, before a newline, `\(zj`; where none
/// is East Asian there is no point. (`points_are_added`)
pub fn points_are_added()
    ensures only { OnlyPoints }
    ensures none { NoPoints }
{}
