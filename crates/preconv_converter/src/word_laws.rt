//! Laws of the words of a page.
ghost use Rattle.preconv_converter.specs.WordLaws.{LinesGoOut, PagesGoOut};

/// Does nothing: its contract is the laws.
///
/// Proved: Lines that follow one another, as many as there are, go out piece by piece, each piece once and in order,
/// whatever the state of the page before the first if a line begins there, nothing is half read, no byte is translated
/// and no sign becomes a quote. A piece is a byte that goes out as it is, or a character, by itself or by its name,
/// which goes out as what it looks like, or a font, which goes out as one of a terminal; but a hyphen may go out as
/// `\-`. Where a sentence ends in a bracket or a quote, `\*(.\n(.u` stands before the newline; an empty line below a
/// tag is `.sp`, and `.br` stands before one that begins with a blank. In a line of a font macro a quote stands before
/// the ninth word and after the last, quotes that stand around words from the ninth on are left out, between them the
/// blank may become a change of font, `\f` and a letter; and `\&` may stand before a blank that begins its first word,
/// or the text after a font. So no word is lost or said twice. The lines are: empty ones; comments, of ASCII without
/// DEL; text lines; a control character alone; lines of requests and macros that preconv does not know or that only
/// set how lines after them are read (`passes`: titles, paragraphs, tables, strings, definitions but `de1` and `am1`),
/// with no backslash in them; and those of macros whose words it reads (`takes_words`: fonts, headings, `.IP`, `.UR`,
/// `.MT`), each word after one blank, between quotes or not, with no quote in it. Text lines and words are of bytes of
/// ASCII but carriage returns and backslashes, of the escapes `\-`, `\&`, `\|`, `\c` and `\e`, of fonts by `\f` and
/// one of `B I P R V 1 2 3 4 5`, of characters beyond ASCII, and of names `\(xx` of those that have one, but of those
/// that the language has and of `\(*W`; in words of no blanks among these. (`lines` of `words_go_out`)
/// Proved: What goes out of a page of such lines, its end too, is these pieces. (`pages` of `words_go_out`)
pub fn words_go_out()
    ensures lines { LinesGoOut }
    ensures pages { PagesGoOut }
{}
