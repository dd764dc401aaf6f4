//! Laws of the words of lines, and of the enclosures that a line opens.
ghost use Rattle.mdoc_converter.specs.WordLaws.{HeadingsAreSaid, LastIsClosedFirst, LinesAreSaid, TextIsSaid, WordsAreSaid};

/// Does nothing: its contract is the laws.
///
/// Proved: A text line puts out, whatever the state of the page at its beginning, parts whose words are its bytes,
/// each once and in order, but for the tabs that end cells where it is a row, and blanks after them. What stands
/// before and after them is a joint, or the backslash of a hyphen after which no line is broken. It begins with no
/// blank and no control character, and no star stands after a backslash in it. (`text` of `words_are_said`)
/// Proved: A line of a macro puts out, whatever the state of the page at its beginning if no closing marks are held
/// back, parts whose words are those of its words that call no macro, once and in order, however long they are,
/// hyphens in them as `\-`, but for those of the name or the argument of an escape. In a description (`.Nd`), after `.Ss` and `.Sx` and in `%B`, `%N`, `%O`, `%R` and `%T`
/// they stay, but for one after another, up to the next macro; of `.An`, on its line or called, `-split` and
/// `-nosplit` are options and not said. On lines of `.Nd`, `.Fd`, `.Hf` and parts of references, and in the head of
/// an item of `-diag`, words call no macro, so that all are said. What stands before and after them is what macros
/// add: joints, fonts, `\&` where they end no sentence, what opens and closes enclosures, texts that macros stand
/// for, lines of requests. The macro of the line, and each that a word calls, is any of the table of macros but those
/// that print their words otherwise by it, or not at all (`prints_otherwise`): `.At`, `.St` and `.Lb`, which have
/// names for them; `.Os`, `.Ex` and `.Rv`, which make the title or a sentence of them; `.Bk`, `.Ek` and what prints
/// nothing; tables, `.de`, `.am` and `.ig`, whose lines pass; and `.sp`. Headings, and lines whose words are read for
/// what they ask, are apart. Each word stands after one blank, between quotes or not, and has no comment, string or
/// escaped backslash, nor a backslash at the line's end. Between quotes two quotes are one, and blanks are said as
/// they are or as `\~`, all of a word in the same way. (`words` of `words_are_said`)
/// Proved: A heading, a line of `.Sh`, puts out its words as a line of a macro does: its first word, where it calls
/// no macro, goes out as it is, hyphens too, and the others as those of other lines. (`headings` of `words_are_said`)
/// Proved: Lines that follow one another, as many as there are, put out, whatever the state of the page before the
/// first if no closing marks are held back, parts whose words are those of each line, once and in order: of text
/// lines, headings and lines of macros, with words between quotes or not, those that stand above, of empty lines and
/// comments (`.\"`) none. Of lines whose words are read for what they ask, `.Dd`, `.Dt`, `.Bl`, `.Bd`, `.Bf` and
/// `.Sm`, none either, whatever stands in them but a comment, a string, an escaped backslash and one at the end;
/// where a list or a display begins, fewer than 64 are open around the innermost. Outside of it are macros that print
/// their words otherwise by the table, and such as it has not, text lines that begin with a blank, strings, and other
/// requests. (`lines` of `words_are_said`)
/// Proved: At the end of any line, where what was pending was said, what closes the enclosures of the line goes out, the
/// last of them first, and then the line ends as one that opened none. (`enclosures` of `words_are_said`)
pub fn words_are_said()
    ensures text { TextIsSaid }
    ensures words { WordsAreSaid }
    ensures headings { HeadingsAreSaid }
    ensures lines { LinesAreSaid }
    ensures enclosures { LastIsClosedFirst }
{}
