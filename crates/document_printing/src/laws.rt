//! Laws of what reaches a terminal, each the contract of a function that does nothing: they hold whatever the page is.
ghost use Rattle.document_printing.specs.Laws.{CutReachesTerminal, LinesStay, ReachesTerminal};

/// Whatever the page is, what reaches a terminal by a fixed table is UTF-8, with no control character but newline, and with
/// backspaces or escape sequences only as they were asked for, where the run ends by the page's end or a limit. Where the terminal
/// fails it is a prefix of such a text.
///
/// Proved: Whatever the page is, what reaches an empty terminal by a fixed table is UTF-8 without control characters
/// but newline, and with backspaces or escape sequences only as they were asked for, where the run ends by the page's
/// end or a limit; where the terminal fails, a prefix of such a text. Each line of the pages stands there as one line,
/// of as many cells with the same characters.
/// (`reaches_terminal`, `lines_stay`)
pub fn reaches_terminal()
    ensures whole { ReachesTerminal }
    ensures cut { CutReachesTerminal }
{}

/// Each line of the pages stands there as one line, of as many cells with the same characters.
pub fn lines_stay()
    ensures { LinesStay }
{}
