//! Laws of the output, each the contract of a function that does nothing: they speak of the definitions alone, over an empty sink.
ghost use Rattle.nr_laws.specs.Laws.{LimitsOnlyStop, NoLimitAsked, LimitsCut, LimitsCutOutput, DoneIsWhole, OneWhole, WiderLimits, LimitsUnmet, OneAnswer, FaultsAreOfTheSource};
ghost use Rattle.nr_laws.specs.Moves.{LimitsAreExact, MovesAreFew, MovesBeforeByte, MovesBetween};
ghost use Rattle.nr_laws.specs.PlainText.{PlainTextStays};
ghost use Rattle.nr_laws.specs.Printed.{NoByteIsAdded, NoHighControlGoesOut, NoControlGoesOut, BackspaceStrikes};
ghost use Rattle.nr_machine.specs.FirstBytes.{FirstIsKept};
ghost use Rattle.nr_laws.specs.Faces.{FacesOnlyShow, StruckOutIsSame, LettersAreLeft};
ghost use Rattle.nr_laws.specs.FilledText.{FilledTextIsRows, CutIsLongest, CutFits};

/// Limits only stop a run: no move asks for one, so the states are those of the run without limits, as far as the run goes.
///
/// Proved: No move of the machine asks for a limit: it leads to the same under any, and leaves them as they are.
/// Proved: The states of a run under limits are those of the run without, as far as it goes.
pub fn limits_only_stop()
    ensures states { LimitsOnlyStop }
    ensures unasked { NoLimitAsked }
{}

/// What goes out under limits is a prefix of what goes out without; for a run that never ends, of what has gone out after some
/// number of moves.
///
/// Proved: What goes out under limits is a prefix of what goes out without; for a run that never ends, of what has
/// gone out after some number of moves.
pub fn limits_cut()
    ensures after { LimitsCut }
    ensures output { LimitsCutOutput }
{}

/// Where no limit and no fault stops the run, all goes out that does without limits, and that is one text.
///
/// Proved: Where no limit and no fault stops the run, all goes out that does without limits, and that is one text.
pub fn done_is_whole()
    ensures whole { DoneIsWhole }
    ensures one { OneWhole }
{}

/// Where each limit is at least as wide, what goes out under the narrower ones is a prefix of what goes out under the wider ones,
/// unless the second run is ended by a fault of the sink, or of a source that may fail at any call.
///
/// Proved: Where each limit is at least as wide, what goes out under the narrower ones is a prefix of what goes out
/// under the wider ones, unless the second run is ended by a fault of the sink, or of a source that may fail at any
/// call.
pub fn wider_limits()
    ensures { WiderLimits }
{}

/// A run that ends otherwise than at a limit, also at a read fault after a stated byte or at too long an input, is the same
/// under wider limits.
///
/// Proved: A run that ends otherwise than at a limit, also at a read fault after a stated byte or at too long an
/// input, is the same under wider limits: one outcome, one number of moves and one output.
pub fn limits_unmet()
    ensures { LimitsUnmet }
{}

/// For one input, options and limits there is one number of moves, one outcome and one output, but for faults of the sink, and
/// of a source that may fail at any call.
///
/// Proved: For one input, options and limits there is one outcome, one number of moves and one output, but for faults
/// of the sink, and of a source that may fail at any call.
pub fn one_answer()
    ensures { OneAnswer }
{}

/// A run over a source that fails at no call ends by no read fault.
///
/// Proved: A source that fails at no call ends no run by a read fault.
pub fn faults_are_of_the_source()
    ensures { FaultsAreOfTheSource }
{}

/// In a run a move is refused at a limit exactly where it would lead to a state above that limit, also a move that reads; it is the
/// first limit that the state is above.
///
/// Proved: In a run a move is refused at a limit exactly where the state that it would lead to is above that limit,
/// the first such.
pub fn limits_are_exact()
    ensures { LimitsAreExact }
{}

/// Each beginning of a run keeps the bound on moves that the whole of it keeps. From each state of a run there are so many moves at
/// most before a byte is taken, by what is read, half read and collected. Between two takings, before the first and after the last
/// that is the number for a byte, whatever is read.
///
/// Proved: At every point of a run there were at most `256 · (X + 1) · (S + P + D + 4)` moves for each byte taken,
/// and as many besides; between two takings, before the first and after the last at most that number once; from any
/// state at most so many before a byte as what is still to be read, half read and collected may bring.
pub fn moves_between()
    ensures few { MovesAreFew }
    ensures before { MovesBeforeByte }
    ensures between { MovesBetween }
{}

/// Of an input of plain text alone all goes out, in order: it is the output, but for blanks and newlines, where each page is
/// printed.
///
/// Proved: Where the input has only newlines and bytes 32 to 126, no `\` and no line that begins with `.` or `'`, all
/// pages are selected and the answer is `Done`, the output less blanks and newlines is the input less blanks and
/// newlines.
pub fn plain_text_stays()
    ensures { PlainTextStays }
{}

/// Where no line of such an input is empty or begins with a blank, the output is the rows that are cut one after the other from
/// the pieces of all of it, each as long as fits and all but the last spread in turn, and then empty rows up to the page's end.
///
/// Proved: Where the input is one of `plain_text_stays`, and no line is empty or begins with a blank, the output is
/// the rows that are cut one after the other, at 65 cells, from the pieces of the whole input, all but the last
/// spread in turn, the first to the left, and then empty rows up to a multiple of 66.
pub fn filled_text_is_rows()
    ensures rows { FilledTextIsRows }
    ensures longest { CutIsLongest }
    ensures fits { CutFits }
{}

/// With other faces a run makes the same moves and places the same lines. Without what is struck over, the output is the same with
/// any faces, and with letters and digits alone underlined, and nothing bold, it is that without faces.
///
/// Proved: With other faces the states of a run are the same but for these. The output without what is struck over is
/// the same with any faces. The output with all of them, with letters and digits alone underlined and nothing bold,
/// is that without.
pub fn faces_only_show()
    ensures states { FacesOnlyShow }
    ensures struck { StruckOutIsSame }
    ensures letters { LettersAreLeft }
{}

/// Whatever the input, of the control bytes of ASCII only newline and backspace go out, and backspaces only where one byte is struck
/// over another.
///
/// Proved: Whatever the input, of the control bytes of ASCII only newline and backspace go out, and none of them but
/// newline without what is struck over.
pub fn no_control_goes_out()
    ensures bytes { NoControlGoesOut }
    ensures struck { BackspaceStrikes }
{}

/// Beyond ASCII no byte goes out that is not in the input: whatever the set, where each byte of the input is of ASCII or of the set,
/// so is each that goes out. So where the input has none from 128 to 159, none goes out.
///
/// Proved: Beyond ASCII no byte goes out that is not in the input: whatever the set, where each byte of the input is
/// of ASCII or of the set, so is each that goes out.
/// Proved: Where the input has no byte from 128 to 159, none goes out.
pub fn no_byte_is_added()
    ensures bytes { NoByteIsAdded }
    ensures controls { NoHighControlGoesOut }
{}

/// Where a run over some bytes alone has taken all of them and needs no further one, a run over any input that begins with them
/// makes the same moves first, and comes to the same state but for what is to come.
///
/// Proved: Moves that were made over the first bytes of an input alone, up to the last of them, are the first moves over
/// the whole input, whatever follows, and lead to the same state but for what is to come.
pub fn first_is_kept()
    ensures { FirstIsKept }
{}
