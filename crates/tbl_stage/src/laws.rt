//! Laws of a page that is turned a part at a time, each the contract of a function that does nothing: they speak of the definitions
//! alone.
ghost use Rattle.tbl_stage.specs.Laws.{TurnsPrefix, TurnsSoFar, TurnsWhole};

/// What goes out of a page in parts, and of its end, is what all of it comes to, where there is room for all; and else a prefix of
/// that.
///
/// Proved: What goes out of a page with tables in parts, and of its end, is `set_page`, as long as no byte, nor the end,
/// comes to more than may go out at once, and else a prefix of it. (`turned_page`)
pub fn turned_page()
    ensures whole { TurnsWhole }
    ensures so_far { TurnsSoFar }
    ensures prefix { TurnsPrefix }
{}
