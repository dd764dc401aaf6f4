//! Laws of a document, each the contract of a function that does nothing: they speak of the definitions alone, over an empty output.
ghost use Rattle.document_laws.specs.Laws.{DoneStays, FewMoves, NoControlGoesOut, OneDocument, RoomIsEnough, WiderLimitsLengthen};

/// Under limits that are each at least as wide, a reader gets all that the narrower ones gave, and it may be, more.
///
/// Proved: Where all is shown or a limit stops it, what a reader gets of a page under some limits is a prefix of what
/// comes under wider ones, in bytes and in UTF-8; and where all was shown, it is the same.
pub fn wider_limits_lengthen()
    ensures lengthen { WiderLimitsLengthen }
    ensures done { DoneStays }
{}

/// There is one document for a page, its setting and its limits.
///
/// Proved: For one page, setting and way to show it there is one number of moves, one end and one text that a reader
/// gets, where all is shown or a limit stops it.
pub fn one_document()
    ensures { OneDocument }
{}

/// A document takes no more moves than are allowed, and no more for each byte that was read than its other limits allow.
///
/// Proved: A document takes at most as many moves as are allowed, and at most `256 · (X + 1) · (S + P + D + 4)` for
/// each byte that the formatter took, and as many besides.
pub fn few_moves()
    ensures { FewMoves }
{}

/// Without a table of characters too, of the control bytes of ASCII only newline and backspace go out.
///
/// Proved: Where the bytes of the pages go out as they are, of the control bytes of ASCII only newline and backspace
/// are among them, whatever the page is. (In UTF-8: `reaches_terminal` of document_printing.)
pub fn no_control_goes_out()
    ensures { NoControlGoesOut }
{}

/// A page that comes whole, and whose tables have room, is read to its end.
///
/// Proved: A page that comes whole, and no line or end of which makes more of a table at once than there is room for, ends by
/// no read fault and by no want of room.
pub fn room_is_enough()
    ensures { RoomIsEnough }
{}
