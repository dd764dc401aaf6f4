//! Laws of the lines of a table, each the contract of a function that does nothing: they speak of the definitions alone.
ghost use Rattle.tbl_drawing.specs.Laws.{EdgesEndTogether, FieldsStandOnce, RowsEndTogether, RowsEndWithin, RowsGoOut, RulesEndTogether};
ghost use Rattle.tbl_drawing.specs.ReadTables.{FieldsReadStand, FieldsReadStandOnce, NothingIsHeld, OthersStayHeld, ReadTablesFit, RoomIsEnough, RowsReadGoOut, StaysHeld, TextsReadFit};
ghost use Rattle.tbl_table.specs.Rows.{request_ended, row_ended, rule_added};

/// Rules end at one place, a cell after the table's end, with a bar or without one, and so do rows where one is seen there and
/// the outer rules of a double box, where what stands in their columns stands within the table: in a box they are of one width,
/// that of the table. Rows where no bar is seen there end within the table.
///
/// Proved: Rules end at one place, a cell after the table's end, with a bar or without one, and so do rows where one
/// is seen there and the outer rules of a double box, where what stands in their columns stands within the table;
/// rows where no bar is seen there end within it.
pub fn lines_end_together()
    ensures rows { RowsEndTogether }
    ensures within { RowsEndWithin }
    ensures rules { RulesEndTogether }
    ensures edges { EdgesEndTogether }
{}

/// Among the lines of a table stands each row that takes room, once and in its order, and no other row; so it is in a part of one, too.
///
/// Proved: Among the lines of a table, or of a part of one, stands each row that takes room, once and in its order,
/// and no other row, where there is room for four lines an item.
pub fn rows_go_out_once()
    ensures { RowsGoOut }
{}

/// Each line of a field stands on one line of those that go out, and on no other: in its row, or if it goes on over rows below in one
/// of these, beside its bars, or over a rule between two of them; the lines of a block stand below one another in their order. So it
/// is in each table, or part of one, where rows stand below one another in their order and there is room.
///
/// Proved: In a table, or a part of one, each line of a field, also of a block that goes on over rows below, stands on one of the
/// lines that go out, and on no other, in the order of its lines, where rows stand below one another in their order and there is
/// room: in its row, or if it goes on over rows below in one of these, beside its bars, or over a rule between two of them.
pub fn fields_stand_once()
    ensures { FieldsStandOnce }
{}

/// However a table is read, its rows stand below one another in their order, within the room that there is: where nothing was read,
/// and after each row, rule and request; all else that is read leaves these as they are.
///
/// Proved: Rows that are read stand below one another in their order, within the room, with the rules and the requests among them.
pub fn rows_are_read_in_order()
    ensures nothing { NothingIsHeld }
    ensures others { OthersStayHeld }
    ensures row { StaysHeld row_ended }
    ensures rule { StaysHeld rule_added }
    ensures request { StaysHeld request_ended }
{}

/// The room that is taken for a table is enough for all its fields and lines, where these can be counted: so of a table that is read
/// each row goes out once and in its order, and each line of a field stands once, with no premise on its room.
///
/// Proved: The room that is taken for a table of so many bytes, of fewer than 2^64 - 128, is enough for its fields and lines, if there
/// are fewer than 2^64 - 1 lines: each row of it that takes room goes out once and in its order, and each line of a field, also of a
/// block that goes on over rows below, stands once.
pub fn room_is_enough()
    ensures room { RoomIsEnough }
    ensures rows { RowsReadGoOut }
    ensures once { FieldsReadStandOnce }
{}

/// Fields of a table that is read stand in columns that are there, and the lines of its texts are no wider than what these are filled
/// in, where that is no less than the longest word: so it fits in the line once it is narrowed, where the least widths of its columns do.
///
/// Proved: A table that is read and is wider than the line ends within it once it is narrowed, where the least widths of its columns
/// do, no column is narrower than its least width, a field over several columns fits in theirs, and no width comes to 2^64 - 2: each
/// field stands in columns that are there, and the lines of each text fit in what they are filled in, if that is no narrower than its
/// longest word.
pub fn read_tables_fit()
    ensures fields { FieldsReadStand }
    ensures texts { TextsReadFit }
    ensures narrowed { ReadTablesFit }
{}
