// The tables of characters, by their numbers.
ghost use Rattle.std.specs.Prelude.{◌≡◌};
ghost use Rattle.nulbiko.specs.Tables.{number_of, table_numbered};

use utf8_characters::FixedTable;

/// The greatest number of a table.
pub(crate) const MOST_TABLES: u32 = 5;

/// No table was chosen, as there was not enough memory to look at the page.
pub(crate) const UNCHOSEN: u32 = 7;

/// A page has a table of its own.
pub(crate) const OWN: u32 = 8;

/// The table of a number: 1 `english`, 2 `latin`, 3 `cyrillic`, 4 `greek`, 5 `latin1`.
pub(crate) fn table_of(number: u32) -> Option<FixedTable>
    ensures { result ≡ table_numbered number }
{
    match number {
        1 => Some(FixedTable::English),
        2 => Some(FixedTable::Latin),
        3 => Some(FixedTable::Cyrillic),
        4 => Some(FixedTable::Greek),
        5 => Some(FixedTable::Latin1),
        _ => None,
    }
}

/// The number of a table.
pub(crate) fn number_of(table: FixedTable) -> u32
    ensures { result ≡ number_of table }
{
    match table {
        FixedTable::English => 1,
        FixedTable::Latin => 2,
        FixedTable::Cyrillic => 3,
        FixedTable::Greek => 4,
        FixedTable::Latin1 => 5,
    }
}
