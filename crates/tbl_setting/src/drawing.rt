//! What frames and rules are drawn with, by the table of characters.
ghost use Rattle.std.specs.Prelude.{◌≡◌};
ghost use Rattle.tbl_setting.specs.Drawing as specs;

use tbl_table::{Joints, Signs};
use utf8_characters::FixedTable;

/// The bytes of three characters, if the table has them.
fn joints_in(table: FixedTable, begins: char, crosses: char, ends: char) -> Option<Joints>
    ensures { result ≡ specs.joints_in table begins crosses ends }
{
    Some(Joints {
        begins: table.byte(u32::from(begins))?,
        crosses: table.byte(u32::from(crosses))?,
        ends: table.byte(u32::from(ends))?,
    })
}

/// All that frames are drawn with, if the table has it.
fn boxes_in(table: FixedTable) -> Option<Signs>
    ensures { result ≡ specs.boxes_in table }
{
    Some(Signs {
        rule: table.byte(u32::from('─'))?,
        bar: table.byte(u32::from('│'))?,
        top: joints_in(table, '┌', '┬', '┐')?,
        middle: joints_in(table, '├', '┼', '┤')?,
        bottom: joints_in(table, '└', '┴', '┘')?,
    })
}

/// What frames and rules are drawn with: the characters of the table, or ASCII where it lacks one.
pub fn signs_of(table: Option<FixedTable>) -> Signs
    ensures { result ≡ specs.signs_of table }
{
    let Some(table) = table else {
        return Signs::ascii();
    };
    match boxes_in(table) {
        Some(signs) => signs,
        None => Signs::ascii(),
    }
}
