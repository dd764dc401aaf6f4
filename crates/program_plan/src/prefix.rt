//! What is read before the macro files.
ghost use Rattle.std.specs.Prelude.{◌≡◌, ◌++◌, OnOk, map};
ghost use Rattle.std.specs.List.{flat_map};
ghost use Rattle.program_options.specs.Job.{asked_of, assignment_of};
ghost use Rattle.program_plan.specs.Prefix.{assignment_line, assignment_lines, long_line, prefix, set_width, width_lines};

use itoa::Buffer;
use program_options::{Job, Kind, Setting};
use std::alloc::AllocError;

/// Adds the lines that are read before the macro files: what makes one long page, the cells of a line, registers and
/// strings in order.
///
/// Proved: What is read before the macro files is what the words set, in order.
pub fn put_prefix(job: &Job<'_>, is_manual: bool, text: &mut Vec<u8>) -> Result<(), AllocError>
    ensures { OnOk result (text.new.items ≡ text.old.items ++ prefix is_manual (asked_of job.now)) }
{
    put_long(is_manual && !job.plain.is_paged, text)?;
    put_cells(job.plain.width, text)?;
    put_assignments(job.settings.as_slice(), text)
}

/// Adds the line that makes one long page, if it is to be one.
fn put_long(is_long: bool, text: &mut Vec<u8>) -> Result<(), AllocError>
    ensures { OnOk result (text.new.items ≡ text.old.items ++ long_line is_long) }
{
    if is_long {
        text.extend_from_slice(b".nr C 1\n")
    } else {
        Ok(())
    }
}

/// Adds the lines that set the cells of a line, if they are set.
fn put_cells(cells: Option<u64>, text: &mut Vec<u8>) -> Result<(), AllocError>
    ensures { OnOk result (text.new.items ≡ text.old.items ++ set_width cells) }
{
    match cells {
        Some(cells) => put_width(cells, text),
        None => Ok(()),
    }
}

/// Adds the lines of registers and strings, which are read with long names.
fn put_assignments(settings: &[Setting<'_>], text: &mut Vec<u8>) -> Result<(), AllocError>
    ensures { OnOk result (text.new.items ≡ text.old.items
        ++ assignment_lines (map assignment_of settings.now)) }
{
    if settings.is_empty() {
        return Ok(());
    }
    text.extend_from_slice(b".cp 0\n")?;
    put_settings(settings, text)?;
    text.extend_from_slice(b".cp 1\n")
}

/// Adds the lines that set registers and strings.
fn put_settings(settings: &[Setting<'_>], text: &mut Vec<u8>) -> Result<(), AllocError>
    ensures { OnOk result
        (text.new.items ≡ text.old.items ++ flat_map assignment_line (map assignment_of settings.now)) }
{
    for setting in settings {
        put_setting(setting, text)?;
    }
    Ok(())
}

/// Adds the lines that set the cells of a line, for macro files and without them.
fn put_width(cells: u64, text: &mut Vec<u8>) -> Result<(), AllocError>
    ensures { OnOk result (text.new.items ≡ text.old.items ++ width_lines cells) }
{
    let mut buffer = Buffer::new();
    let digits = buffer.format(cells).as_bytes();
    text.extend_from_slice(b".nr L ")?;
    text.extend_from_slice(digits)?;
    text.extend_from_slice(b"\n.ll ")?;
    text.extend_from_slice(digits)?;
    text.extend_from_slice(b"n\n")
}

/// Adds the line that sets a register or a string.
fn put_setting(setting: &Setting<'_>, text: &mut Vec<u8>) -> Result<(), AllocError>
    ensures { OnOk result (text.new.items ≡ text.old.items ++ assignment_line (assignment_of setting.now)) }
{
    let (request, blank): (&[u8], &[u8]) = match setting.kind {
        Kind::Register => (b".nr ", b" "),
        Kind::Text => (b".ds ", b" \""),
    };
    text.extend_from_slice(request)?;
    text.extend_from_slice(setting.name)?;
    text.extend_from_slice(blank)?;
    text.extend_from_slice(setting.value)?;
    text.extend_from_slice(b"\n")
}
