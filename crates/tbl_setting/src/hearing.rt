//! What was read of a table is emitted to the one that holds it.
ghost use Rattle.std.specs.Prelude.{◌≡◌};
ghost use Rattle.tbl_table.specs.Held.{emptied};
ghost use Rattle.tbl_setting.specs.Hearing as specs;

use tbl_reader::{Call, Called, Mark, Options, Tell};
use tbl_table::{Form, Looks, Stand, Table};

/// How a table looks by its options.
pub(crate) fn looks_of(options: Options) -> Looks
    ensures { result ≡ specs.looks_of options }
{
    Looks {
        center: options.center,
        expand: options.expand,
        frame: options.frame,
        nokeep: options.nokeep,
        nofit: options.nofit,
    }
}

/// What stands in place of a field's text.
pub(crate) fn form_of(mark: Mark) -> Form
    ensures { result ≡ specs.form_of mark }
{
    match mark {
        Mark::Nothing => Form::Text,
        Mark::Rule => Form::Rule,
        Mark::Inner => Form::Inner,
        Mark::Repeat(byte) => Form::Repeat(byte),
        Mark::Above => Form::Above,
    }
}

/// What a byte of formats says.
fn tell_call(call: Call, table: &mut Table)
    ensures value { table.new ≡ specs.call_heard call table.old }
    ensures room { emptied table.new ≡ emptied table.old }
{
    match call {
        Call::Nothing => {}
        Call::Cell(kind, bars) => table.add_key(kind, bars),
        Call::Bars(bars) => table.end_line(bars),
        Call::Font(font) => table.set_font(font),
        Call::Width => table.begin_width(),
        Call::Gap(digit) => table.begin_gap(digit),
        Call::Byte(byte) => table.add_byte(byte),
        Call::Equal => table.set_equal(),
        Call::Wide => table.set_wide(),
        Call::Zero => table.set_zero(),
        Call::Top => table.set_stand(Stand::Top),
        Call::Low => table.set_stand(Stand::Low),
    }
}

/// What is open ends, where it has ended.
fn close_if(ends: bool, table: &mut Table)
    ensures value { table.new ≡ specs.closed_if ends table.old }
    ensures room { emptied table.new ≡ emptied table.old }
{
    if ends {
        table.close();
    }
}

/// A line of formats begins, where one does.
fn begin_line_if(begins: bool, table: &mut Table)
    ensures value { table.new ≡ specs.line_begun_if begins table.old }
    ensures room { emptied table.new ≡ emptied table.old }
{
    if begins {
        table.begin_line();
    }
}

/// What a byte of formats says, after what has ended before it.
pub(crate) fn tell_called(called: Called, table: &mut Table)
    ensures value { table.new ≡ specs.called_heard called table.old }
    ensures room { emptied table.new ≡ emptied table.old }
{
    close_if(called.ends, table);
    begin_line_if(called.begins, table);
    tell_call(called.call, table);
}

/// A text is held.
fn add_texts(text: &[u8], table: &mut Table)
    ensures value { table.new ≡ specs.texts_held text.now table.old }
    ensures room { emptied table.new ≡ emptied table.old }
{
    for byte in text {
        table.add_text(*byte);
    }
}

/// A request between rows.
fn add_request(text: &[u8], table: &mut Table)
    ensures value { table.new ≡ specs.request_heard text.now table.old }
    ensures room { emptied table.new ≡ emptied table.old }
{
    table.text_begins();
    add_texts(text, table);
    table.request_ends();
}

/// A row has ended, a rule across the table, or a request.
pub(crate) fn end_line(tell: Tell, text: &[u8], table: &mut Table)
    ensures value { table.new ≡ specs.line_heard tell text.now table.old }
    ensures room { emptied table.new ≡ emptied table.old }
{
    match tell {
        Tell::Row => table.end_row(),
        Tell::Rule => table.add_rule(),
        _ => add_request(text, table),
    }
}

/// So many empty fields.
pub(crate) fn add_empty(count: usize, table: &mut Table)
    ensures value { table.new ≡ specs.empty_added count table.old }
    ensures room { emptied table.new ≡ emptied table.old }
{
    for _ in 0..count {
        table.add_mark(Form::Text);
    }
}
