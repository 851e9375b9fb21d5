// The lines of a run, put on a sheet. What finds no room is dropped.
ghost use Rattle.std.specs.Prelude.{not, ◌++◌};
ghost use Rattle.node.specs.Rules.{accepted, refused, left};
ghost use Rattle.state.specs.Answers.{answer_as};
ghost use Rattle.text.specs.Rules.{decimal, space, Puts};
ghost use Rattle.script.specs.Rules.{answer_text, data_text, line, last_line};
ghost use Rattle.script.specs.Text.{opening};

use headers::frame::Frame;
use headers::refusal::{Numbered, Refusal};
use text::buffer::Sheet;
use text::hex::shortened;

// A space and the data bytes that the length counts, the first being the highest of eight; nothing where there are none.
fn put_data(sheet: &mut Sheet, len: u8, bytes: u64)
    ensures { Puts sheet.old (data_text len bytes) sheet.new }
{
    if len == 0 {
        return;
    }
    sheet.put(b' ');
    if len < 8 {
        let count = usize::from(len);
        sheet.put_hex(count, shortened(bytes, 16 - 2 * count));
    } else {
        sheet.put_hex(8, bytes);
    }
}

// By its number, since the table's refusals and the script's own (10, 11) are printed alike.
fn put_refusal(sheet: &mut Sheet, number: u8)
    ensures { Puts sheet.old (answer_text (refused number)) sheet.new }
{
    sheet.put_all(b"refused ");
    sheet.put_decimal(u64::from(number));
}

// An accepted send: the header and the data of the frame that left.
fn put_sent(sheet: &mut Sheet, f: Frame)
    ensures { Puts sheet.old (answer_text (accepted (left f))) sheet.new }
{
    sheet.put_all(b"ok ");
    sheet.put_hex(4, u64::from(f.header));
    put_data(sheet, f.len, f.bytes);
}

fn put_answer(sheet: &mut Sheet, answer: Result<Option<Frame>, Refusal>)
    ensures { Puts sheet.old (answer_text (answer_as answer)) sheet.new }
{
    match answer {
        Ok(None) => sheet.put_all(b"ok"),
        Ok(Some(f)) => put_sent(sheet, f),
        Err(r) => put_refusal(sheet, r.number()),
    }
}

// The count and the command's byte, a space after each. The byte is printed as it came.
fn put_opening(sheet: &mut Sheet, count: u64, byte: u8)
    ensures { Puts sheet.old (opening count byte) sheet.new }
{
    sheet.put_decimal(count);
    sheet.put(b' ');
    sheet.put_byte(u64::from(byte));
    sheet.put(b' ');
}

// The whole line of a command that the table answered.
pub(crate) fn put_line(
    sheet: &mut Sheet,
    count: u64,
    byte: u8,
    answer: Result<Option<Frame>, Refusal>,
)
    ensures { Puts sheet.old (line count byte (answer_as answer)) sheet.new }
{
    put_opening(sheet, count, byte);
    put_answer(sheet, answer);
    sheet.put(b'\n');
}

// The whole line of a command that the script's own refusal ends the run with.
pub(crate) fn put_refused(sheet: &mut Sheet, count: u64, byte: u8, number: u8)
    ensures { Puts sheet.old (line count byte (refused number)) sheet.new }
{
    put_opening(sheet, count, byte);
    put_refusal(sheet, number);
    sheet.put(b'\n');
}

pub(crate) fn put_last(sheet: &mut Sheet, late: bool)
    ensures { Puts sheet.old (last_line (not late)) sheet.new }
{
    if late {
        sheet.put_all(b"late\n");
    } else {
        sheet.put_all(b"kept\n");
    }
}
