// A whole run: a script is carried out on a table with all nodes Off, and its lines are put into a lent buffer.
ghost use Rattle.std.specs.Prelude.{◌≡◌};
ghost use Rattle.state.specs.Answers.{done_as, left_as, answer_as};
ghost use Rattle.table.specs.Words.{Fresh};
ghost use Rattle.table.specs.Promise.{Does};
ghost use Rattle.text.specs.Rules.{Printed, PrintedWhole};
ghost use Rattle.script.specs.Rules.{output, used};
ghost use Rattle.script.specs.Answers.{command_as};
ghost use Rattle.script.specs.Turns.{Ended};

use crate::command::Command;
use crate::lines;
use crate::reader::Reader;
use headers::frame::Frame;
use headers::node_id::packed_id;
use headers::refusal::Refusal;
use table::commands;
use table::layout::WORDS;
use text::buffer::Sheet;

// An answer with no frame, and one with the frame that left, each as a line's answer.
fn plain(answer: Result<(), Refusal>) -> Result<Option<Frame>, Refusal>
    ensures { answer_as result ≡ done_as answer }
{
    answer.map(|()| None)
}

fn sent(answer: Result<Frame, Refusal>) -> Result<Option<Frame>, Refusal>
    ensures { answer_as result ≡ left_as answer }
{
    answer.map(Some)
}

// One command on the table: its answer, with the frame that left where one did.
fn carry_out(table: &mut [u64; WORDS], command: Command) -> Result<Option<Frame>, Refusal>
    ensures { Does (command_as command) table.old (answer_as result) table.new }
{
    match command {
        Command::PowerOn { index, id } => plain(commands::power_on(table, usize::from(index), id)),
        Command::Send(index) => sent(commands::send(table, usize::from(index))),
        Command::Fail(index) => plain(commands::fail(table, usize::from(index))),
        Command::Deliver(index) => plain(commands::deliver(table, usize::from(index))),
        Command::Tick => {
            commands::tick(table);
            Ok(None)
        }
        Command::Foreign(f) => plain(commands::foreign(table, f)),
        Command::Message {
            index,
            field,
            len,
            bytes,
        } => { plain(commands::message(table, usize::from(index), field, len, bytes)) }
        Command::Enquiry { index, len, id } => {
            plain(commands::enquiry(table, usize::from(index), len, packed_id(id)))
        }
        Command::Release(index) => plain(commands::release(table, usize::from(index))),
        Command::WarmOn {
            index,
            id,
            flag,
            state,
        } => { plain(commands::warm_on(table, usize::from(index), id, flag, state)) }
    }
}

// A whole script on a table with all nodes Off: one reader moves through it, command by command.
fn run_through(script: &[u8], table: &mut [u64; WORDS], sheet: &mut Sheet)
    requires { Fresh table.old × (sheet.old.at ≡ 0) }
    ensures { Ended script.now sheet.old table.new sheet.new }
{
    let mut reader = Reader::new(script);
    let mut done = 0;
    'commands: loop {
        let read = match reader.next() {
            Ok(read) => read,
            Err(fault) => {
                let (byte, number) = fault.refusal();
                lines::put_refused(sheet, done + 1, byte, number);
                return;
            }
        };
        let Some(next) = read else {
            return;
        };
        let answer = carry_out(table, next.command);
        done += 1;
        lines::put_line(sheet, done, next.byte, answer);
    }
}

// The whole output of a script, from all nodes Off, as far as the buffer has room for it, and how many bytes of it that is.
pub fn run(script: &[u8], out: &mut [u8]) -> usize
    ensures { Printed (output script.now) out.old out.new result }
{
    let mut table = [0u64; WORDS];
    commands::new(&mut table);
    let mut sheet = Sheet::new(out);
    run_through(script, &mut table, &mut sheet);
    lines::put_last(&mut sheet, commands::is_late(&table));
    sheet.at
}

// What is used of an input; the longest line, `65536 02 ok` with a header and eight bytes of data; the last line; and so
// the longest output.
pub const INPUT: usize = 65536;

pub const LINE: usize = 38;

pub const LAST: usize = 5;

pub const ROOM: usize = INPUT * LINE + LAST;

// The program's run: the whole output of an input, of which up to 65,536 bytes are used.
pub fn run_input(input: &[u8], out: &mut [u8; ROOM]) -> usize
    ensures { PrintedWhole (output (used input.now)) out.old out.new result }
{
    if input.len() < INPUT {
        return run(input, out);
    }
    run(&input[..INPUT], out)
}
