// For C: the table's commands over a plain pointer to its words, answers as numbers. Beside them looking (look.rt), what a
// warm power-on can be given later (read_out.rt), the map of foreign aliases (map.rt), headers and aliases (lcc.rt), frames as text
// (grid.rt). Kinds, flags and states are numbers here, as C hands over any, and data stand beside their length.
#![tactic(auto)]

pub mod grid;
pub mod lcc;
pub mod look;
pub mod map;
pub mod read_out;

ghost use Rattle.std.specs.Prelude.{◌≡◌, [], ◌∷◌};
ghost use Rattle.segment_rules.specs.Rules.{power_on, send, fail, deliver, tick, foreign, message, enquiry, release, link, warm_on};
ghost use Rattle.table.specs.Words.{Fresh, late_of};
ghost use Rattle.headers.specs.Answers.{answered};
ghost use Rattle.card_api.specs.Out.{code_of, PutOut};
ghost use Rattle.card_api.specs.Answers.{late_code, Coded, CodedChoice, CodedSend};

use headers::frame::Frame;
use headers::refusal::Numbered;
use table::commands;
use table::layout::{Table, WORDS};

// 0 where accepted, else the refusal's number.
fn code<T: Drop, E: Numbered>(answer: Result<T, E>) -> u64
    ensures { result ≡ code_of (answered E.number_of (λ x. x) answer) }
{
    match answer {
        Ok(_) => 0,
        Err(refusal) => u64::from(refusal.number()),
    }
}

// Writes the words of an answer's value, none where it is a refusal, and gives its number. The buffer's type is W and not [u64; N],
// since the check does not cover a bound on a closure that names a const parameter.
fn put_out<T: Drop, E: Numbered, W: Drop, F: Fn(T) -> W>(
    answer: Result<T, E>,
    out: &mut W,
    words: F,
) -> u64
    requires call { F.IsAlwaysCallable words }
    ensures number { result ≡ code_of (answered E.number_of (λ x. x) answer) }
    ensures put { PutOut F.Fn words answer out.old out.new }
{
    match answer {
        Ok(value) => {
            *out = words(value);
            0
        }
        Err(refusal) => u64::from(refusal.number()),
    }
}

#[unsafe(no_mangle)]
pub extern "C" fn card_new(table: &mut [u64; WORDS])
    ensures { Fresh table.new }
{
    commands::new(table);
}

#[unsafe(no_mangle)]
pub extern "C" fn card_is_late(table: &[u64; WORDS]) -> u64
    ensures { result ≡ late_code (late_of table.now) }
{
    u64::from(commands::is_late(table))
}

#[unsafe(no_mangle)]
pub extern "C" fn card_power_on(table: &mut [u64; WORDS], index: usize, id: u64) -> u64
    ensures { Coded (power_on index id) table.old result table.new }
{
    code(commands::power_on(table, index, id))
}

// A frame that left: header, length, data.
fn sent_words(f: Frame) -> [u64; 3]
    ensures { result ≡ f.header ∷ f.len ∷ f.bytes ∷ [] }
{
    [u64::from(f.header), u64::from(f.len), f.bytes]
}

// Writes the frame that left, if one did: header, length, data with the first byte highest.
#[unsafe(no_mangle)]
pub extern "C" fn card_send(table: &mut [u64; WORDS], index: usize, sent: &mut [u64; 3]) -> u64
    ensures { CodedSend (send index) table.old result table.new sent.old sent.new }
{
    let answer = commands::send(table, index);
    put_out(answer, sent, sent_words)
}

#[unsafe(no_mangle)]
pub extern "C" fn card_fail(table: &mut [u64; WORDS], index: usize) -> u64
    ensures { Coded (fail index) table.old result table.new }
{
    code(commands::fail(table, index))
}

#[unsafe(no_mangle)]
pub extern "C" fn card_deliver(table: &mut [u64; WORDS], index: usize) -> u64
    ensures { Coded (deliver index) table.old result table.new }
{
    code(commands::deliver(table, index))
}

#[unsafe(no_mangle)]
pub extern "C" fn card_tick(table: &mut [u64; WORDS]) -> u64
    ensures { Coded tick table.old result table.new }
{
    commands::tick(table);
    0
}

#[unsafe(no_mangle)]
pub extern "C" fn card_foreign(
    table: &mut [u64; WORDS],
    kind: u8,
    header: u32,
    len: u8,
    bytes: u64,
) -> u64
    ensures { Coded (foreign (record { kind = kind; header = header; len = len; bytes = bytes })) table.old result table.new }
{
    code(commands::foreign(
        table,
        Frame {
            kind,
            header,
            len,
            bytes,
        },
    ))
}

#[unsafe(no_mangle)]
pub extern "C" fn card_message(
    table: &mut [u64; WORDS],
    index: usize,
    field: u16,
    len: u8,
    bytes: u64,
) -> u64
    ensures { Coded (message index field len bytes) table.old result table.new }
{
    code(commands::message(table, index, field, len, bytes))
}

#[unsafe(no_mangle)]
pub extern "C" fn card_enquiry(table: &mut [u64; WORDS], index: usize, len: u8, bytes: u64) -> u64
    ensures { Coded (enquiry index len bytes) table.old result table.new }
{
    code(commands::enquiry(table, index, len, bytes))
}

#[unsafe(no_mangle)]
pub extern "C" fn card_release(table: &mut [u64; WORDS], index: usize) -> u64
    ensures { Coded (release index) table.old result table.new }
{
    code(commands::release(table, index))
}

#[unsafe(no_mangle)]
pub extern "C" fn card_link(table: &mut [u64; WORDS], index: usize, state: u8) -> u64
    ensures { Coded (link index state) table.old result table.new }
{
    code(commands::link(table, index, state))
}

// With flag 1 under the alias of a generator state that was read out; with flag 0 as a power-on, whatever the state (A.9).
#[unsafe(no_mangle)]
pub extern "C" fn card_warm_on(
    table: &mut [u64; WORDS],
    index: usize,
    id: u64,
    flag: u8,
    state: u64,
) -> u64
    ensures { Coded (warm_on index id flag state) table.old result table.new }
{
    code(commands::warm_on(table, index, id, flag, state))
}

// Who sends next (A.8): the index, 24 for none.
#[unsafe(no_mangle)]
pub extern "C" fn card_choose(table: &mut [u64; WORDS], chosen: &mut [u64; 1]) -> u64
    ensures { CodedChoice table.old result table.new chosen.new }
{
    let index = commands::choose(table).unwrap_or(Table::PLACES);
    *chosen = [index as u64];
    0
}
