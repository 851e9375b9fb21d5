// Runs the map over the operations on standard input, and writes a line for each: a test against another implementation.
#![tactic(auto)]

use alias_map::layout::WORDS;
use headers::alias::Alias;
use headers::frame::Frame;
use headers::refusal::Numbered;
use reading::read_full;
use std::io;
use std::io::Read;

// More operations than this are not run.
const MOST: usize = 100_000;

// The next bytes of the input; 0 in place of those that it lacks.
fn next_bytes<const N: usize>(input: &mut impl Read) -> io::Result<[u8; N]> {
    let mut bytes = [0; N];
    read_full(input, &mut bytes)?;
    Ok(bytes)
}

fn next_frame(input: &mut impl Read) -> io::Result<Frame> {
    let [kind, a, b, c, d, len, q, r, s, t, u, v, w, x]: [u8; 14] = next_bytes(input)?;
    Ok(Frame {
        kind,
        header: u32::from_be_bytes([a, b, c, d]),
        len,
        bytes: u64::from_be_bytes([q, r, s, t, u, v, w, x]),
    })
}

fn note(rt: &impl Print, map: &mut [u64; WORDS], frame: Frame) -> io::Result<()> {
    match alias_map::note::note(map, frame) {
        Ok(()) => println!(rt; "ok"),
        Err(refusal) => println!(rt; "refused {}", refusal.number()),
    }
}

fn look_up_alias(rt: &impl Print, map: &[u64; WORDS], operands: [u8; 2]) -> io::Result<()> {
    match alias_map::by_alias::id_of(map, Alias(u16::from_be_bytes(operands))) {
        Ok(hit) => println!(rt; "ok {:012X} {}", hit.value, hit.compared),
        Err(refusal) => println!(rt; "refused {}", refusal.number()),
    }
}

fn look_up_id(rt: &impl Print, map: &[u64; WORDS], operands: [u8; 6]) -> io::Result<()> {
    let [a, b, c, d, e, f] = operands;
    match alias_map::by_id::alias_of(map, u64::from_be_bytes([0, 0, a, b, c, d, e, f])) {
        Ok(hit) => println!(rt; "ok {:03X} {}", hit.value.0, hit.compared),
        Err(refusal) => println!(rt; "refused {}", refusal.number()),
    }
}

// One operation: 0 notes a frame, 1 looks an alias up, 2 a Node ID, 3 begins with an empty map. A byte of the input as it came: any
// other prints that it is unknown.
fn carry_out(
    rt: &impl Print,
    input: &mut impl Read,
    map: &mut [u64; WORDS],
    operation: u8,
) -> io::Result<()> {
    match operation {
        0 => note(rt, map, next_frame(input)?),
        1 => look_up_alias(rt, map, next_bytes(input)?),
        2 => look_up_id(rt, map, next_bytes(input)?),
        3 => {
            alias_map::map::new(map);
            println!(rt; "new")
        }
        _ => println!(rt; "unknown"),
    }
}

fn main(rt: HostRuntime) -> io::Result<()> {
    let mut input = rt.stdin();
    let mut map = [0; WORDS];
    alias_map::map::new(&mut map);
    for _ in 0..MOST {
        let mut operation = [0];
        if read_full(&mut input, &mut operation)? == 0 {
            break;
        }
        carry_out(&rt, &mut input, &mut map, operation[0])?;
    }
    Ok(())
}
