// The program `segment`: a script on standard input, its lines on standard output.
#![tactic(auto)]

use reading::read_full;
use script::program;
use std::io;

// Room for the longest output. An array: nothing is allocated.
fn room() -> [u8; program::ROOM] {
    [0u8; program::ROOM]
}

fn main(rt: HostRuntime) -> io::Result<()> {
    let mut input = [0u8; program::INPUT];
    let n = read_full(&mut rt.stdin(), &mut input)?;
    let mut out = room();
    let m = program::run_input(&input[..n], &mut out);
    rt.write_all(&out[..m])
}
