// Replays a corpus of scripts: each follows its length in 4 bytes, highest first; their outputs are written in order.
#![tactic(auto)]

use reading::read_full;
use script::program;
use std::io;

const CORPUS: usize = 524288;

// Room for the corpus, and for the longest output of one script; the check runs out of stack where `main` itself has an array as long.
fn corpus() -> [u8; CORPUS] {
    [0u8; CORPUS]
}

fn room() -> [u8; program::ROOM] {
    [0u8; program::ROOM]
}

// Each script is run and its output written, up to one that is cut short.
fn replay(rt: &impl Print, corpus: &[u8], out: &mut [u8]) -> io::Result<()> {
    let mut rest = corpus;
    while let Some((length, scripts)) = rest.split_first_chunk() {
        let length = u32::from_be_bytes(*length) as usize;
        let Some((script, others)) = scripts.split_at_checked(length) else {
            break;
        };
        let n = program::run(script, out);
        if n <= out.len() {
            rt.write_all(&out[..n])?;
        }
        rest = others;
    }
    Ok(())
}

fn main(rt: HostRuntime) -> io::Result<()> {
    let mut input = corpus();
    let n = read_full(&mut rt.stdin(), &mut input)?;
    let mut out = room();
    replay(&rt, &input[..n], &mut out)
}
