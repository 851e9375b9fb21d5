// A whole run of a script for C and Rust: pointers with lengths, for tests and benchmarks.
#![tactic(auto)]

ghost use Rattle.text.specs.Rules.{Printed};
ghost use Rattle.script.specs.Rules.{output};

#[unsafe(no_mangle)]
pub extern "C" fn script_run(script: &[u8], out: &mut [u8]) -> usize
    ensures { Printed (output script.now) out.old out.new result }
{
    script::program::run(script, out)
}
