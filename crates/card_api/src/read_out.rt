// Read-out for C (A.9): the generator's state, and 1 where the first alias is past. A refusal writes neither.
ghost use Rattle.std.specs.Prelude.{◌≡◌};
ghost use Rattle.card_api.specs.ReadOuts.{CodedReadOut, generator_words};

use crate::put_out;
use node::Generator;
use table::layout::WORDS;

// The generator's state, and 1 where the first alias is past.
fn generator_words(g: Generator) -> [u64; 2]
    ensures { result ≡ generator_words g }
{
    [g.state, u64::from(g.past)]
}

#[unsafe(no_mangle)]
pub extern "C" fn card_read_out(table: &[u64; WORDS], index: usize, out: &mut [u64; 2]) -> u64
    ensures { CodedReadOut index table.now result out.old out.new }
{
    let answer = table::commands::read_out(table, index);
    put_out(answer, out, generator_words)
}
