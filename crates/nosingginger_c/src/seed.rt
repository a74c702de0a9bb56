// Expand as a C function. Assumes nothing.
// Refusals are answered by number: C has numbers, and no `Result`.
ghost use Rattle.call_answers.specs.Answers.{ExpandSays};

use refusal::answer_number;

// EXPAND: the bytes from `start` on of the seed's key stream.
#[unsafe(no_mangle)]
pub extern "C" fn nsg_expand(seed: &[u8], start: usize, out: &mut [u8]) -> u32
    ensures { ExpandSays seed.now start result out.old out.new }
{
    answer_number(nosingginger::expand_seed(seed, start, out))
}
