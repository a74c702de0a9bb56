// Opening a key: Open one and Open all as C functions. Assumes nothing.
// Refusals are answered by number: C has numbers, and no `Result`.
ghost use Rattle.call_answers.specs.Answers.{OpenOneSays, OpenAllSays};

use refusal::answer_number;

// OPEN ONE: the share of one square.
#[unsafe(no_mangle)]
pub extern "C" fn nsg_open_one(key: &[u8], position: u32, out: &mut [u8]) -> u32
    ensures { OpenOneSays key.now position result out.old out.new }
{
    answer_number(nosingginger::open_one(key, position, out))
}

// OPEN ALL: the full table.
#[unsafe(no_mangle)]
pub extern "C" fn nsg_open_all(key: &[u8], out: &mut [u8]) -> u32
    ensures { OpenAllSays key.now result out.old out.new }
{
    answer_number(nosingginger::open_all(key, out))
}
