// Joining what was opened: Join shares and Join keys as C functions. Assumes nothing.
// Refusals are answered by number: C has numbers, and no `Result`.
ghost use Rattle.call_answers.specs.Answers.{JoinSays};
ghost use Rattle.join_keys_call.specs.JoinKeys.{JoinKeysSays};

use refusal::answer_number;

// JOIN SHARES: the XOR of the shares of all players.
#[unsafe(no_mangle)]
pub extern "C" fn nsg_join_shares(
    players: u32,
    value_bytes: u32,
    shares: &[u8],
    out: &mut [u8],
) -> u32
    ensures { JoinSays players value_bytes shares.now result out.old out.new }
{
    answer_number(nosingginger::join_shares(players, value_bytes, shares, out))
}

// JOIN KEYS: the XOR of all tables.
#[unsafe(no_mangle)]
pub extern "C" fn nsg_join_keys(keys: &[u8], out: &mut [u8]) -> u32
    ensures { JoinKeysSays keys.now result out.old out.new }
{
    answer_number(nosingginger::join_keys(keys, out))
}
