// Join shares: the refusals 1, 4, 7 and 9, and the XOR of the shares of all players. Assumes nothing.
#![tactic(auto)]

ghost use Rattle.std.specs.Prelude.{◌≡◌, ◌*◌, length};
ghost use Rattle.refusal.specs.Refusing.{answer_number};
ghost use Rattle.call_answers.specs.Answers.{joined_shares, shares_refusal, JoinSays};

use call_answers::share_bytes_fit;
use grid::board::players_fit;
use refusal::Refusal;

// 1, 4, 7, 9: the first that fits.
#[tactic(auto, unfolding(call_answers::specs::Answers::shares_refusal))]
fn shares_refusal(players: u32, value_bytes: u32, shares: usize, room: usize) -> Result<(), Refusal>
    ensures { answer_number result ≡ shares_refusal players value_bytes shares room }
{
    if !players_fit(players) {
        return Err(Refusal::Players);
    }
    if !share_bytes_fit(value_bytes) {
        return Err(Refusal::ValueBytes);
    }
    let share = value_bytes as usize;
    if shares != players as usize * share {
        return Err(Refusal::Lent);
    }
    if room < share {
        return Err(Refusal::Room);
    }
    Ok(())
}

// `players` beside them: the law counts players, and the shares' length is that number of times the output's.
// Fills `out` with the XOR of so many shares of its length, which stand one after another; so too of the entries of a
// tally.
pub fn joined(players: usize, shares: &[u8], out: &mut [u8])
    requires { length shares.now ≡ players * length out.old }
    ensures { out.new ≡ joined_shares players (length out.old) shares.now }
{
    writer::clear(out);
    let share = out.len();
    for player in (0..players).rev() {
        let start = player * share;
        let end = start + share;
        xor::xor_into(out, &shares[start..end]);
    }
}

// JOIN SHARES: 1, 4, 7, 9; writes the XOR of the shares of all players at one square, or of their answers to a draw.
pub fn join_shares(
    players: u32,
    value_bytes: u32,
    shares: &[u8],
    output: &mut [u8],
) -> Result<(), Refusal>
    ensures { JoinSays players value_bytes shares.now (answer_number result) output.old output.new }
{
    shares_refusal(players, value_bytes, shares.len(), output.len())?;
    let share = value_bytes as usize;
    joined(players as usize, shares, &mut output[..share]);
    Ok(())
}
