// What the operations ask in common: whether shares can have so many bytes, and the refusals that need no grid. The contracts of all
// operations but Join keys stand in specs/Answers.antt. Assumes nothing.
#![tactic(auto)]

ghost use Rattle.std.specs.Prelude.{◌≡◌};
ghost use Rattle.refusal.specs.Refusing.{answer_number};
ghost use Rattle.call_answers.specs.Answers.{share_fits, width_refusal};

use grid::board::{players_fit, positions_fit, value_bytes_fit, within};
pub use grid::fault::Fault;
use refusal::Refusal;

// The most bytes of a share that is joined, and of a card.
const MOST_SHARE_BYTES: u32 = 256;

// Whether shares that are joined, or cards, can have so many bytes.
pub fn share_bytes_fit(share_bytes: u32) -> bool
    ensures { result ≡ share_fits share_bytes }
{
    within(1, share_bytes, MOST_SHARE_BYTES)
}

// The numbers stay three, here and in the calls: C and the papers have them one by one, and any may come.
// 1, 2, 4, which are asked where no grid is named: the first that fits.
#[tactic(auto, unfolding(crate::specs::Answers::width_refusal))]
pub fn sizes_refusal(players: u32, positions: u32, value_bytes: u32) -> Result<(), Refusal>
    ensures { answer_number result ≡ width_refusal players positions value_bytes }
{
    if !players_fit(players) {
        return Err(Refusal::Players);
    }
    if !positions_fit(positions) {
        return Err(Refusal::Positions);
    }
    if !value_bytes_fit(value_bytes) {
        return Err(Refusal::ValueBytes);
    }
    Ok(())
}
