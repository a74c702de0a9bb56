// Dealing: the refusals 1 to 7, 18 to 20 with their place, and 9, in this order, and the keys of all players. Nothing
// is written before all is asked. Assumes nothing.
#![tactic(auto)]

ghost use Rattle.call_answers.specs.Answers.{told, deal_answer, DealTells};

use dealing::{DealRefusal, Dealing};
use grid::board::Board;
use key_lengths::key_length;
use refusal::Refusal;

// DEAL: 1 to 7, 18 to 20, 9 in their order; writes the keys of all players one after another, player 0 first, and
// nothing before all is asked.
pub fn deal(
    players: u32,
    positions: u32,
    width: u32,
    value_bytes: u32,
    point: u32,
    value: &[u8],
    arrays: &[u8],
    seeds: &[u8],
    words: &[u8],
    keys: &mut [u8],
) -> Result<(), DealRefusal>
    ensures { DealTells players positions width value_bytes point
        value.now arrays.now seeds.now words.now (told (deal_answer result))
        keys.old keys.new }
{
    let board = Board::new(players, positions, width, value_bytes)?;
    let dealing = Dealing::new(board, point, value, arrays, seeds, words)?;
    if keys.len() < players as usize * key_length(board) {
        return Err(Refusal::Room.into());
    }
    deal_keys::deal_keys(&dealing, keys);
    Ok(())
}
