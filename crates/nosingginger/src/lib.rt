// The operations that a board and a phone call. None requires anything: each answers its value, or the first refusal that
// fits, and its contract, a definition of the crate call_answers, fixes the number, the value or the place, and every
// lent byte, of refused calls too. A refused call changes nothing that is lent. Deal, the openings, the draw, the joins,
// the page and the tally are crates of their own, passed on here, as are Check key and Held seed of the crate key_check.
// Assumes nothing.
#![tactic(auto)]

ghost use Rattle.refusal.specs.Refusing.{answer_number};
ghost use Rattle.call_answers.specs.Answers.{answer_told, LongSays, ExpandSays, WidthSays, SensorSays};

use call_answers::sizes_refusal;
pub use deal_call::deal;
pub use dealing::DealRefusal;
pub use draw_call::draw_card;
use grid::board::{Board, SEED_BYTES};
pub use grid::fault::Fault;
use grid::sensor::SENSORS;
pub use join_keys_call::join_keys;
pub use join_shares_call::join_shares;
pub use key_check::check::check_key;
pub use key_check::held::held_seed;
pub use key_header::{Header, Heading};
pub use open_call::{open_all, open_one};
pub use page_call::write_page;
pub use refusal::Refusal;
pub use tally_call::{Tally, tally_add, tally_look_up, tally_make, tally_total};

// The most bytes of a row.
pub const MOST_ROW_BYTES: usize = 4096;

// KEY LENGTH: 1 to 5; the bytes of each player's key.
#[tactic(auto, using(key_lengths::proofs::Lengths::key_most), unfolding(call_answers::specs::Answers::LongSays, call_answers::specs::Answers::says))]
pub fn key_length(
    players: u32,
    positions: u32,
    width: u32,
    value_bytes: u32,
) -> Result<u32, Refusal>
    ensures { LongSays players positions width value_bytes (answer_told result) }
{
    let board = Board::new(players, positions, width, value_bytes)?;
    Ok(key_lengths::key_length(board) as u32)
}

// CHOOSE WIDTH: 1, 2, 4; the width that makes the shortest key, and of two that tie the smaller.
#[tactic(auto, using(call_answers::proofs::Numbers::sizes_fit), unfolding(call_answers::specs::Answers::WidthSays, call_answers::specs::Answers::says))]
pub fn choose_width(players: u32, positions: u32, value_bytes: u32) -> Result<u32, Refusal>
    ensures { WidthSays players positions value_bytes (answer_told result) }
{
    sizes_refusal(players, positions, value_bytes)?;
    Ok(key_width::shortest_width(players, positions, value_bytes))
}

// SENSOR POSITION: 17; the position of a sensor of the spring board.
#[tactic(auto, unfolding(call_answers::specs::Answers::SensorSays, call_answers::specs::Answers::says))]
pub fn sensor_position(sensor: u32) -> Result<u32, Refusal>
    ensures { SensorSays sensor (answer_told result) }
{
    if SENSORS <= sensor {
        return Err(Refusal::Sensor);
    }
    Ok(grid::sensor::sensor_place(sensor))
}

// EXPAND: 7, 16; fills the output with the bytes from `start` on of the seed's key stream. Nothing overflows,
// whatever `start` is.
#[tactic(auto, unfolding(call_answers::specs::Answers::ExpandSays, call_answers::specs::Answers::PutSays, call_answers::specs::Answers::expand_refusal))]
pub fn expand_seed(seed: &[u8], start: usize, output: &mut [u8]) -> Result<(), Refusal>
    ensures { ExpandSays seed.now start (answer_number result) output.old output.new }
{
    if seed.len() != SEED_BYTES {
        return Err(Refusal::Lent);
    }
    if MOST_ROW_BYTES < output.len() {
        return Err(Refusal::Expansion);
    }
    if MOST_ROW_BYTES - output.len() < start {
        return Err(Refusal::Expansion);
    }
    seed_row::expand(seed, start, output);
    Ok(())
}
