// The refusals of Join keys: p keys in one slice, the first header fixing p and K, and each key at its place. Assumes nothing.
ghost use Rattle.std.specs.Prelude.{◌≡◌, ◌&&◌, ◌*◌, eqb, length};
ghost use Rattle.refusal.specs.Refusing.{answer_number};
ghost use Rattle.grid.specs.Code.{board_of};
ghost use Rattle.keys.specs.Keys.{head_in, head_refusal, key_long};
ghost use Rattle.join_keys_call.specs.JoinKeys.{same_board, place_refusal, places_refusal, keys_refusal};

use grid::board::Board;
use key_header::{Heading, check_header};
use key_lengths::key_length;
use key_marks::marks_good;
use reader::part_from;
use refusal::Refusal;

// Whether a header has the first one's numbers and its place's player.
fn in_place(heading: Heading, board: Board, place: u32) -> bool
    ensures { result ≡ (same_board (board_of heading.board) (board_of board) && eqb heading.player place) }
{
    (heading.board, heading.player) == (board, place)
}

// One key at its place: 10, 1 to 5, 11, 15, 13.
fn place_refusal(board: Board, place: u32, key: &[u8]) -> Result<(), Refusal>
    ensures { answer_number result ≡ place_refusal (board_of board) place key.now }
{
    let heading = check_header(key)?;
    if !in_place(heading, board, place) {
        return Err(Refusal::Place);
    }
    if !marks_good(part_from(key, heading.end), board) {
        return Err(Refusal::Marks);
    }
    Ok(())
}

// Board and keys stay two: what is known of them together is what this function finds.
// Each key in turn, inside its own bytes.
fn places_refusal(board: Board, keys: &[u8]) -> Result<(), Refusal>
    requires { length keys.now ≡ board.players * key_long (board_of board) }
    ensures { answer_number result ≡ places_refusal board.players 0 (board_of board) keys.now }
{
    let long = key_length(board);
    for place in 0..board.players {
        let at = place as usize * long;
        place_refusal(board, place, &keys[at..at + long])?;
    }
    Ok(())
}

// All numbers behind the first header's own, in their order.
pub fn keys_refusal(board: Board, keys: &[u8], room: usize) -> Result<(), Refusal>
    requires { (head_refusal (head_in keys.now) ≡ 0) × ((head_in keys.now).board ≡ board_of board) }
    ensures { answer_number result ≡ keys_refusal keys.now room }
{
    if keys.len() != board.players as usize * key_length(board) {
        return Err(Refusal::Length);
    }
    places_refusal(board, keys)?;
    if room < board.table_length() {
        return Err(Refusal::Room);
    }
    Ok(())
}
