// Join keys, behind its refusals. Assumes nothing.
#![tactic(auto)]

ghost use Rattle.std.specs.Prelude.{◌≡◌, ◌*◌, length};
ghost use Rattle.refusal.specs.Refusing.{answer_number};
ghost use Rattle.grid.specs.Code.{board_of};
ghost use Rattle.keys.specs.Keys.{key_long};
ghost use Rattle.join_keys_call.specs.JoinKeys.{places_refusal, joined_table, JoinKeysSays};

use grid::board::Board;
use key_check::body::Body;
use key_header::check_header;
use key_lengths::{body_length, key_length};
use refusal::Refusal;

mod places;

use places::keys_refusal;

// No twin of join_shares_call::joined: that one XORs bytes that stand there, this one opens keys.
// Fills `out` with the XOR of the tables of all keys, each accepted at its place. What stands behind a key's header ends where the key does.
fn joined_tables(board: Board, keys: &[u8], out: &mut [u8])
    requires { (length keys.now ≡ board.players * key_long (board_of board))
        × (places_refusal board.players 0 (board_of board) keys.now ≡ 0) × (length out.old ≡ board.positions * board.value_bytes) }
    ensures { out.new ≡ joined_table board.players (board_of board) keys.now }
{
    out.fill(0);
    let long = key_length(board);
    let behind = long - body_length(board);
    for player in (0..board.players as usize).rev() {
        let at = player * long;
        let bytes = &keys[at + behind..at + long];
        open_key::add_table(&Body { board, bytes }, out);
    }
}

// JOIN KEYS: for the first key 10, 1 to 5, 11; 12; then for each key in turn its 10, 1 to 5, 11, 15, 13; last 9. Writes the XOR of all tables.
pub fn join_keys(keys: &[u8], output: &mut [u8]) -> Result<(), Refusal>
    ensures { JoinKeysSays keys.now (answer_number result) output.old output.new }
{
    let board = check_header(keys)?.board;
    keys_refusal(board, keys, output.len())?;
    let table = board.table_length();
    joined_tables(board, keys, &mut output[..table]);
    Ok(())
}
