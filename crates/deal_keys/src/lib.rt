// Dealing: the keys of a dealing, written one after another. Refusals stand above this crate. Assumes nothing.
#![tactic(auto)]

ghost use Rattle.std.specs.Prelude.{◌≡◌, ◌+◌, ◌*◌, ◌≤◌, ◌<◌, length};
ghost use Rattle.grid.specs.Code.{board_of};
ghost use Rattle.keys.specs.Keys.{key_long};
ghost use Rattle.writer.specs.Written.{Wrote, in_front};
ghost use Rattle.dealing.specs.Code.{lent_of};
ghost use Rattle.deal_keys.specs.Dealt.{front_of, dealt_keys};

use deal_marks::Player;
use dealing::Dealing;
use key_header::{Header, put_header};

// Writes a player's key but for its last word: the header, the grid rows, and the lent words whole.
fn put_front(out: &mut [u8], at: usize, dealing: &Dealing, player: u32) -> usize
    requires { (player < 8) × (at + length (front_of dealing.now player) ≤ length out.old) }
    ensures { Wrote at (front_of dealing.now player) result out.old out.new }
{
    let next = put_header(out, at, Header::of(dealing.board, player));
    let next = deal_grid_rows::put_grid_rows(out, next, dealing, Player { bit: player });
    writer::put(out, next, dealing.words)
}

// Writes the keys of all players, player 0 first. The last word is worked out once, at the end of player 0's key; the others get it from
// there. Output behind the keys keeps its bytes.
pub fn deal_keys(dealing: &Dealing, keys: &mut [u8])
    requires { dealing.now.board.players * key_long (board_of dealing.now.board) ≤ length keys.old }
    ensures { keys.new ≡ in_front (dealt_keys (board_of dealing.now.board) (lent_of dealing.now)) keys.old }
{
    let row_length = dealing.board.row_length();
    let last = put_front(keys, 0, dealing, 0);
    let mut next = deal_last_word::put_last_word(
        keys,
        last,
        dealing.board,
        dealing.point,
        dealing.value,
        dealing.seeds,
        dealing.words,
    );
    for player in 1..dealing.board.players {
        let end = put_front(keys, next, dealing, player);
        next = writer::put_again(keys, end, last, row_length);
    }
}
