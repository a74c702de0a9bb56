// The seed of a grid row and column that a key holds: its place in the key, and the 32 bytes of the caller's key themselves, a part of
// what was lent and never a copy.
ghost use Rattle.std.specs.Prelude.{◌≡◌, is_some};
ghost use Rattle.keys.specs.Held.{holds, held_seed_place, held_seed};
ghost use Rattle.key_check.specs.Checked.{place_of};

use crate::check::check_key;
use grid::board::SEED_BYTES;
use key_lengths::stride;
use key_marks::{mark, seed_from};
use reader::part_from;

// Key, grid row and column one by one, here and below: Held seed's arguments, as C and the papers have them.
// Where the 32 bytes begin in the key. There is no such place where the key is refused, where the grid row or the column does not exist, and
// where the mark is zero.
pub fn held_seed_place(key: &[u8], grid_row: u32, column: u32) -> Option<usize>
    ensures place { place_of result ≡ held_seed_place key.now grid_row column }
    ensures held { is_some result ≡ holds key.now grid_row column }
{
    let Ok(heading) = check_key(key) else {
        return None;
    };
    let board = heading.board;
    let row = grid_row as usize;
    if board.grid_rows() <= row {
        return None;
    }
    let place = column as usize;
    let columns = board.columns();
    if columns <= place {
        return None;
    }
    let from = heading.end + row * stride(board);
    let part = part_from(key, from);
    let marked = mark(part, place);
    if !marked {
        return None;
    }
    Some(from + seed_from(part, board, place))
}

// The 32 bytes, or an empty part where there are none: document 01's words, which its contract keeps.
pub fn held_seed(key: &[u8], grid_row: u32, column: u32) -> &[u8]
    ensures { result.now ≡ held_seed key.now grid_row column }
{
    let Some(from) = held_seed_place(key, grid_row, column) else {
        return &key[..0];
    };
    &key[from..from + SEED_BYTES]
}
