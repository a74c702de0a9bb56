// How long things are in a key: a grid row's marks, a grid row, all that stands behind the header, and the whole key of a board.
// Assumes nothing.
#![tactic(auto)]

ghost use Rattle.std.specs.Prelude.{◌≡◌};
ghost use Rattle.grid.specs.Code.{board_of};
ghost use Rattle.keys.specs.Keys.{mark_bytes, stride, body_long, key_long};

use grid::board::Board;
use key_header::{Header, header_length};

// Bytes of a grid row's marks: a bit for each column.
pub fn mark_bytes(board: Board) -> usize
    ensures { result ≡ mark_bytes (board_of board) }
{
    (board.columns() + 7) / 8
}

// Bytes of a grid row: its marks, and the seeds of half its columns.
pub fn stride(board: Board) -> usize
    ensures { result ≡ stride (board_of board) }
{
    mark_bytes(board) + 16 * board.columns()
}

// Bytes behind the header: all grid rows, and the words.
pub fn body_length(board: Board) -> usize
    ensures { result ≡ body_long (board_of board) }
{
    board.grid_rows() * stride(board) + board.columns() * board.row_length()
}

// Bytes of a key, K: header + ν × (marks + 16 × J) + J × μ × w. Whose key it is makes no difference: a player's number takes one byte.
pub fn key_length(board: Board) -> usize
    ensures { result ≡ key_long (board_of board) }
{
    let anyone = Header::of(board, 0);
    header_length(anyone) + body_length(board)
}
