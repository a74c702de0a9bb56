// The shares of one grid row, or any stretch of them, worked out of the part of an accepted key that begins at it: the
// XOR over the player's marked columns of word and row. The held seeds of a grid row stand one after another, so that
// all their rows are XORed at once, and the words after them. Crate open_key calls it for each grid row of a table, or
// for one square. Assumes nothing.
#![tactic(auto)]

ghost use Rattle.std.specs.Prelude.{◌≡◌, cond, ◌+◌, ◌*◌, ◌-◌, ◌/◌, ◌≤◌, ◌<◌, length, take, drop};
ghost use Rattle.xor.specs.Xor.{xors};
ghost use Rattle.seed_rows.specs.Rows.{rule};
ghost use Rattle.grid.specs.Grid.{columns, grid_rows, row_long};
ghost use Rattle.grid.specs.Code.{board_of};
ghost use Rattle.keys.specs.Keys.{mark_bytes, count_marks, stride};
ghost use Rattle.open_grid_row.specs.Shares.{shares};
ghost use Rattle.open_grid_row.specs.Words.{marked_words, grid_row_words};

use grid::board::{Board, SEED_BYTES};
use key_lengths::{mark_bytes, stride};
use key_marks::mark;
use reader::part_from;
use seed_rows::xor_rows;
use xor::xor_into;

// XORs a word into `out` where its column is marked. No twin of deal_grid_rows's `put_if`: that one writes a seed and moves on.
fn add_if(marked: bool, word: &[u8], out: &mut [u8])
    requires { length out.old ≡ length word.now }
    ensures { out.new ≡ cond marked (xors out.old word.now) out.old }
{
    if marked {
        xor_into(out, word);
    }
}

// `from` and `out` go as two, here and below: the one is a place of a row, the other a part of an output that moves on with each grid row.
// XORs into `out` the words of the columns that are marked in the grid row at which the part begins, each from its byte `from` on. The words
// of all columns stand one after another.
fn add_words(part: &[u8], words: &[u8], row_bytes: usize, from: usize, out: &mut [u8])
    requires { (0 < row_bytes) × (from + length out.old ≤ row_bytes) }
    ensures { out.new ≡ xors out.old (marked_words (length words.now / row_bytes) 0 part.now words.now row_bytes from (length out.old)) }
{
    let end = from + out.len();
    for (column, word) in words.chunks_exact(row_bytes).enumerate() {
        add_if(mark(part, column), &word[from..end], out);
    }
}

// The same by the board's numbers: the words stand behind the grid row at which the part begins and all after it.
fn add_grid_row_words(part: &[u8], board: Board, grid_row: usize, from: usize, out: &mut [u8])
    requires { (grid_row < grid_rows (board_of board))
        × (length part.now ≡ (grid_rows (board_of board) - grid_row) * stride (board_of board) + columns (board_of board) * row_long (board_of board))
        × (from + length out.old ≤ row_long (board_of board)) }
    ensures { out.new ≡ xors out.old (grid_row_words (board_of board) part.now grid_row from (length out.old)) }
{
    let words = part_from(part, (board.grid_rows() - grid_row) * stride(board));
    add_words(part, words, board.row_length(), from, out);
}

// The held seeds of the grid row at which the part begins: half its columns have one.
fn grid_row_seeds(part: &[u8], board: Board) -> &[u8]
    requires { stride (board_of board) ≤ length part.now }
    ensures { result.now ≡ take (32 * (columns (board_of board) / 2)) (drop (mark_bytes (board_of board)) part.now) }
{
    let from = mark_bytes(board);
    let end = from + SEED_BYTES * (board.columns() / 2);
    &part[from..end]
}

// Part and board, and no `Body`: docs/DECISIONS.md names this function, and a `Body` says of every grid row what is asked here of one.
// XORs into `out` the shares of the grid row at which the part begins, from byte `from` of them on.
pub fn add_shares(part: &[u8], board: Board, grid_row: usize, from: usize, out: &mut [u8])
    requires { (grid_row < grid_rows (board_of board))
        × (length part.now ≡ (grid_rows (board_of board) - grid_row) * stride (board_of board) + columns (board_of board) * row_long (board_of board))
        × (count_marks (columns (board_of board)) 0 part.now ≡ columns (board_of board) / 2)
        × (from + length out.old ≤ row_long (board_of board)) }
    ensures { out.new ≡ xors out.old
        (shares (board_of board) (rule (board_of board)) part.now grid_row from (length out.old)) }
{
    xor_rows(grid_row_seeds(part, board), from, out);
    add_grid_row_words(part, board, grid_row, from, out);
}
