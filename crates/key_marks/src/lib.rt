// The marks of a grid row of a key, and where the seeds of its marked columns stand, in the part of the key that begins at it.
// A mark that stands past the end of the part counts as zero, so that these functions ask nothing of the part's length. Assumes nothing.
#![tactic(auto)]

ghost use Rattle.std.specs.Prelude.{◌≡◌, ◌-◌, ◌≤◌};
ghost use Rattle.grid.specs.Grid.{columns, grid_rows};
ghost use Rattle.grid.specs.Code.{board_of};
ghost use Rattle.keys.specs.Keys.{count_marks, marks_good};
ghost use Rattle.keys.specs.Held.{marked, grid_row_fits, seed_from};

use grid::board::{Board, SEED_BYTES};
use key_lengths::{mark_bytes, stride};
use reader::{byte, part_from};

// No twin of `Player::marks` (deal_marks): here the byte is found by the column, or is none, there it is at hand.
// A column's mark: bit j mod 8 of byte j div 8.
pub fn mark(part: &[u8], column: usize) -> bool
    ensures { result ≡ marked part.now column }
{
    let marks = byte(part, column / 8);
    (marks >> (column % 8)) % 2 == 1
}

// Marked columns from one column to another, without that one.
pub fn marks_between(part: &[u8], from: usize, until: usize) -> usize
    ensures { result ≡ count_marks (until - from) from part.now }
{
    // `(from..until).filter(..).count()` was tried: it takes 1.27 of Check key's time on large boards.
    let mut count = 0;
    for column in from..until {
        let marked = mark(part, column);
        if marked {
            count += 1;
        }
    }
    count
}

// Part and board stay two, here and below: these functions lie below `Body`, which is made by what they answer.
// Whether a grid row's marks are in order: exactly half the columns are marked, and no spare bit is set.
pub fn grid_row_fits(part: &[u8], board: Board) -> bool
    ensures { result ≡ grid_row_fits (board_of board) part.now }
{
    let columns = board.columns();
    let marks = marks_between(part, 0, columns);
    if marks != columns / 2 {
        return false;
    }
    let bits = 8 * mark_bytes(board);
    marks_between(part, columns, bits) == 0
}

// Whether the marks of every grid row are in order, in what follows a header.
pub fn marks_good(body: &[u8], board: Board) -> bool
    ensures { result ≡ marks_good (grid_rows (board_of board)) (board_of board) body.now }
{
    let row = stride(board);
    let mut part = body;
    for _ in 0..board.grid_rows() {
        if !grid_row_fits(part, board) {
            return false;
        }
        part = part_from(part, row);
    }
    true
}

// Where a marked column's seed begins in its grid row: behind the marks, and a seed for each marked column before it.
pub fn seed_from(part: &[u8], board: Board, column: usize) -> usize
    requires { column ≤ columns (board_of board) }
    ensures { result ≡ seed_from (board_of board) part.now column }
{
    mark_bytes(board) + SEED_BYTES * marks_between(part, 0, column)
}
