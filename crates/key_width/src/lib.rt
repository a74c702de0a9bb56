// The grid width that makes the shortest key: all widths are tried, each by Key length's own length. Assumes nothing.
#![tactic(auto)]

ghost use Rattle.std.specs.Prelude.{◌≡◌};
ghost use Rattle.key_width.specs.Width.{InRange, width};

use grid::board::{Board, MOST_GRID_ROWS, MOST_WIDTH, grid_rows_for};
use key_lengths::key_length;

// More bytes than any key has. With an option in its place 1.57 of plain C's time, by min_by_key 1.24, so 0.93: docs/SPEED.md asks 1.20 at most.
const NO_KEY: usize = 1048576;

// The width, of those with at most 256 grid rows, whose key is shortest; of two that tie, the smaller.
pub fn shortest_width(players: u32, positions: u32, value_bytes: u32) -> u32
    requires { InRange players positions value_bytes }
    ensures { result ≡ width players positions value_bytes }
{
    let mut best: u32 = 0;
    let mut least = NO_KEY;
    for width in 1..=MOST_WIDTH {
        if grid_rows_for(positions, width) <= MOST_GRID_ROWS {
            let board = Board {
                players,
                positions,
                width,
                value_bytes,
            };
            let length = key_length(board);
            if length < least {
                best = width;
                least = length;
            }
        }
    }
    best
}
