// The grid rows of a key: a player's marks, packed, and the seeds of the marked columns. Assumes nothing.
#![tactic(auto)]

ghost use Rattle.std.specs.Prelude.{◌≡◌, cond, [], ◌+◌, ◌*◌, ◌/◌, ◌≤◌, ◌<◌, length};
ghost use Rattle.grid.specs.Grid.{grid_rows};
ghost use Rattle.grid.specs.Code.{board_of};
ghost use Rattle.keys.specs.Keys.{held_seeds, body_from};
ghost use Rattle.deal_grid_rows.specs.Rows.{column_seed, row_bytes};
ghost use Rattle.writer.specs.Written.{Wrote};

use deal_marks::Player;
use dealing::Dealing;
use grid::board::SEED_BYTES;
use key_lengths::mark_bytes;
use writer::{put, put_byte};

// A seed's bytes by themselves: read before any is written, so that they are moved at once.
fn seed_bytes(seed: &[u8]) -> [u8; 32]
    requires { length seed.now ≡ 32 }
    ensures { result ≡ seed.now }
{
    let mut bytes = [0u8; 32];
    // Tried: copy_from_slice takes twice Deal's time with 3 players and 65,536 squares.
    put(&mut bytes, 0, seed);
    bytes
}

// The seed is a slice: an array here would be made of each seed, and `seed_bytes` makes one of those that are held.
// Writes a seed where it is held, and nothing where it is not. No twin of open_grid_row's `add_if`: this one moves on, that one XORs.
fn put_if(out: &mut [u8], at: usize, held: bool, seed: &[u8]) -> usize
    requires { (length seed.now ≡ 32) × (at + length (cond held seed.now []) ≤ length out.old) }
    ensures { Wrote at (cond held seed.now []) result out.old out.new }
{
    if held {
        let bytes = seed_bytes(seed);
        return put(out, at, &bytes);
    }
    at
}

// Writes the seed of a column where the player marks it. Array and seeds go as two: tried, a struct of both with its methods takes 1.07 of
// Deal's time with 2 players and 65,536 squares, and 1.03 with 4.
fn put_column(
    out: &mut [u8],
    at: usize,
    player: Player,
    column: usize,
    array: &[u8],
    seeds: &[u8],
) -> usize
    requires { (column < length array.now) × (32 * length array.now ≤ length seeds.now)
        × (at + length (column_seed player.bit column array.now seeds.now) ≤ length out.old) }
    ensures { Wrote at (column_seed player.bit column array.now seeds.now) result out.old out.new }
{
    let from = SEED_BYTES * column;
    let end = from + SEED_BYTES;
    put_if(out, at, player.marks(array[column]), &seeds[from..end])
}

// Writes the seeds of the columns that the player marks, in column order.
fn put_held(out: &mut [u8], at: usize, player: Player, array: &[u8], seeds: &[u8]) -> usize
    requires { (32 * length array.now ≤ length seeds.now) × (at + length (held_seeds player.bit array.now seeds.now) ≤ length out.old) }
    ensures { Wrote at (held_seeds player.bit array.now seeds.now) result out.old out.new }
{
    let mut next = at;
    for column in 0..array.len() {
        next = put_column(out, next, player, column, array, seeds);
    }
    next
}

// Writes a grid row of four columns, as three players have: the same with its numbers known, so that the compiler writes no loop.
fn put_four(out: &mut [u8], at: usize, player: Player, array: &[u8], seeds: &[u8]) -> usize
    requires { (length array.now ≡ 4) × (128 ≤ length seeds.now) × (at + length (row_bytes 1 player.bit array.now seeds.now) ≤ length out.old) }
    ensures { Wrote at (row_bytes 1 player.bit array.now seeds.now) result out.old out.new }
{
    let mut next = put_byte(out, at, player.four_marks(array, 0));
    // Tried: put_held called here too takes 1.86 of Deal's time with 3 players and 65,536 squares, and 1.10 where it is inlined.
    for column in 0..4 {
        next = put_column(out, next, player, column, array, seeds);
    }
    next
}

// Writes one grid row of the player's key: the marks, then the held seeds.
fn put_grid_row(
    out: &mut [u8],
    at: usize,
    player: Player,
    mark_bytes: usize,
    array: &[u8],
    seeds: &[u8],
) -> usize
    requires { (mark_bytes ≤ 100) × (mark_bytes ≡ (length array.now + 7) / 8) × (32 * length array.now ≤ length seeds.now)
        × (at + length (row_bytes mark_bytes player.bit array.now seeds.now) ≤ length out.old) }
    ensures { Wrote at (row_bytes mark_bytes player.bit array.now seeds.now) result out.old out.new }
{
    if array.len() == 4 {
        return put_four(out, at, player, array, seeds);
    }
    let next = player.put_marks(out, at, mark_bytes, array);
    put_held(out, next, player, array, seeds)
}

// Writes all grid rows of the player's key.
pub fn put_grid_rows(out: &mut [u8], at: usize, dealing: &Dealing, player: Player) -> usize
    requires { let b = board_of dealing.now.board in
        at + length (body_from (grid_rows b) b player.bit dealing.now.arrays.now dealing.now.seeds.now) ≤ length out.old }
    ensures { let b = board_of dealing.now.board in
        Wrote at (body_from (grid_rows b) b player.bit dealing.now.arrays.now dealing.now.seeds.now) result out.old out.new }
{
    let columns = dealing.board.columns();
    let mut next = at;
    for grid_row in 0..dealing.board.grid_rows() {
        let from = grid_row * columns;
        let end = from + columns;
        let seed = SEED_BYTES * from;
        // The bytes of marks are worked out here: before the loop they make Deal take 1.34 of its time with 4 players.
        next = put_grid_row(
            out,
            next,
            player,
            mark_bytes(dealing.board),
            &dealing.arrays[from..end],
            &dealing.seeds[seed..],
        );
    }
    next
}
