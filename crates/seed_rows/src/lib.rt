// Rows from seeds that stand one after another, from any byte of them on: `xor_rows` XORs them into an output, which
// is what opening does over a player's held seeds of a grid row, and dealing over all seeds of the point's grid row.
// Stretches that fewer than four blocks hold are made of four seeds side by side, block by block; the others, and
// those of the seeds left over, one by one. Assumes nothing.
#![tactic(auto)]

ghost use Rattle.std.specs.Prelude.{◌≡◌, ◌+◌, ◌/◌, ◌%◌, ◌≤◌, length};
ghost use Rattle.xor.specs.Xor.{xors};
ghost use Rattle.seed_rows.specs.Rows.{rows_joined};

use chacha20_lane_blocks::four_seeds;
use grid::board::SEED_BYTES;
use seed_row::{BLOCK_BYTES, next_end, xor_row};
use xor::xor_into;

// Bytes of four seeds.
const FOUR_SEEDS_BYTES: usize = 128;

// Bytes of three blocks. Where more blocks hold what is wanted of a row, four of each seed are made as quickly as one
// of each of four seeds.
const THREE_BLOCKS_BYTES: usize = 192;

// `made` and `out` go as two, here and below: the room is lent through every turn, the output part by part.
// XORs the rows of four seeds from byte `at` on into `out`, as many bytes as one block of each holds. `made` is room for
// these blocks.
fn xor_four_blocks(seeds: &[u8; 128], at: usize, made: &mut [u8; 256], out: &mut [u8])
    requires { (at ≤ 4096) × (at % 64 + length out.old ≤ 64) }
    ensures { out.new ≡ xors out.old
        (rows_joined 4 at (length out.old) seeds.now) }
{
    let skip = at % BLOCK_BYTES;
    four_seeds(seeds, (at / BLOCK_BYTES) as u32, made);
    let (blocks, _) = made.as_chunks::<BLOCK_BYTES>();
    for block in blocks {
        xor_into(out, &block[skip..skip + out.len()]);
    }
}

// XORs the rows of four seeds from byte `start` on into `out`, block by block. `made` is room for four blocks. A call of its own, whose room is free
// again before the seeds that are left are gone through: unfolded in `xor_rows` it stays taken, and Open one and Draw card need more stack than
// include/nosingginger.h says.
#[inline(never)]
fn xor_four(seeds: &[u8; 128], start: usize, made: &mut [u8; 256], out: &mut [u8])
    requires { start + length out.old ≤ 4096 }
    ensures { out.new ≡ xors out.old
        (rows_joined 4 start (length out.old) seeds.now) }
{
    let mut done: usize = 0;
    while done < out.len() {
        let at = start + done;
        let end = next_end(at, done, out.len(), BLOCK_BYTES);
        xor_four_blocks(seeds, at, made, &mut out[done..end]);
        done = end;
    }
}

// XORs the rows of the seeds from byte `start` on into `out` one by one.
fn xor_each(seeds: &[u8], start: usize, out: &mut [u8])
    requires { start + length out.old ≤ 4096 }
    ensures { out.new ≡ xors out.old
        (rows_joined (length seeds.now / 32) start (length out.old) seeds.now) }
{
    let (seeds, _) = seeds.as_chunks::<SEED_BYTES>();
    for seed in seeds {
        xor_row(seed, start, out);
    }
}

// `start + length out.old ≤ 4096` is a fact of two numbers that come apart in each walk: a struct of both would be made anew in each turn.
// XORs into `out` the rows of all seeds, from byte `start` on as far as the output goes: by fours, where fewer than four
// blocks hold what is wanted of a row, and one by one. Bytes behind the last whole seed count for nothing.
pub fn xor_rows(seeds: &[u8], start: usize, out: &mut [u8])
    requires { start + length out.old ≤ 4096 }
    ensures { out.new ≡ xors out.old
        (rows_joined (length seeds.now / 32) start (length out.old) seeds.now) }
{
    if THREE_BLOCKS_BYTES < start % BLOCK_BYTES + out.len() {
        xor_each(seeds, start, out);
        return;
    }
    let (fours, rest) = seeds.as_chunks::<FOUR_SEEDS_BYTES>();
    let mut made = [0u8; 256];
    for four in fours {
        xor_four(four, start, &mut made, out);
    }
    xor_each(rest, start, out);
}
