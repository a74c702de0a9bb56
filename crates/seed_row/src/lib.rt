// One row from its seed, by document 01, from any byte of it on: `expand` writes a stretch of it, `xor_row` XORs one
// into an output. Both go over the stretch by the blocks that hold it, four at a time: four counters side by side, or
// one block by itself where one holds all that is left. Assumes nothing.
#![tactic(auto)]

ghost use Rattle.std.specs.Prelude.{◌≡◌, ◌+◌, ◌-◌, ◌%◌, ◌^◌, ◌<◌, ◌≤◌, min, length, take};
ghost use Rattle.xor.specs.Xor.{xors, zeros};
ghost use Rattle.chacha20.specs.From.{expand_from};
ghost use Rattle.chacha20.specs.Rfc8439.{chacha20_block, key_stream};

use chacha20_lane_blocks::four_counters;
use xor::xor_into;

// Bytes of a block of the key stream.
pub const BLOCK_BYTES: usize = 64;

// Bytes of four blocks.
const FOUR_BLOCKS_BYTES: usize = 256;

// The nonce of rows: twelve zeros.
const NONCE: [u8; 12] = [0; 12];

// The block of `counter`. Here alone the scalar block is called, so that the compiler unfolds it, with the nonce that it
// then knows.
fn make_block(seed: &[u8; 32], counter: u32, out: &mut [u8])
    requires { length out.old ≡ 64 }
    ensures { out.new ≡ chacha20_block seed.now counter (zeros 12) }
{
    chacha20_blocks::block(seed, counter, &NONCE, out);
}

// Seed and counter go as two: the counter is made of each turn's place.
// Makes blocks from that of `counter` on, so many that they have the first `bytes` bytes of the key stream there: one
// by itself, or four.
#[inline(always)]
fn make_blocks(seed: &[u8; 32], counter: u32, bytes: usize, made: &mut [u8; 256])
    requires { (counter + 4 < 2 ^ 32) × (bytes ≤ 256) }
    ensures { take bytes made.new ≡ key_stream bytes counter seed.now (zeros 12) }
{
    if bytes <= BLOCK_BYTES {
        make_block(seed, counter, &mut made[..BLOCK_BYTES]);
        return;
    }
    four_counters(seed, counter, made);
}

// Where a turn ends of a walk over `all` bytes of a row: `done` of them are behind it, and the next one is byte `at` of
// the row. It takes what is left of `most` bytes of blocks, counted from the first byte of that block, or all that is
// left.
pub fn next_end(at: usize, done: usize, all: usize, most: usize) -> usize
    requires { (done < all) × (all ≤ 4096) × (64 ≤ most) × (most ≤ 256) }
    ensures { result ≡ min (done + (most - at % 64)) all }
{
    (done + (most - at % BLOCK_BYTES)).min(all)
}

// No twin of `put_stretch`, which makes whole blocks in the output itself, and is lent no room for them: `made` is lent through every turn.
// XORs the row's bytes from byte `at` on into `out`. `made` is room for the four blocks that have them.
fn xor_stretch(seed: &[u8; 32], at: usize, made: &mut [u8; 256], out: &mut [u8])
    requires { (at ≤ 4096) × (at % 64 + length out.old ≤ 256) }
    ensures { out.new ≡ xors out.old
        (expand_from at (length out.old) seed.now) }
{
    let skip = at % BLOCK_BYTES;
    let end = skip + out.len();
    make_blocks(seed, (at / BLOCK_BYTES) as u32, end, made);
    xor_into(out, &made[skip..end]);
}

// Seed, start and output one by one, here and in `expand`: Expand's own arguments, through C too.
// XORs the row of one seed from byte `start` on into `out`. The walk is that of `expand`: with the step as a closure its contract, over every call
// on every stretch, is longer than both bodies.
pub fn xor_row(seed: &[u8; 32], start: usize, out: &mut [u8])
    requires { start + length out.old ≤ 4096 }
    ensures { out.new ≡ xors out.old
        (expand_from start (length out.old) seed.now) }
{
    let mut made = [0u8; 256];
    let mut done: usize = 0;
    while done < out.len() {
        let at = start + done;
        let end = next_end(at, done, out.len(), FOUR_BLOCKS_BYTES);
        xor_stretch(seed, at, &mut made, &mut out[done..end]);
        done = end;
    }
}

// Fills `out` with the row's bytes from byte `at` on, which four blocks have. Four whole blocks are made in the output
// itself, one by itself, others aside and cut.
fn put_stretch(seed: &[u8; 32], at: usize, out: &mut [u8])
    requires { (at ≤ 4096) × (at % 64 + length out.old ≤ 256) }
    ensures { out.new ≡ expand_from at (length out.old) seed.now }
{
    let counter = (at / BLOCK_BYTES) as u32;
    if out.len() == FOUR_BLOCKS_BYTES {
        four_counters(seed, counter, out);
        return;
    }
    let skip = at % BLOCK_BYTES;
    let end = skip + out.len();
    if out.len() == BLOCK_BYTES {
        if skip == 0 {
            make_block(seed, counter, out);
            return;
        }
    }
    let mut made = [0u8; 256];
    make_blocks(seed, counter, end, &mut made);
    writer::put(out, 0, &made[skip..end]);
}

// The seed is a slice, as Expand is lent one: the array is made once here, and by no caller.
// Document 01, "Rows from seeds", and document 02, (ii): the seed is the key, the nonce twelve zero bytes, the block
// counter starts at 0, and the row's bytes from byte `start` on are written.
pub fn expand(seed: &[u8], start: usize, out: &mut [u8])
    requires { (length seed.now ≡ 32) × (start + length out.old ≤ 4096) }
    ensures { out.new ≡ expand_from start (length out.old) seed.now }
{
    let (seeds, _) = seed.as_chunks::<32>();
    let seed = &seeds[0];
    let mut done: usize = 0;
    while done < out.len() {
        let at = start + done;
        let end = next_end(at, done, out.len(), FOUR_BLOCKS_BYTES);
        put_stretch(seed, at, &mut out[done..end]);
        done = end;
    }
}
