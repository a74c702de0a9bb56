// Blocks of ChaCha20 side by side: four counters of one seed, or four seeds at one counter. The lanes are opened, go
// through the rounds together and are serialized one after another. Assumes nothing.
#![tactic(auto)]

ghost use Rattle.std.specs.Prelude.{◌≡◌, ℕ, ◌+◌, ◌^◌, ◌<◌, [], length, slice_index_or};
ghost use Rattle.chacha20.specs.Expand.{seed_state, blocks};
ghost use Rattle.chacha20_lanes.specs.Lanes.{lane_of, lanes_bytes, lanes_blocks, blocks_at};

use chacha20_lanes::{lane, put_lane, twenty_rounds};
use chacha20_words::initial_state;

// The nonce of rows: twelve zeros.
const NONCE: [u8; 12] = [0; 12];

// `out` is a slice of 256 bytes, here and below, as parts of longer outputs are lent. An array of one would be `as_mut_array`'s, an `Option` of a
// reference, which the one module for all machines has not (docs/TARGETS.md), or `as_chunks_mut`'s, of which the library says the length alone.
// The lanes serialized, one after another.
fn serialize(states: &[u32; 64], out: &mut [u8])
    requires { length out.old ≡ 256 }
    ensures { out.new ≡ lanes_bytes 4 states.now }
{
    for l in 0..4 {
        let state = lane(states, l);
        chacha20_words::serialize(state, &mut out[64 * l..64 * l + 64]);
    }
}

// The blocks of four lanes, one after another.
fn blocks_beside(initial: [u32; 64], out: &mut [u8])
    requires { length out.old ≡ 256 }
    ensures { out.new ≡ lanes_blocks 4 initial }
{
    let mut states = initial;
    twenty_rounds(&mut states);
    chacha20_words::add_into(&mut states, &initial);
    serialize(&states, out);
}

// Four lanes, each made by `state`.
fn four_lanes<F: Fn(usize) -> [u32; 16]>(state: F) -> [u32; 64]
    requires { (l : ℕ) → l < 4 → F.pre state l }
    ensures { (length result ≡ 64) × ((l : ℕ) → l < 4 → F.post state l (lane_of l result)) }
{
    let mut states = [0u32; 64];
    for l in 0..4 {
        put_lane(&mut states, l, state(l));
    }
    states
}

// Four blocks of one seed, from the block of `counter` on.
pub fn four_counters(seed: &[u8; 32], counter: u32, out: &mut [u8])
    requires { (counter + 4 < 2 ^ 32) × (length out.old ≡ 256) }
    ensures { out.new ≡ blocks 4 counter seed.now }
{
    let initial = four_lanes(
        |l: usize| -> [u32; 16]
            requires { (l < 4) × (counter + 4 < 2 ^ 32) }
            ensures { result ≡ seed_state seed.exit.now (counter + l) }
        { initial_state(seed, counter + l as u32, &NONCE) },
    );
    blocks_beside(initial, out);
}

// The blocks of `counter` of four seeds that stand one after another.
pub fn four_seeds(seeds: &[u8; 128], counter: u32, out: &mut [u8])
    requires { length out.old ≡ 256 }
    ensures { out.new ≡ blocks_at 4 counter seeds.now }
{
    let (seeds, _) = seeds.as_chunks::<32>();
    let initial = four_lanes(
        |l: usize| -> [u32; 16]
            requires { l < length seeds.now }
            ensures { result ≡ seed_state (slice_index_or seeds.exit.now l []) counter }
        { initial_state(&seeds[l], counter, &NONCE) },
    );
    blocks_beside(initial, out);
}
