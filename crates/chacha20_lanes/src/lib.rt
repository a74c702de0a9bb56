// Four states of ChaCha20 side by side, so that the compiler fills its vector registers. They stand in sixty-four words, word w of lane l at
// 4·w + l. A lane is taken out, goes through a double round as an ordinary state and is put back, in a loop over the lanes that becomes one
// pass over vectors. Assumes nothing.
#![tactic(auto)]

ghost use Rattle.std.specs.Prelude.{◌≡◌, ◌<◌};
ghost use Rattle.chacha20.specs.Expand.{double_round, rounds};
ghost use Rattle.chacha20_lanes.specs.Lanes.{lane_of, SideBySide, Put};

// A lane's state.
pub fn lane(states: &[u32; 64], l: usize) -> [u32; 16]
    requires { l < 4 }
    ensures { result ≡ lane_of l states.now }
{
    std::array::from_fn(|w| states[4 * w + l])
}

// Puts a state into a lane; the other lanes stay.
pub fn put_lane(states: &mut [u32; 64], l: usize, words: [u32; 16])
    requires { l < 4 }
    ensures { Put l words states.old states.new }
{
    for w in 0..16 {
        states[4 * w + l] = words[w];
    }
}

// A double round of one lane, as the scalar block has it. Each has a double round of its own, with one caller, in which the compiler unfolds it:
// one for both misses the bar of speed (docs/DECISIONS.md).
fn double_round(state: [u32; 16]) -> [u32; 16]
    ensures { result ≡ double_round state }
{
    let [a, b, c, d, e, f, g, h] = chacha20::QUARTER_ROUNDS;
    let first = chacha20::odd_lines(state, a, b, c, d, 16);
    let second = chacha20::even_lines(first, a, b, c, d, 12);
    let third = chacha20::odd_lines(second, a, b, c, d, 8);
    let fourth = chacha20::even_lines(third, a, b, c, d, 7);
    let fifth = chacha20::odd_lines(fourth, e, f, g, h, 16);
    let sixth = chacha20::even_lines(fifth, e, f, g, h, 12);
    let seventh = chacha20::odd_lines(sixth, e, f, g, h, 8);
    chacha20::even_lines(seventh, e, f, g, h, 7)
}

// A double round of each lane.
fn double_rounds(states: &mut [u32; 64])
    ensures { SideBySide states.new (λ l. double_round (lane_of l states.old)) }
{
    for l in 0..4 {
        let before = lane(states, l);
        let after = double_round(before);
        put_lane(states, l, after);
    }
}

// No twin of chacha20's: that one makes its state anew after each double round, this one works in place.
// Twenty rounds of each lane.
pub fn twenty_rounds(states: &mut [u32; 64])
    ensures { SideBySide states.new (λ l. rounds 10 (lane_of l states.old)) }
{
    for _done in 0..10usize {
        double_rounds(states);
    }
}
