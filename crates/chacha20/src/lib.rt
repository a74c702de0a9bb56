// ChaCha20 by RFC 8439, to be held beside it: section 2.1's quarter round and 2.3's twenty rounds, under the RFC's
// names and in its order. Crate chacha20_words makes the state that they start from and serializes the one that they
// end with, crate chacha20_blocks has 2.3's block function. Document 01's rows are 2.4's key stream with the seed as
// key, the nonce twelve zeros and the block counter from 0: crate seed_row makes any stretch of them. The meanings of
// all of it stand in specs/Expand.antt, specs/From.antt and specs/Rfc8439.antt, and specs/Lines.antt has the lines
// that are stepped together for speed. Assumes nothing.
#![tactic(auto)]

ghost use Rattle.std.specs.Prelude.{◌≡◌, ◌<◌};
ghost use Rattle.chacha20.specs.Expand.{rolled, xor_word, mixed, double_round, rounds};
ghost use Rattle.chacha20.specs.Rfc8439.{Places, quarter_at};
ghost use Rattle.chacha20.specs.Lines.{odd_lines, even_lines, Lines};

// 2.3: the quarter rounds of a double round, each by its four places in the state: a column round, then a diagonal round.
pub const QUARTER_ROUNDS: [[usize; 4]; 8] = [
    [0, 4, 8, 12],
    [1, 5, 9, 13],
    [2, 6, 10, 14],
    [3, 7, 11, 15],
    [0, 5, 10, 15],
    [1, 6, 11, 12],
    [2, 7, 8, 13],
    [3, 4, 9, 14],
];

// 2.1: word ^= sum; word <<<= roll
fn xor_roll(word: u32, sum: u32, roll: u32) -> u32
    requires { (0 < roll) × (roll < 32) }
    ensures { result ≡ rolled (xor_word word sum) roll }
{
    (word ^ sum).rotate_left(roll)
}

// 2.1, one of the four lines: a += b; d ^= a; d <<<= roll
fn half_step(state: [u32; 16], a: usize, b: usize, d: usize, roll: u32) -> [u32; 16]
    requires { (a < 16) × (b < 16) × (d < 16) × (0 < roll) × (roll < 32) }
    ensures { result ≡ mixed a b d roll state }
{
    let mut next = state;
    let sum = state[a].wrapping_add(state[b]);
    let word = xor_roll(state[d], sum, roll);
    next[a] = sum;
    next[d] = word;
    next
}

// 2.1 and 2.2: QUARTERROUND at four places of the state
pub fn quarter_round(state: [u32; 16], places: [usize; 4]) -> [u32; 16]
    requires { Places places }
    ensures { result ≡ quarter_at places state }
{
    let [a, b, c, d] = places;
    let first = half_step(state, a, b, d, 16);
    let second = half_step(first, c, d, b, 12);
    let third = half_step(second, a, b, d, 8);
    half_step(third, c, d, b, 7)
}

// 2.1: the first line of four quarter rounds, or the third. As one function with `even_lines` it misses the bar of speed (docs/DECISIONS.md).
pub fn odd_lines(
    state: [u32; 16],
    p: [usize; 4],
    q: [usize; 4],
    r: [usize; 4],
    s: [usize; 4],
    roll: u32,
) -> [u32; 16]
    requires { Lines p q r s roll }
    ensures { result ≡ odd_lines p q r s roll state }
{
    let first = half_step(state, p[0], p[1], p[3], roll);
    let second = half_step(first, q[0], q[1], q[3], roll);
    let third = half_step(second, r[0], r[1], r[3], roll);
    half_step(third, s[0], s[1], s[3], roll)
}

// 2.1: the second line of four quarter rounds, or the last
pub fn even_lines(
    state: [u32; 16],
    p: [usize; 4],
    q: [usize; 4],
    r: [usize; 4],
    s: [usize; 4],
    roll: u32,
) -> [u32; 16]
    requires { Lines p q r s roll }
    ensures { result ≡ even_lines p q r s roll state }
{
    let first = half_step(state, p[2], p[3], p[1], roll);
    let second = half_step(first, q[2], q[3], q[1], roll);
    let third = half_step(second, r[2], r[3], r[1], roll);
    half_step(third, s[2], s[3], s[1], roll)
}

// 2.3: a column round, then a diagonal round; the four quarter rounds of each line by line together, so that neighbouring lines do not wait
// for each other
fn double_round(state: [u32; 16]) -> [u32; 16]
    ensures { result ≡ double_round state }
{
    let [a, b, c, d, e, f, g, h] = QUARTER_ROUNDS;
    let first = odd_lines(state, a, b, c, d, 16);
    let second = even_lines(first, a, b, c, d, 12);
    let third = odd_lines(second, a, b, c, d, 8);
    let fourth = even_lines(third, a, b, c, d, 7);
    let fifth = odd_lines(fourth, e, f, g, h, 16);
    let sixth = even_lines(fifth, e, f, g, h, 12);
    let seventh = odd_lines(sixth, e, f, g, h, 8);
    even_lines(seventh, e, f, g, h, 7)
}

// The same state, made anew of its words: so the compiler keeps each word in a register of its own.
fn word_by_word(state: [u32; 16]) -> [u32; 16]
    ensures { result ≡ state }
{
    [
        state[0], state[1], state[2], state[3], state[4], state[5], state[6], state[7], state[8],
        state[9], state[10], state[11], state[12], state[13], state[14], state[15],
    ]
}

// 2.3: twenty rounds
pub fn twenty_rounds(initial: [u32; 16]) -> [u32; 16]
    ensures { result ≡ rounds 10 initial }
{
    let mut state = initial;
    for _done in 0..10usize {
        state = word_by_word(double_round(state));
    }
    state
}
