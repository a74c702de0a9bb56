// ChaCha20's state as words and as bytes, by RFC 8439, section 2.3: the initial state read from key, block counter and nonce, the input words
// added to the output words, and a state serialized. The meanings stand in crate chacha20. Assumes nothing.
#![tactic(auto)]

ghost use Rattle.std.specs.Prelude.{◌≡◌, ◌+◌, ◌≤◌, [], ◌∷◌, length};
ghost use Rattle.chacha20.specs.Expand.{word_at, sums, low_bytes};
ghost use Rattle.chacha20.specs.Rfc8439.{initial_state};

// 2.3: the little-endian word whose first byte has the given place
fn load(bytes: &[u8], place: usize) -> u32
    requires { place + 4 ≤ length bytes.now }
    ensures { result ≡ word_at bytes.now place }
{
    u32::from_le_bytes([
        bytes[place],
        bytes[place + 1],
        bytes[place + 2],
        bytes[place + 3],
    ])
}

// Place by place, as the RFC prints the state: a loop would need the fifteen places in a table, with four cases of whose they are.
// 2.3: the constant, the key, the block counter and the nonce
pub fn initial_state(key: &[u8; 32], counter: u32, nonce: &[u8; 12]) -> [u32; 16]
    ensures { result ≡ initial_state key.now counter nonce.now }
{
    let constant = b"expand 32-byte k";
    [
        load(constant, 0),
        load(constant, 4),
        load(constant, 8),
        load(constant, 12),
        load(key, 0),
        load(key, 4),
        load(key, 8),
        load(key, 12),
        load(key, 16),
        load(key, 20),
        load(key, 24),
        load(key, 28),
        counter,
        load(nonce, 0),
        load(nonce, 4),
        load(nonce, 8),
    ]
}

// No twin of `xor::xor_into`: words and not bytes, added and not XORed; one function for both would be a loop around a closure.
// 2.3: word by word, the input words added to the output words
pub fn add_into(out: &mut [u32], input: &[u32])
    requires { length out.old ≡ length input.now }
    ensures { out.new ≡ sums out.old input.now }
{
    for (i, word) in out.iter_mut().enumerate() {
        *word = word.wrapping_add(input[i]);
    }
}

// 2.3: one word, its lowest byte first. Byte by byte: `copy_from_slice` asks how wide an address is, and the module is one for all (docs/TARGETS.md).
fn put_word(word: u32, out: &mut [u8])
    requires { length out.old ≡ 4 }
    ensures { out.new ≡ low_bytes (word ∷ []) }
{
    let [first, second, third, fourth] = word.to_le_bytes();
    out[0] = first;
    out[1] = second;
    out[2] = third;
    out[3] = fourth;
}

// 2.3: a state's words, serialized one by one
pub fn serialize(state: [u32; 16], out: &mut [u8])
    requires { length out.old ≡ 64 }
    ensures { out.new ≡ low_bytes state }
{
    for (i, word) in state.iter().enumerate() {
        put_word(*word, &mut out[4 * i..4 * i + 4]);
    }
}
