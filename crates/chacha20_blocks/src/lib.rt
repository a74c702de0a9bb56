// ChaCha20's block function by RFC 8439, section 2.3, under the RFC's name. Its meaning stands in crate chacha20.
// Assumes nothing.
#![tactic(auto)]

ghost use Rattle.std.specs.Prelude.{◌≡◌, length};
ghost use Rattle.chacha20.specs.Rfc8439.{chacha20_block};

use chacha20::twenty_rounds;
use chacha20_words::{add_into, initial_state, serialize};

// `out` is a slice of 64 bytes, as parts of longer outputs are lent: an array of each would be made by a test that never fails.
// 2.3.1, chacha20_block: one block of 64 bytes by key, block counter and nonce
pub fn block(key: &[u8; 32], counter: u32, nonce: &[u8; 12], out: &mut [u8])
    requires { length out.old ≡ 64 }
    ensures { out.new ≡ chacha20_block key.now counter nonce.now }
{
    let initial = initial_state(key, counter, nonce);
    let mut state = twenty_rounds(initial);
    add_into(&mut state, &initial);
    serialize(state, out);
}
