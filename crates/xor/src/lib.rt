// XOR of byte strings. `xor_into` XORs a row of bytes into another of the same length, place by place; every share, word and table of
// the library is made by it. Its meaning is `xors` of specs/Xor.antt. Assumes nothing.
#![tactic(auto)]

ghost use Rattle.std.specs.Prelude.{◌≡◌, length};
ghost use Rattle.xor.specs.Xor.{xors};

// XORs `row` into `out`. Both have one length, which every caller is proved to keep.
pub fn xor_into(out: &mut [u8], row: &[u8])
    requires { length out.old ≡ length row.now }
    ensures { out.new ≡ xors out.old row.now }
{
    for (i, byte) in out.iter_mut().enumerate() {
        *byte ^= row[i];
    }
}
