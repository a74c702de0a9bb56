// Writing into a lent output: a part, a byte, or a copy of bytes that stand there already, at a place. Each writer answers the place behind
// what it wrote, so that the next begins there, and leaves every other byte as it was. Their meaning is `Wrote` of specs/Written.antt.
// Assumes nothing.
// `out` and `at` stay two: each method of a struct that held both would promise one clause more, that `out` still has the ghost name that it had.
#![tactic(auto)]

ghost use Rattle.std.specs.Prelude.{◌≡◌, [], ◌∷◌, ◌+◌, ◌≤◌, ◌<◌, length, take, drop, replicate};
ghost use Rattle.writer.specs.Written.{Wrote};

// Makes every byte zero.
pub fn clear(out: &mut [u8])
    ensures { out.new ≡ replicate (length out.old) 0 }
{
    out.fill(0);
}

// Byte by byte: `copy_from_slice` becomes a call of `memmove`, which the archive for x86-64 asks a C library for nowhere else (docs/TARGETS.md).
// Writes `part` from place `at` on.
pub fn put(out: &mut [u8], at: usize, part: &[u8]) -> usize
    requires { at + length part.now ≤ length out.old }
    ensures { Wrote at part.now result out.old out.new }
{
    for i in 0..part.len() {
        out[at + i] = part[i];
    }
    at + part.len()
}

// Writes one byte at place `at`.
pub fn put_byte(out: &mut [u8], at: usize, byte: u8) -> usize
    requires { at < length out.old }
    ensures { Wrote at (byte ∷ []) result out.old out.new }
{
    out[at] = byte;
    at + 1
}

// Writes at place `at` the `count` bytes that stand from place `from` on, all before `at`.
pub fn put_again(out: &mut [u8], at: usize, from: usize, count: usize) -> usize
    requires { (from + count ≤ at) × (at + count ≤ length out.old) }
    ensures { Wrote at (take count (drop from out.old)) result out.old out.new }
{
    let (before, behind) = out.split_at_mut(at);
    put(behind, 0, &before[from..from + count]);
    at + count
}
