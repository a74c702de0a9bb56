// Total readers of a slice, whatever its length: the byte at a place, and the part that begins at one. Nothing has to be known of the bytes
// before they are read. Assumes nothing.
#![tactic(auto)]

ghost use Rattle.std.specs.Prelude.{◌≡◌, get_or, drop};

// Bytes and place go as two, here and below: a slice cut there is the other form, and the cut would be tested first.
// 0 and no `Option`: its contract says so, and a number that is cut short then reads as one that is not shortest (docs/DECISIONS.md).
// The byte at a place, and 0 past the end.
pub fn byte(bytes: &[u8], at: usize) -> u8
    ensures { result ≡ get_or bytes.now at 0 }
{
    if at < bytes.len() { bytes[at] } else { 0 }
}

// Empty and no `Option`: its contract says so, and nothing has to be known of a key's length before it is checked.
// The part that begins at a place, and an empty one past the end.
pub fn part_from(bytes: &[u8], from: usize) -> &[u8]
    ensures { result.now ≡ drop from bytes.now }
{
    if from <= bytes.len() {
        &bytes[from..]
    } else {
        &bytes[..0]
    }
}
