// Numbers in groups of seven bits, lowest group first: read, measured and written. A reader goes by value: its method consumes it and
// answers the number with the reader moved on. Assumes nothing.
ghost use Rattle.std.specs.Prelude.{◌≡◌, ◌+◌, ◌≤◌, ◌<◌, length};
ghost use Rattle.keys.specs.Keys.{number_bytes};
ghost use Rattle.writer.specs.Written.{Wrote};
ghost use Rattle.key_header.specs.Answers.{number_at, five_at, read_of, five_of};

use reader::byte;
use writer::put_byte;

// Groups of seven bits are document 01's, and no form that the library reads or writes; a place and no slice, as document 01 names it.
// A place in the bytes that are read.
#[derive(Clone, Copy, Debug, PartialEq, Eq)]
pub struct Reader {
    pub at: usize,
}

// The place and not the rest of the bytes, as in `Reader`.
// Five numbers one behind another, and the place behind them.
#[derive(Clone, Copy, Debug, PartialEq, Eq)]
pub struct Five {
    pub values: [u32; 5],
    pub end: usize,
}

impl Reader {
    // The number that stands at its place, and the reader behind it; none where the number is cut short, longer than three groups or not in its
    // shortest form. A last group is never 0, and past the end a byte reads as 0: a number that is cut short reads as one that is not in its
    // shortest form.
    pub fn number(self, bytes: &[u8]) -> Option<(u32, Reader)>
        ensures { read_of result ≡ number_at bytes.now self.at }
    {
        let at = self.at;
        if bytes.len() <= at {
            return None;
        }
        let first = byte(bytes, at) as u32;
        if first < 128 {
            return Some((first, Reader { at: at + 1 }));
        }
        let second = byte(bytes, at + 1) as u32;
        if second == 0 {
            return None;
        }
        if second < 128 {
            return Some((first - 128 + 128 * second, Reader { at: at + 2 }));
        }
        let third = byte(bytes, at + 2) as u32;
        if third == 0 {
            return None;
        }
        if third < 128 {
            return Some((
                first - 128 + 128 * (second - 128) + 16384 * third,
                Reader { at: at + 3 },
            ));
        }
        None
    }
}

// The five numbers that stand in front; or, where one of them is none, those before it, with 0 for it and all behind it, and the end of the bytes.
pub fn five_numbers(bytes: &[u8]) -> Result<Five, Five>
    ensures { five_of result ≡ five_at bytes.now }
{
    let mut values = [0u32; 5];
    let mut reader = Reader { at: 0 };
    for value in values.iter_mut() {
        let Some((number, next)) = reader.number(bytes) else {
            return Err(Five {
                values,
                end: bytes.len(),
            });
        };
        *value = number;
        reader = next;
    }
    Ok(Five {
        values,
        end: reader.at,
    })
}

// Bytes of a number, a group of seven bits to each.
pub fn number_length(number: u32) -> usize
    ensures { result ≡ length (number_bytes number) }
{
    if number < 128 {
        return 1;
    }
    if number < 16384 {
        return 2;
    }
    3
}

// Writes a number in its shortest form.
pub fn put_number(out: &mut [u8], at: usize, number: u32) -> usize
    requires { (number < 2097152) × (at + length (number_bytes number) ≤ length out.old) }
    ensures { Wrote at (number_bytes number) result out.old out.new }
{
    if number < 128 {
        return put_byte(out, at, number as u8);
    }
    let next = put_byte(out, at, (number % 128 + 128) as u8);
    let rest = number / 128;
    if rest < 128 {
        return put_byte(out, next, rest as u8);
    }
    let next = put_byte(out, next, (rest % 128 + 128) as u8);
    put_byte(out, next, (rest / 128) as u8)
}
