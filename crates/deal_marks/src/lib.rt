// A player's marks in the columns of a grid row, packed into bytes: the k-th of eight columns is bit k. That a mark is one of a byte's bits is
// known of a `Player` by its type. Assumes nothing.
#![tactic(auto)]

ghost use Rattle.std.specs.Prelude.{◌≡◌, ◌+◌, ◌≤◌, ◌<◌, length, get_or, drop};
ghost use Rattle.grid.specs.Grid.{bit};
ghost use Rattle.keys.specs.Keys.{packed_from, packed};
ghost use Rattle.deal_marks.specs.Marks.{mark_digit, spread_marks};
ghost use Rattle.writer.specs.Written.{Wrote};

use reader::byte;
use writer::put_byte;

// A player, by the bit of a column that is the player's mark.
#[derive(Clone, Copy, Debug, PartialEq, Eq)]
pub struct Player {
    pub bit: u32,
    pub ghost in_byte: { bit < 8 },
}

impl Player {
    // No twin of key_marks::mark: here the byte is at hand, there it is found by the column, or is none.
    // Whether a column has the player's mark.
    pub fn marks(self, column: u8) -> bool
        ensures { result ≡ bit column self.bit }
    {
        (column >> self.bit) % 2 == 1
    }

    // The mark in the column at a place as a digit, and 0 past the array's end.
    fn mark_digit(self, array: &[u8], at: usize) -> u8
        ensures { result ≡ mark_digit (get_or array.now at 0) self.bit }
    {
        u8::from(self.marks(byte(array, at)))
    }

    // Array and place go as two, here and below: a slice cut there is the other form, and the cut would be tested first.
    // The marks in the columns from `from` on, eight at most, as one byte: the k-th of them is bit k.
    fn few_marks(self, array: &[u8], from: usize) -> u8
        requires { from ≤ 1000 }
        ensures { result ≡ packed_from 8 0 self.bit (drop from array.now) }
    {
        let mut byte: u8 = 0;
        for place in (0..8).rev() {
            byte = byte * 2 + self.mark_digit(array, from + place);
        }
        byte
    }

    // The marks in four columns, each in a byte of its own.
    fn spread_marks(self, first: u8, second: u8, third: u8, fourth: u8) -> u32
        ensures { result ≡ spread_marks first second third fourth self.bit }
    {
        let word = u32::from_le_bytes([first, second, third, fourth]);
        (word >> self.bit) & 0x01010101
    }

    // Kept beside `few_marks` for speed: docs/DECISIONS.md, "Deal's small steps".
    // The marks in four columns that are there: the same without asking at each. The product has the k-th of them, which stands in byte k, in
    // bit 24 + k, and nothing else in these four bits.
    pub fn four_marks(self, array: &[u8], from: usize) -> u8
        requires { from + 4 ≤ length array.now }
        ensures { result ≡ packed_from 4 0 self.bit (drop from array.now) }
    {
        let spread = self.spread_marks(
            array[from],
            array[from + 1],
            array[from + 2],
            array[from + 3],
        );
        (spread as u64 * 0x01020408 / 16777216 % 16) as u8
    }

    // The marks in eight columns from `from` on as one byte.
    fn mark_byte(self, array: &[u8], from: usize) -> u8
        requires { from ≤ 1000 }
        ensures { result ≡ packed_from 8 0 self.bit (drop from array.now) }
    {
        if from + 8 <= array.len() {
            return self.four_marks(array, from) + 16 * self.four_marks(array, from + 4);
        }
        if from + 4 == array.len() {
            return self.four_marks(array, from);
        }
        self.few_marks(array, from)
    }

    // Writes the marks in an array, packed into `count` bytes.
    pub fn put_marks(self, out: &mut [u8], at: usize, count: usize, array: &[u8]) -> usize
        requires { (count ≤ 100) × (at + count ≤ length out.old) }
        ensures { Wrote at (packed count self.bit array.now) result out.old out.new }
    {
        let mut next = at;
        for byte in 0..count {
            next = put_byte(out, next, self.mark_byte(array, 8 * byte));
        }
        next
    }
}
