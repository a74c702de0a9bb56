// Digits as bytes: numbers in decimal, unpadded or right-aligned, and bytes in hexadecimal. Each writer writes at a
// place, answers the place behind what it wrote, and leaves every other byte as it was (`Wrote` of the crate writer).
// Their meaning is specs/Digits.antt. Assumes nothing.
#![tactic(auto)]

ghost use Rattle.std.specs.Prelude.{◌≡◌, cond, ◌+◌, ◌%◌, ◌≤◌, eqb, length};
ghost use Rattle.writer.specs.Written.{Wrote};
ghost use Rattle.digits.specs.Digits.{decimal, right_aligned, hex};

use writer::put_byte;

// By hand, here and below: the library writes digits by `fmt` into a `Write`, and no clause says which; these go to a place of a slice, and their clauses do.
// Writes a number in decimal, unpadded.
pub fn put_decimal(out: &mut [u8], at: usize, number: u32) -> usize
    requires { at + length (decimal number) ≤ length out.old }
    ensures { Wrote at (decimal number) result out.old out.new }
{
    if number < 10 {
        return put_byte(out, at, (48 + number) as u8);
    }
    let next = put_decimal(out, at, number / 10);
    put_byte(out, next, (48 + number % 10) as u8)
}

// What stands in a place, by what the number is from that place up: its last digit, or a space where nothing is left.
fn digit_or_space(number: u32) -> u8
    ensures { result ≡ cond (eqb number 0) 32 (48 + number % 10) }
{
    if number == 0 {
        return b' ';
    }
    (48 + number % 10) as u8
}

// Four calls and no `for` over four powers of ten: the last place has a digit of 0 too, so that it stands by itself in either form.
// Writes a number in five places, right-aligned.
pub fn put_in_five_places(out: &mut [u8], at: usize, number: u32) -> usize
    requires { (length (decimal number) ≤ 5) × (at + 5 ≤ length out.old) }
    ensures { Wrote at (right_aligned 5 number) result out.old out.new }
{
    let next = put_byte(out, at, digit_or_space(number / 10000));
    let next = put_byte(out, next, digit_or_space(number / 1000));
    let next = put_byte(out, next, digit_or_space(number / 100));
    let next = put_byte(out, next, digit_or_space(number / 10));
    put_byte(out, next, (48 + number % 10) as u8)
}

// Writes bytes in hexadecimal, two digits each.
pub fn put_hex(out: &mut [u8], at: usize, bytes: &[u8]) -> usize
    requires { at + length (hex bytes.now) ≤ length out.old }
    ensures { Wrote at (hex bytes.now) result out.old out.new }
{
    let digits = b"0123456789ABCDEF";
    let mut next = at;
    for byte in bytes {
        next = put_byte(out, next, digits[*byte as usize / 16]);
        next = put_byte(out, next, digits[*byte as usize % 16]);
    }
    next
}
