// Tried as a user would: every change of one byte of an accepted key is read by `check_key`. The key is player 0's for document 01's
// printed deal: 2 players, 6 positions, width 4, values of 1 byte. It has 79 bytes: 5 of header, 33 for each of two grid rows (a
// byte of marks at 5 and at 38, and a seed), and two words of 4.
// A line for each byte: its place, and what each value there gives, by runs of values (the byte's own value is no change).
// Then a line for each grid row and column, also those that do not exist: where the held seed stands in the unchanged key, 0 for none.
#![tactic(auto)]

ghost use Rattle.std.specs.Prelude.{◌<◌};

use key_check::check::check_key;
use key_check::held::held_seed_place;
use refusal::Refusal;
use std::io;

// Bytes of the key.
const KEY_BYTES: usize = 79;

// What refuses the key with another byte at a place, or none.
fn refusal_with(mut key: [u8; KEY_BYTES], at: usize, value: u8) -> Option<Refusal>
    requires { at < 79 }
{
    key[at] = value;
    check_key(&key).err()
}

// " LOW-HIGH answer", behind a comma where it is not the line's first.
fn print_run(rt: &impl Print, low: u8, high: u8, refusal: Option<Refusal>) -> io::Result<()> {
    if 0 < low {
        print!(rt; ",")?;
    }
    print!(rt; " {low}")?;
    if low < high {
        print!(rt; "-{high}")?;
    }
    match refusal {
        None => print!(rt; " accepted"),
        Some(refusal) => print!(rt; " refused {}", refusal.number()),
    }
}

fn print_place(rt: &impl Print, key: [u8; KEY_BYTES], at: usize) -> io::Result<()>
    requires { at < 79 }
{
    print!(rt; "{at}:")?;
    let mut low = 0;
    let mut run = refusal_with(key, at, 0);
    for value in 1..=u8::MAX {
        let next = refusal_with(key, at, value);
        if next != run {
            print_run(rt, low, value - 1, run)?;
            low = value;
            run = next;
        }
    }
    print_run(rt, low, u8::MAX, run)?;
    println!(rt;)
}

// The header, the two bytes of marks, and 7 for every byte of the seeds and words.
fn sample() -> [u8; KEY_BYTES] {
    let mut key = [7u8; KEY_BYTES];
    key[0] = 2;
    key[1] = 0;
    key[2] = 6;
    key[3] = 4;
    key[4] = 1;
    key[5] = 2;
    key[38] = 1;
    key
}

// The lines say 0 where no seed is held.
fn main(rt: HostRuntime) -> io::Result<()> {
    let key = sample();
    for at in 0..KEY_BYTES {
        print_place(&rt, key, at)?;
    }
    for grid_row in 0..3 {
        for column in 0..3 {
            let place = held_seed_place(&key, grid_row, column).unwrap_or(0);
            println!(rt; "grid row {grid_row} column {column}: {place}")?;
        }
    }
    Ok(())
}
