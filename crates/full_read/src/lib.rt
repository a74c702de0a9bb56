// Opening a file by a name that is said where there is none, and reading into a buffer until it is full: one read may
// give fewer bytes than there are. Assumes nothing.
#![tactic(auto)]

ghost use Rattle.std.specs.Prelude.{◌≤◌, length, IfOk};

use std::io::{Eprint, Read};
use std::rt::Files;
use std::{fs, io};

// Opens a file to read. Where that fails, standard error has its name.
pub fn opened<R: Eprint + Files>(rt: &R, path: &str) -> io::Result<R::File> {
    fs::open(rt, path).or_else(|error| {
        eprintln!(rt; "{path}: cannot be opened")?;
        Err(error)
    })
}

// Reads until the buffer is full or the reader ends, and answers how many bytes stand at the buffer's front.
// No method of `Read` does it without a heap: `read_exact` fails on a shorter input, and `read_to_end` wants a `Vec`.
pub fn read_full<R: Read>(reader: &mut R, buffer: &mut [u8]) -> io::Result<usize>
    ensures { IfOk result (λ count. count ≤ length buffer.new) }
{
    let mut done: usize = 0;
    while done < buffer.len() {
        let count = reader.read(&mut buffer[done..])?;
        if count == 0 {
            break;
        }
        done += count;
    }
    Ok(done)
}
