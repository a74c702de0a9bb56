// The proved library beside the second implementation: every case of data/cases.bin is a call with the answer that the second implementation
// gave, in the format of reference/FORMAT.md. Each call is made again here, and numbers, output bytes and every other lent byte are compared.
// A line for each operation says how many cases it has, how many of them are refusals, and how many are equal; a line `DIFFERENT case n`,
// counted from 0, stands before it for each that is not. The checksum holds those bytes, such as a seed in a key that is only checked, on
// which no answer depends. `reference/make-data` makes the file again. Assumes nothing.
#![tactic(auto)]

mod calls;
mod cases;
mod operations;

use cases::Tally;
use full_read::{opened, read_full};
use operations::LINES;
use program_output::zeros;

// The bytes of the file and of the longest output of a case, and some more.
const MOST_FILE: usize = 2600000;

const MOST_OUTPUT: usize = 70000;

// The line says 0 where the file is none.
// The file's own line: its length, its checksum (Adler-32 of RFC 1950), and how many cases it says it has.
fn file_line(rt: &impl Print, file: &[u8]) -> std::io::Result<()> {
    let bytes = file.len();
    let checksum = test_case_file::checksum(file);
    let cases = test_case_file::count(file).unwrap_or(0);
    println!(rt; "{bytes} bytes, checksum {checksum:08x}, {cases} cases")
}

// A line for each operation, behind those of its cases that differ.
fn lines(rt: &impl Print, file: &[u8]) -> std::io::Result<()> {
    let mut output = zeros::<MOST_OUTPUT>();
    for operation in LINES {
        let Tally {
            cases,
            refused,
            equal,
        } = cases::compare(rt, file, operation, &mut output)?;
        println!(rt; "{operation}: {cases} cases, {refused} refused, {equal} equal")?;
    }
    Ok(())
}

// A buffer with a count beside it: memory is fixed, and nothing is put on a heap.
fn main(rt: HostRuntime) -> std::io::Result<()> {
    let mut cases = opened(&rt, "cases.bin")?;
    let mut file = zeros::<MOST_FILE>();
    let length = read_full(&mut cases, &mut file)?;
    file_line(&rt, &file[..length])?;
    lines(&rt, &file[..length])
}
