// The two programs' functions on the cases of data/, whose inputs and outputs the second implementation made (make-data.sh). A line of
// the list, data/cases, names a program, the file that it reads, how many bytes it reads, which are zeros behind the file's own, and the file
// that it must write, with one space between them. The function is given all these bytes, above the most too. Each case is compared as this
// program runs, and a line says whether what is written is equal to the file, byte for byte. Assumes nothing.
#![tactic(auto)]

ghost use Rattle.std.specs.Prelude.{◌≤◌, ◌<◌, length, IfOk};

use full_read::{opened, read_full};
use program_output::zeros;
use std::io::Eprint;
use std::rt::Files;
use std::str;

// The most bytes of a case's input.
const LONGEST: usize = 200000;

// The most bytes of a stored output that are read: those of the joining program's output, and one more, so that a longer file is known.
const MOST_STORED: usize = 600001;

// A buffer with a count beside it, here and below: memory is fixed, and nothing is put on a heap.
// Whether a file of data/ has these bytes and no others.
fn stored(rt: &(impl Eprint + Files), bytes: &[u8], path: &str) -> std::io::Result<bool> {
    let mut file = opened(rt, path)?;
    let mut expected = zeros::<MOST_STORED>();
    let length = read_full(&mut file, &mut expected)?;
    Ok(bytes == &expected[..length])
}

// Input and path go as two, here and below: the bytes of one file and the name of another, from two words of a line.
// Whether the dealing program writes the file.
fn deals(rt: &(impl Eprint + Files), input: &[u8], path: &str) -> std::io::Result<bool> {
    let mut output = io::large_buffer();
    let written = program_deal::dealing_program(input, &mut output);
    stored(rt, &output[..written], path)
}

// No twin of `deals`: the joining program is lent a table too, and a function of both would take each as a closure over its buffers.
// Whether the joining program writes the file.
fn joins(rt: &(impl Eprint + Files), input: &[u8], path: &str) -> std::io::Result<bool> {
    let mut table = io::large_buffer();
    let mut output = program_output::text_buffer();
    let written = program_join::joining_program(input, &mut table, &mut output);
    stored(rt, &output[..written], path)
}

// Whether the program of this name writes a file when it reads these bytes.
fn writes(
    rt: &(impl Eprint + Files),
    program: &[u8],
    input: &[u8],
    path: &str,
) -> std::io::Result<bool> {
    match program {
        b"deal" => deals(rt, input, path),
        b"join" => joins(rt, input, path),
        _ => Ok(false),
    }
}

// 0 and no `Option`, and no `parse`: such a case reads nothing, and its file differs; `parse` wants text.
// The length that a word says in decimal; 0 where it is none or is above the longest.
fn length_in(word: &[u8]) -> usize
    ensures { result ≤ 200000 }
{
    let mut value = 0;
    for byte in word {
        if !byte.is_ascii_digit() {
            return 0;
        }
        value = 10 * value + usize::from(*byte - b'0');
        if LONGEST < value {
            return 0;
        }
    }
    value
}

// Whether the program of this name writes the one file when it reads so many bytes, the other file's and then zeros.
fn equal(
    rt: &(impl Eprint + Files),
    program: &[u8],
    input_path: &str,
    count: usize,
    output_path: &str,
) -> std::io::Result<bool>
    requires { count ≤ 200000 }
{
    let mut file = opened(rt, input_path)?;
    let mut input = zeros::<LONGEST>();
    read_full(&mut file, &mut input)?;
    writes(rt, program, &input[..count], output_path)
}

// A name and no `Option`: such a file is not there, and `opened` says so.
// The file's name that a word is; of a word that is no text, a name that no file has.
fn path_in(word: &[u8]) -> &str {
    str::from_utf8(word).unwrap_or("")
}

// What a comparison has found. test_vectors has it too: a crate between the two for one line would be no plainer.
fn found(equal: bool) -> &'static str {
    if equal { "equal" } else { "DIFFERENT" }
}

// Where the word that begins at a place ends: at the next space or line feed, or with the list.
fn word_end(list: &[u8], from: usize) -> usize
    requires { from ≤ length list.now }
    ensures { (from ≤ result) × (result ≤ length list.now) }
{
    let rest = &list[from..];
    match rest.iter().position(|byte| matches!(byte, b' ' | b'\n')) {
        Some(count) => from + count,
        None => list.len(),
    }
}

// Where the word behind this end begins.
fn next_word(list: &[u8], end: usize) -> usize
    requires { end ≤ length list.now }
    ensures { (end ≤ result) × (result ≤ length list.now) }
{
    (end + 1).min(list.len())
}

// Runs the case of the line that begins at a place, and answers where the next one begins.
fn run_line(rt: &(impl Eprint + Files + Print), list: &[u8], at: usize) -> std::io::Result<usize>
    requires { at < length list.now }
    ensures { IfOk result (λ next. at < next) }
{
    let program_end = word_end(list, at);
    let input = next_word(list, program_end);
    let input_end = word_end(list, input);
    let length = next_word(list, input_end);
    let length_end = word_end(list, length);
    let output = next_word(list, length_end);
    let output_end = word_end(list, output);
    rt.write_all(&list[at..length_end])?;
    let same = equal(
        rt,
        &list[at..program_end],
        path_in(&list[input..input_end]),
        length_in(&list[length..length_end]),
        path_in(&list[output..output_end]),
    )?;
    println!(rt; ": {}", found(same))?;
    Ok(output_end + 1)
}

// Runs the cases of the list, a line after another.
fn run(rt: &(impl Eprint + Files + Print), list: &[u8]) -> std::io::Result<()> {
    let mut at: usize = 0;
    while at < list.len() {
        at = run_line(rt, list, at)?;
    }
    Ok(())
}

fn main(rt: HostRuntime) -> std::io::Result<()> {
    let mut file = opened(&rt, "cases")?;
    let mut list = io::large_buffer();
    let length = read_full(&mut file, &mut list)?;
    run(&rt, &list[..length])
}
