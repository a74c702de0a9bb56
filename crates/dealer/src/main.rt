// The dealing program: five numbers, value, arrays, seeds and words from standard input, the keys or `refused n` to standard output. It
// reads one byte more than the most, so that an input above that is known. The work is `program_deal::run`, whose types are those of the
// buffers. Where a read or a write fails, it ends with that error. Assumes nothing.
#![tactic(auto)]

use full_read::read_full;

// Input and output are buffers with a count beside them: memory is fixed, and nothing is put on a heap. The joiner's has a table too.
fn main(rt: HostRuntime) -> std::io::Result<()> {
    let mut input = program_output::input_buffer();
    let count = read_full(&mut rt.reader(), &mut input)?;
    let mut output = io::large_buffer();
    let written = program_deal::run(&input, count, &mut output);
    rt.write_all(&output[..written])
}
