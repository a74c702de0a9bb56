// The joining program: p keys from standard input, the joined table's text or `refused n` to standard output. It reads one byte more than
// the most, so that an input above that is known. The work is `program_join::run`, whose types are those of the buffers. Where a read or a
// write fails, it ends with that error. Assumes nothing.
#![tactic(auto)]

use full_read::read_full;

// Input and output are buffers with a count beside them: memory is fixed, and nothing is put on a heap. The dealer's has no table.
fn main(rt: HostRuntime) -> std::io::Result<()> {
    let mut input = program_output::input_buffer();
    let count = read_full(&mut rt.reader(), &mut input)?;
    let mut table = io::large_buffer();
    let mut output = program_output::text_buffer();
    let written = program_join::run(&input, count, &mut table, &mut output);
    rt.write_all(&output[..written])
}
