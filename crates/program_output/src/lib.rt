// What the two programs share: the most bytes, buffers for what they read and write, and the line of a refusal. What an output says is
// specs/Output.antt. Assumes nothing.
#![tactic(auto)]

ghost use Rattle.std.specs.Prelude.{◌≡◌, ◌≤◌, length};
ghost use Rattle.text.specs.Text.{refused_line};
ghost use Rattle.program_output.specs.Output.{line_bytes, read_bytes, text_bytes, Writes};

// The most bytes of an input, of all keys dealt, and of a joined table.
pub const MOST_BYTES: usize = 65536;

// So many zeros. The `ensures` gives only the length, as in `io::buffer`: in a body that makes an array of 600,000 bytes and lends it, antt's stack
// does not last.
pub fn zeros<const N: usize>() -> [u8; N]
    ensures { N ≡ length result }
{
    [0; N]
}

// As many zeros as a program reads.
pub fn input_buffer() -> [u8; 65537]
    ensures { read_bytes ≡ length result }
{
    zeros()
}

// As many zeros as the longest text takes, and some more.
pub fn text_buffer() -> [u8; 600000]
    ensures { text_bytes ≡ length result }
{
    zeros()
}

// By its number and not as a `Refusal`: the clause speaks of every number.
// Writes the line of a refusal.
pub fn put_refusal(refusal: u32, output: &mut [u8]) -> usize
    requires { line_bytes ≤ length output.old }
    ensures { Writes (refused_line refusal) result output.old output.new }
{
    text::put_refused_line(output, 0, refusal)
}
