// The joining program as one function: p keys in, the text of the joined table out, which stands at the front of the lent output. The table
// that it joins in has the most bytes by its type, so that Join keys' 9 is the program's, and the output has room for every text. It requires
// nothing. Its meaning is specs/Joining.antt. Assumes nothing.
#![tactic(auto)]

ghost use Rattle.std.specs.Prelude.{◌≡◌, ◌*◌, ◌≤◌, length, take};
ghost use Rattle.refusal.specs.Refusing.{refusal_number, answer_number};
ghost use Rattle.keys.specs.Keys.{head_in, or_else, head_refusal};
ghost use Rattle.text.specs.Text.{table_text};
ghost use Rattle.call_answers.specs.Answers.{PutSays};
ghost use Rattle.program_output.specs.Output.{most_bytes, text_bytes, Writes};
ghost use Rattle.program_join.specs.Joining.{joining_refusal, joined, Joins, JoinsRead, JoiningWhole};

use key_header::check_header;
use nosingginger::join_keys;
use program_output::{MOST_BYTES, put_refusal};
use refusal::Refusal;

// The number of an input that is longer than any: the first key's own, 10, 1 to 5 and 11, or else 12.
fn long_refusal(input: &[u8]) -> Refusal
    ensures { refusal_number result ≡ or_else (head_refusal (head_in input.now)) 12 }
{
    match check_header(input) {
        Err(refusal) => refusal,
        Ok(_) => Refusal::Length,
    }
}

// Joins the keys of an input into the front of a table, or answers the number that refuses.
fn join_input(input: &[u8], table: &mut [u8]) -> Result<(), Refusal>
    requires { length table.old ≡ most_bytes }
    ensures { PutSays (joining_refusal input.now) (joined input.now) (answer_number result) table.old table.new }
{
    if MOST_BYTES < input.len() {
        return Err(long_refusal(input));
    }
    join_keys(input, table)
}

// Writes the text of the table that an accepted input's keys were joined into.
fn put_joined(input: &[u8], table: &[u8], output: &mut [u8]) -> usize
    requires input_value { joining_refusal input.now ≡ 0 }
    requires table_len { (length table.now ≡ most_bytes) × (text_bytes ≤ length output.old) }
    ensures { Writes (table_text (head_in input.now).board.p (head_in input.now).board.n (head_in input.now).board.w
        (take ((head_in input.now).board.n * (head_in input.now).board.w) table.now)) result output.old output.new }
{
    let Ok(heading) = check_header(input) else {
        unreachable!()
    };
    let board = heading.board;
    let end = board.table_length();
    text::put_table(
        output,
        0,
        board.players,
        board.positions,
        board.value_bytes,
        &table[..end],
    )
}

// THE JOINING PROGRAM: 10, 1 to 5, 11, 12, each key's own in turn, 9; or the joined table's text. The table is lent to join in.
pub fn joining_program(input: &[u8], table: &mut [u8; 65536], output: &mut [u8; 600000]) -> usize
    ensures { Joins input.now result table.old table.new output.old output.new }
{
    let joined: &mut [u8] = table;
    let out: &mut [u8] = output;
    match join_input(input, joined) {
        Err(refusal) => put_refusal(refusal.number(), out),
        Ok(()) => put_joined(input, joined, out),
    }
}

// It answers 0 and no `Option`: its clause, `JoinsRead`, says so. Its buffer has a type's length and a count beside it, as its must-fail edits ask.
// The joining program on a buffer, of which so many bytes were read; 0, with nothing changed, where the buffer has not so many.
pub fn run(
    input: &[u8; 65537],
    count: usize,
    table: &mut [u8; 65536],
    output: &mut [u8; 600000],
) -> usize
    ensures { JoinsRead input.now count result table.old table.new output.old output.new }
{
    let read: &[u8] = input;
    if read.len() < count {
        return 0;
    }
    joining_program(&read[..count], table, output)
}

// The theorem that the buffers of `run` rest on, asked for by a contract.
pub fn kept()
    ensures { JoiningWhole }
{}
