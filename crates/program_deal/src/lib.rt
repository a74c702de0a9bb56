// The dealing program as one function: five numbers and the lent parts in, the keys out, which stand at the front of the lent output. The
// output has room for the most bytes by its type, so that Deal's 9 is the program's. It requires nothing. Its meaning is
// specs/Dealing.antt. Assumes nothing.
#![tactic(auto)]

ghost use Rattle.std.specs.Prelude.{◌≡◌, length};
ghost use Rattle.refusal.specs.Refusing.{answer_number};
ghost use Rattle.grid.specs.Code.{board_of};
ghost use Rattle.program_output.specs.Output.{Writes, most_bytes};
ghost use Rattle.program_deal.specs.Dealing.{asked_bytes, asked_refusal, lent_in, Deals, PutDealt, dealing_output, DealsRead, DealingWhole};

use grid::board::Board;
use key_header::numbers::five_numbers;
use key_lengths::key_length;
use nosingginger::deal;
use program_output::{MOST_BYTES, put_refusal};
use refusal::Refusal;

// The bytes that are asked for behind the five numbers: value, arrays, seeds, words.
fn asked_bytes(board: Board) -> usize
    ensures { result ≡ asked_bytes (board_of board) }
{
    board.value_bytes as usize + board.arrays_length() + board.seeds_length() + board.words_length()
}

// 6, 7: what the point and the lengths decide, of the whole input and of what stands behind the numbers.
fn asked_refusal(board: Board, point: u32, whole: usize, rest: usize) -> Result<(), Refusal>
    ensures { answer_number result ≡ asked_refusal (board_of board) point whole rest }
{
    if board.positions <= point {
        return Err(Refusal::Point);
    }
    if MOST_BYTES < whole {
        return Err(Refusal::Lent);
    }
    if rest != asked_bytes(board) {
        return Err(Refusal::Lent);
    }
    Ok(())
}

// Deals from what stands behind the five numbers, as Deal does from its four parts; answers the refusal without its place.
fn deal_parts(board: Board, point: u32, rest: &[u8], keys: &mut [u8]) -> Result<(), Refusal>
    requires { length rest.now ≡ asked_bytes (board_of board) }
    ensures { Deals (board_of board) (lent_in (board_of board) point rest.now) (answer_number result) keys.old keys.new }
{
    let (value, behind) = rest.split_at(board.value_bytes as usize);
    let (arrays, behind) = behind.split_at(board.arrays_length());
    let (seeds, words) = behind.split_at(board.seeds_length());
    deal(
        board.players,
        board.positions,
        board.width,
        board.value_bytes,
        point,
        value,
        arrays,
        seeds,
        words,
        keys,
    )?;
    Ok(())
}

// 10, 1 to 5, 6, 7, 18 to 20, 9: the first that fits, and nothing is written; or the keys are, and their bytes are counted.
fn put_dealt(input: &[u8], output: &mut [u8]) -> Result<usize, Refusal>
    requires { length output.old ≡ most_bytes }
    ensures { PutDealt input.now result output.old output.new }
{
    let read = five_numbers(input).or(Err(Refusal::Number))?;
    let [players, positions, width, value_bytes, point] = read.values;
    let board = Board::new(players, positions, width, value_bytes)?;
    let rest = &input[read.end..];
    asked_refusal(board, point, input.len(), rest.len())?;
    deal_parts(board, point, rest, output)?;
    Ok(board.players as usize * key_length(board))
}

// THE DEALING PROGRAM: 10, 1 to 5, 6, 7, 18 to 20, 9; or the keys.
pub fn dealing_program(input: &[u8], output: &mut [u8; 65536]) -> usize
    ensures { Writes (dealing_output input.now) result output.old output.new }
{
    let out: &mut [u8] = output;
    match put_dealt(input, out) {
        Ok(long) => long,
        Err(refusal) => put_refusal(refusal.number(), out),
    }
}

// The dealing program on a buffer, of which so many bytes were read; 0, with nothing written, where the buffer has not so many.
// It answers 0 and no Option: its clause, `DealsRead`, says so.
// Its buffer has a type's length and a count beside it: the clause weighs that length (`DealingWhole`), and a slice would have none.
// program_join::run is its twin: what they share is one test, and a function of both would take each program as a closure over its buffers.
pub fn run(input: &[u8; 65537], count: usize, output: &mut [u8; 65536]) -> usize
    ensures { DealsRead input.now count result output.old output.new }
{
    let read: &[u8] = input;
    if read.len() < count {
        return 0;
    }
    dealing_program(&read[..count], output)
}

// The theorem that the buffers of `run` rest on, asked for by a contract.
pub fn kept()
    ensures { DealingWhole }
{}
