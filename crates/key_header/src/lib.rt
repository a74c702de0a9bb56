// The header of a key, p, player, N, μ, w: read, checked, measured and written here and nowhere else. Assumes nothing.
#![tactic(auto)]

ghost use Rattle.std.specs.Prelude.{◌≡◌, ◌+◌, ◌≤◌, ◌<◌, length};
ghost use Rattle.grid.specs.Grid.{board_refusal};
ghost use Rattle.keys.specs.Keys.{head_in, head_refusal};
ghost use Rattle.writer.specs.Written.{Wrote};
ghost use Rattle.key_header.specs.Answers.{header_board, header_written, checked_by, check_of};

use refusal::Refusal;

pub mod header;
pub mod numbers;

pub use header::{Header, Heading};
use numbers::{five_numbers, number_length, put_number};

// 10, 1 to 5, 11: the first that fits, or the header. All five numbers are read before anything is asked of them.
pub fn check_header(key: &[u8]) -> Result<Heading, Refusal>
    ensures { check_of result ≡ checked_by (head_refusal (head_in key.now)) key.now }
{
    let read = five_numbers(key).or(Err(Refusal::Number))?;
    let [players, player, positions, width, value_bytes] = read.values;
    let header = Header {
        players,
        player,
        positions,
        width,
        value_bytes,
    };
    let board = header.board()?;
    Ok(Heading {
        board,
        player,
        end: read.end,
    })
}

// Bytes of a header.
pub fn header_length(header: Header) -> usize
    ensures { result ≡ length (header_written «header») }
{
    let mut long: usize = 0;
    for number in header.numbers() {
        long += number_length(number);
    }
    long
}

// No twin of header_length: they share the five numbers, which stand once, and a `for` over them.
// Writes a header.
pub fn put_header(out: &mut [u8], at: usize, header: Header) -> usize
    requires { (board_refusal (header_board «header») ≡ 0) × («header».player < 128) × (at + length (header_written «header») ≤ length out.old) }
    ensures { Wrote at (header_written «header») result out.old out.new }
{
    let mut next = at;
    for number in header.numbers() {
        next = put_number(out, next, number);
    }
    next
}
