// What a call answered and left behind, beside what the file of cases says. Its meaning is specs/Answers.antt. Assumes nothing.
#![tactic(auto)]

ghost use Rattle.std.specs.Prelude.{◌≡◌, true, length, replicate};
ghost use Rattle.test_answers.specs.Answers.{SameNumbers, Left};

use dealing::DealRefusal;
use refusal::{Refusal, answer_number};
use test_case_file::Head;

// A number and no `Result`: it is held against the file's, which has a byte for it.
// The number of a refusal, or 0, and the numbers that an operation answers beside it; those that it has not are 0.
#[derive(Clone, Copy, PartialEq, Eq)]
pub struct Answered {
    pub refusal: u32,
    pub numbers: [u32; 5],
}

// The number of an answer, and five numbers where it has them.
impl From<Result<[u32; 5], Refusal>> for Answered {
    fn from(got: Result<[u32; 5], Refusal>) -> Answered {
        Answered {
            refusal: answer_number(got),
            numbers: got.unwrap_or([0; 5]),
        }
    }
}

// A number and one value.
impl From<Result<u32, Refusal>> for Answered {
    fn from(got: Result<u32, Refusal>) -> Answered {
        got.map(|value| [value, 0, 0, 0, 0]).into()
    }
}

// A number alone.
impl From<Result<(), Refusal>> for Answered {
    fn from(got: Result<(), Refusal>) -> Answered {
        got.map(|()| [0; 5]).into()
    }
}

// Deal's number and place: 1, grid row and column where it has one.
impl From<Result<(), DealRefusal>> for Answered {
    fn from(got: Result<(), DealRefusal>) -> Answered {
        match got {
            Err(DealRefusal::Fault(fault)) => Answered {
                refusal: fault.refusal.number(),
                numbers: [1, fault.grid_row, fault.column, 0, 0],
            },
            _ => got.map_err(Refusal::from).into(),
        }
    }
}

// Whether a case has these numbers.
pub fn same_numbers(head: &Head, got: Answered) -> bool
    ensures { result ≡ true → SameNumbers head.now got }
{
    got == Answered {
        refusal: u32::from(head.refusal),
        numbers: head.results,
    }
}

// Whether every byte is the fill.
fn filled(bytes: &[u8], filler: u8) -> bool
    ensures { result ≡ true → bytes.now ≡ replicate (length bytes.now) filler }
{
    bytes.iter().all(|byte| *byte == filler)
}

// Whether a lent output is the answer's bytes, and behind them the fill that was there.
pub fn left(lent: &[u8], answer: &[u8], filler: u8) -> bool
    ensures { result ≡ true → Left answer.now filler lent.now }
{
    match lent.strip_prefix(answer) {
        Some(rest) => filled(rest, filler),
        None => false,
    }
}
