// The calls, one function for each operation: the numbers are read from a case's head, the inputs are parts of its inputs, and `lent` is the
// lent output. Assumes nothing.
ghost use Rattle.std.specs.Prelude.{◌≡◌, true};
ghost use Rattle.test_answers.specs.Answers.{Left};

use crate::operations::Operation;
use key_header::Header;
use test_answers::{Answered, left, same_numbers};
use test_case_file::{Case, cut, front};

fn key_length(case: Case) -> Answered {
    let [players, positions, width, value_bytes, _] = case.head.numbers;
    nosingginger::key_length(players, positions, width, value_bytes).into()
}

// Case and output go as two, here and below: the output is one buffer for all cases.
fn deal(case: Case, lent: &mut [u8]) -> Answered {
    let [players, positions, width, value_bytes, point] = case.head.numbers;
    let [value_length, arrays_length, seeds_length, words_length] = case.head.inputs;
    let (value, rest) = cut(case.inputs, value_length as usize);
    let (arrays, rest) = cut(rest, arrays_length as usize);
    let (seeds, rest) = cut(rest, seeds_length as usize);
    let words = front(rest, words_length as usize);
    nosingginger::deal(
        players,
        positions,
        width,
        value_bytes,
        point,
        value,
        arrays,
        seeds,
        words,
        lent,
    )
    .into()
}

fn check_key(case: Case) -> Answered {
    nosingginger::check_key(case.inputs)
        .map(|read| Header::of(read.board, read.player).numbers())
        .into()
}

fn open_one(case: Case, lent: &mut [u8]) -> Answered {
    nosingginger::open_one(case.inputs, case.head.numbers[0], lent).into()
}

fn open_all(case: Case, lent: &mut [u8]) -> Answered {
    nosingginger::open_all(case.inputs, lent).into()
}

fn draw_card(case: Case, lent: &mut [u8]) -> Answered {
    let [key_length, deck_length, _, _] = case.head.inputs;
    let (key, rest) = cut(case.inputs, key_length as usize);
    let deck = front(rest, deck_length as usize);
    nosingginger::draw_card(key, deck, case.head.numbers[0], lent).into()
}

fn write_page(case: Case, lent: &mut [u8]) -> Answered {
    let [positions, value_bytes, _, _, _] = case.head.numbers;
    nosingginger::write_page(positions, value_bytes, case.inputs, lent).into()
}

fn join_shares(case: Case, lent: &mut [u8]) -> Answered {
    let [players, value_bytes, _, _, _] = case.head.numbers;
    nosingginger::join_shares(players, value_bytes, case.inputs, lent).into()
}

fn join_keys(case: Case, lent: &mut [u8]) -> Answered {
    nosingginger::join_keys(case.inputs, lent).into()
}

// Two numbers of the file, which has none of 64 bits.
// A start has 64 bits: its lower half, then its upper half.
fn expand(case: Case, lent: &mut [u8]) -> Answered {
    let [low, high, _, _, _] = case.head.numbers;
    let start = 4294967296 * high as usize + low as usize;
    nosingginger::expand_seed(case.inputs, start, lent).into()
}

fn choose_width(case: Case) -> Answered {
    let [players, positions, value_bytes, _, _] = case.head.numbers;
    nosingginger::choose_width(players, positions, value_bytes).into()
}

fn sensor_position(case: Case) -> Answered {
    nosingginger::sensor_position(case.head.numbers[0]).into()
}

// The call on a lent output that is full of the fill.
fn on_lent<F: FnOnce(&mut [u8]) -> Answered>(case: Case, lent: &mut [u8], call: F) -> bool
    requires { F.IsAlwaysCallable call }
    ensures { result ≡ true → Left case.entry.answer.now case.entry.head.fill lent.new }
{
    let filler = case.head.fill;
    lent.fill(filler);
    let got = call(lent);
    same_numbers(&case.head, got) && left(lent, case.answer, filler)
}

// The call on as much of the output as the case lends.
fn on_output<F: FnOnce(&mut [u8]) -> Answered>(case: Case, output: &mut [u8], call: F) -> bool
    requires { F.IsAlwaysCallable call }
{
    let lent = case.head.lent as usize;
    lent <= output.len() && on_lent(case, &mut output[..lent], call)
}

// The file has 0 where no seed is held.
// Held seed answers a part of the key and not an output: where it begins, and its bytes.
fn held_seed(case: Case) -> bool {
    let [grid_row, column, _, _, _] = case.head.numbers;
    let place = key_check::held::held_seed_place(case.inputs, grid_row, column);
    place.unwrap_or(0) == case.head.results[0] as usize
        && nosingginger::held_seed(case.inputs, grid_row, column) == case.answer
}

// The dealing program answers bytes alone, in an output of its own.
fn dealing_program(case: Case) -> bool {
    let mut output = io::large_buffer();
    let written = program_deal::dealing_program(case.inputs, &mut output);
    &output[..written] == case.answer
}

// No twin of dealing_program: of six lines two are the same.
// The joining program too; it is lent a table beside its output.
fn joining_program(case: Case) -> bool {
    let mut table = io::large_buffer();
    let mut output = program_output::text_buffer();
    let written = program_join::joining_program(case.inputs, &mut table, &mut output);
    &output[..written] == case.answer
}

// An arm for each operation: the calls differ in what they take, and a table would be of closures handed out.
// Whether a case's call answers and leaves what the case says. `output` is scratch, where most calls have what they are lent.
pub fn equal(operation: Operation, case: Case, output: &mut [u8]) -> bool {
    match operation {
        Operation::KeyLength => on_output(case, output, |_| key_length(case)),
        Operation::Deal => on_output(case, output, |lent| deal(case, lent)),
        Operation::CheckKey => on_output(case, output, |_| check_key(case)),
        Operation::OpenOne => on_output(case, output, |lent| open_one(case, lent)),
        Operation::OpenAll => on_output(case, output, |lent| open_all(case, lent)),
        Operation::JoinShares => on_output(case, output, |lent| join_shares(case, lent)),
        Operation::JoinKeys => on_output(case, output, |lent| join_keys(case, lent)),
        Operation::HeldSeed => held_seed(case),
        Operation::Expand => on_output(case, output, |lent| expand(case, lent)),
        Operation::ChooseWidth => on_output(case, output, |_| choose_width(case)),
        Operation::SensorPosition => on_output(case, output, |_| sensor_position(case)),
        Operation::DealingProgram => dealing_program(case),
        Operation::JoiningProgram => joining_program(case),
        Operation::DrawCard => on_output(case, output, |lent| draw_card(case, lent)),
        Operation::WritePage => on_output(case, output, |lent| write_page(case, lent)),
    }
}
