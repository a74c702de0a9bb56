// The last correction word: the XOR of the piece, of the lent words, and of all rows of the point's grid row, so that all words and rows
// there XOR to the piece. Assumes nothing.
#![tactic(auto)]

ghost use Rattle.std.specs.Prelude.{◌≡◌, ◌++◌, ◌+◌, ◌-◌, ◌/◌, ◌≤◌, ◌<◌, length};
ghost use Rattle.xor.specs.Xor.{zeros};
ghost use Rattle.grid.specs.Grid.{row_long, xor_all, seeds_long, words_long};
ghost use Rattle.grid.specs.Code.{board_of};
ghost use Rattle.keys.specs.Keys.{words_from};
ghost use Rattle.writer.specs.Written.{Wrote};
ghost use Rattle.deal_last_word.specs.LastWord.{dealt_word};
ghost use Rattle.seed_rows.specs.Rows.{rule};

use grid::board::{Board, SEED_BYTES};
use seed_rows::xor_rows;

// Writes the value from place `from` on, and zeros everywhere else.
fn put_piece(out: &mut [u8], from: usize, value: &[u8])
    requires { from + length value.now ≤ length out.old }
    ensures { out.new ≡ zeros from ++ value.now ++ zeros (length out.old - (from + length value.now)) }
{
    writer::clear(out);
    writer::put(out, from, value);
}

// XORs the words that stand one after another into `out`, which is as long as each of them.
fn xor_words(out: &mut [u8], words: &[u8])
    requires { 0 < length out.old }
    ensures { out.new ≡ xor_all (words_from (length words.now / length out.old) (length out.old) words.now) out.old }
{
    for word in words.chunks_exact(out.len()) {
        xor::xor_into(out, word);
    }
}

// The parts one by one, here and below, and no `Dealing`: of the arrays nothing goes into the last word, so that it is lent none (docs/DECISIONS.md).
// Fills `out` with the last word.
fn last_word(out: &mut [u8], board: Board, point: u32, value: &[u8], seeds: &[u8], words: &[u8])
    requires { (point < board.positions) × (length value.now ≡ board.value_bytes) × (length seeds.now ≡ seeds_long (board_of board))
        × (length words.now ≡ words_long (board_of board)) × (length out.old ≡ row_long (board_of board)) }
    ensures { out.new ≡ dealt_word (board_of board) (rule (board_of board)) point value.now seeds.now words.now }
{
    let columns = board.columns();
    let cell = (point % board.width * board.value_bytes) as usize;
    put_piece(out, cell, value);
    xor_words(out, words);
    let from = SEED_BYTES * ((point / board.width) as usize * columns);
    let end = from + SEED_BYTES * columns;
    xor_rows(&seeds[from..end], 0, out);
}

// Writes the last word from place `at` on.
pub fn put_last_word(
    out: &mut [u8],
    at: usize,
    board: Board,
    point: u32,
    value: &[u8],
    seeds: &[u8],
    words: &[u8],
) -> usize
    requires { (point < board.positions) × (length value.now ≡ board.value_bytes) × (length seeds.now ≡ seeds_long (board_of board))
        × (length words.now ≡ words_long (board_of board)) × (at + row_long (board_of board) ≤ length out.old) }
    ensures { Wrote at (dealt_word (board_of board) (rule (board_of board)) point value.now seeds.now words.now) result out.old out.new }
{
    let end = at + board.row_length();
    last_word(&mut out[at..end], board, point, value, seeds, words);
    end
}
