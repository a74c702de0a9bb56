// Text as bytes: the line of a refusal and the lines of a joined table. Each writer writes at a place, answers the place behind what it
// wrote, and leaves every other byte as it was (`Wrote` of the crate writer). Their meaning is specs/Text.antt. Assumes nothing.
#![tactic(auto)]

ghost use Rattle.std.specs.Prelude.{◌≡◌, ◌+◌, ◌*◌, ◌≤◌, length};
ghost use Rattle.writer.specs.Written.{Wrote};
ghost use Rattle.text.specs.Text.{named, refused_line, board_line, position_line, position_lines, table_text};

use digits::{put_decimal, put_hex};
use writer::{put, put_byte};

// Writes a word with its number behind it.
fn put_named(out: &mut [u8], at: usize, word: &[u8], number: u32) -> usize
    requires { at + length (named word.now number) ≤ length out.old }
    ensures { Wrote at (named word.now number) result out.old out.new }
{
    let next = put(out, at, word);
    put_decimal(out, next, number)
}

// By its number, which is what the line says: this crate lays out digits and knows no refusals.
// Writes the line of a refusal.
pub fn put_refused_line(out: &mut [u8], at: usize, refusal: u32) -> usize
    requires { at + length (refused_line refusal) ≤ length out.old }
    ensures { Wrote at (refused_line refusal) result out.old out.new }
{
    let next = put_named(out, at, b"refused ", refusal);
    put_byte(out, next, b'\n')
}

// Writes the first line of a joined table: its board.
fn put_board_line(
    out: &mut [u8],
    at: usize,
    players: u32,
    positions: u32,
    value_bytes: u32,
) -> usize
    requires { at + length (board_line players positions value_bytes) ≤ length out.old }
    ensures { Wrote at (board_line players positions value_bytes) result out.old out.new }
{
    let next = put_named(out, at, b"players ", players);
    let next = put_named(out, next, b" squares ", positions);
    let next = put_named(out, next, b" width ", value_bytes);
    put_byte(out, next, b'\n')
}

// Writes the line of a position: its number and its value.
fn put_position_line(out: &mut [u8], at: usize, position: u32, value: &[u8]) -> usize
    requires { at + length (position_line position value.now) ≤ length out.old }
    ensures { Wrote at (position_line position value.now) result out.old out.new }
{
    let next = put_decimal(out, at, position);
    let next = put_byte(out, next, b' ');
    let next = put_hex(out, next, value);
    put_byte(out, next, b'\n')
}

// `positions` beside the table: a line says its position, and the first line says how many there are.
// Writes the lines of all positions from 0 up.
fn put_position_lines(
    out: &mut [u8],
    at: usize,
    positions: u32,
    value_bytes: usize,
    table: &[u8],
) -> usize
    requires { (length table.now ≡ positions * value_bytes) × (at + length (position_lines positions 0 value_bytes table.now) ≤ length out.old) }
    ensures { Wrote at (position_lines positions 0 value_bytes table.now) result out.old out.new }
{
    let mut next = at;
    for position in 0..positions {
        let from = position as usize * value_bytes;
        next = put_position_line(out, next, position, &table[from..from + value_bytes]);
    }
    next
}

// Writes a joined table.
pub fn put_table(
    out: &mut [u8],
    at: usize,
    players: u32,
    positions: u32,
    value_bytes: u32,
    table: &[u8],
) -> usize
    requires { (length table.now ≡ positions * value_bytes) × (at + length (table_text players positions value_bytes table.now) ≤ length out.old) }
    ensures { Wrote at (table_text players positions value_bytes table.now) result out.old out.new }
{
    let next = put_board_line(out, at, players, positions, value_bytes);
    put_position_lines(out, next, positions, value_bytes as usize, table)
}
