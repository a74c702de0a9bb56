// The board on a page: a table as lines of eight cells, which clubs pin up. Everything is written straight into the
// lent output, line behind line. Its meaning is specs/Page.antt. Assumes nothing.
#![tactic(auto)]

ghost use Rattle.std.specs.Prelude.{◌≡◌, ◌∷◌, ◌+◌, ◌*◌, ◌≤◌, ◌<◌, length};
ghost use Rattle.writer.specs.Written.{Wrote};
ghost use Rattle.digits.specs.Digits.{hex, spaces};
ghost use Rattle.page.specs.Page.{value_cells, page_line, page_lines, page, line_long, page_long};
ghost use Rattle.page.specs.Page.{CellsFit, Pageable};

use digits::{put_hex, put_in_five_places};
use writer::put_byte;

// The cells of a line.
const LINE_CELLS: usize = 8;

// The lines of a page.
fn page_lines(positions: usize) -> usize
    requires { positions ≤ 65536 }
    ensures { result ≡ page_lines positions }
{
    positions.div_ceil(LINE_CELLS)
}

// The bytes of a cell: a space, and two digits for each byte of a value.
fn cell_length(value_bytes: usize) -> usize
    requires { value_bytes ≤ 16 }
    ensures { result ≡ 2 * value_bytes + 1 }
{
    2 * value_bytes + 1
}

// The five places of a line's first position, and its line feed.
const PLACES_AND_LINE_FEED: usize = 6;

// Positions and value bytes go as two, here and below: the width goes to `put_cells` by itself, and as a number.
// The bytes of a page: those of a line, for each line.
pub fn page_length(positions: usize, value_bytes: usize) -> usize
    requires { (positions ≤ 65536) × (value_bytes ≤ 16) }
    ensures { result ≡ page_long positions value_bytes }
{
    page_lines(positions) * (PLACES_AND_LINE_FEED + LINE_CELLS * cell_length(value_bytes))
}

// No twin of the writers: one `fill`, and the place behind it.
// Writes so many spaces.
fn put_spaces(out: &mut [u8], at: usize, count: usize) -> usize
    requires { at + count ≤ length out.old }
    ensures { Wrote at (spaces count) result out.old out.new }
{
    let next = at + count;
    out[at..next].fill(b' ');
    next
}

// Writes a cell: a space and the digits of a value.
fn put_cell(out: &mut [u8], at: usize, value: &[u8]) -> usize
    requires { at + 1 + length (hex value.now) ≤ length out.old }
    ensures { Wrote at (32 ∷ hex value.now) result out.old out.new }
{
    let next = put_byte(out, at, b' ');
    put_hex(out, next, value)
}

// By place and not by `chunks_exact`, which asks for a size of 1 at least: `put_page` is promised for values of no bytes too (`Pageable`).
// Writes so many cells, those of the values from position `first` on.
fn put_cells(
    out: &mut [u8],
    at: usize,
    first: usize,
    count: usize,
    value_bytes: usize,
    table: &[u8],
) -> usize
    requires { CellsFit first count value_bytes table.now at out.old }
    ensures { Wrote at (value_cells count first value_bytes table.now) result
        out.old out.new }
{
    let mut next = at;
    let start = first * value_bytes;
    for cell in 0..count {
        let from = start + cell * value_bytes;
        next = put_cell(out, next, &table[from..from + value_bytes]);
    }
    next
}

// Writes so many cells, as put_cells does: values of one byte, which most boards have, go through a copy of its loop in
// which the compiler knows their length.
// Kept beside put_cells for speed: docs/DECISIONS.md, "Values of one byte".
// Table and width stay two, since the width goes to put_cells by itself, and as a number: a struct of both would be taken apart here.
fn put_values(
    out: &mut [u8],
    at: usize,
    first: usize,
    count: usize,
    value_bytes: usize,
    table: &[u8],
) -> usize
    requires { CellsFit first count value_bytes table.now at out.old }
    ensures { Wrote at (value_cells count first value_bytes table.now) result
        out.old out.new }
{
    if value_bytes == 1 {
        return put_cells(out, at, first, count, 1, table);
    }
    put_cells(out, at, first, count, value_bytes, table)
}

// Writes a line.
fn put_line(
    out: &mut [u8],
    at: usize,
    line: usize,
    positions: usize,
    value_bytes: usize,
    table: &[u8],
) -> usize
    requires { Pageable positions value_bytes table.now × (line < page_lines positions)
        × (at + line_long value_bytes ≤ length out.old) }
    ensures { Wrote at (page_line positions value_bytes table.now line) result
        out.old out.new }
{
    let first = LINE_CELLS * line;
    let held = LINE_CELLS.min(positions - first);
    let past = LINE_CELLS - held;
    let next = put_in_five_places(out, at, first as u32);
    let next = put_values(out, next, first, held, value_bytes, table);
    let next = put_spaces(out, next, past * cell_length(value_bytes));
    put_byte(out, next, b'\n')
}

// Writes a page; answers its bytes.
pub fn put_page(out: &mut [u8], positions: usize, value_bytes: usize, table: &[u8]) -> usize
    requires { Pageable positions value_bytes table.now
        × (page_long positions value_bytes ≤ length out.old) }
    ensures { Wrote 0 (page positions value_bytes table.now) result
        out.old out.new }
{
    let mut next = 0;
    for line in 0..page_lines(positions) {
        next = put_line(out, next, line, positions, value_bytes, table);
    }
    next
}
