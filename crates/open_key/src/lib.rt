// Opening an accepted key, the work of Open one, Open all, Join keys and Draw card behind their refusals: one square's
// share from the part of the key that begins at its grid row, the entries of one grid row, and the full table grid row
// by grid row, written or XORed into what is there (field: full-domain evaluation of a key, and evaluation at one
// point). All are stretches of a grid row's shares, which crate open_grid_row works out. Whoever calls has the key's
// body, which is an accepted one's, and has checked the room for the output. Assumes nothing.
#![tactic(auto)]

ghost use Rattle.std.specs.Prelude.{◌≡◌, ◌*◌, ◌≤◌, ◌<◌, length};
ghost use Rattle.xor.specs.Xor.{xors};
ghost use Rattle.writer.specs.Written.{in_front};
ghost use Rattle.seed_rows.specs.Rows.{rule};
ghost use Rattle.grid.specs.Grid.{grid_rows};
ghost use Rattle.grid.specs.Code.{board_of};
ghost use Rattle.open_key.specs.Opened.{square_of, table_of, entries_long, entries_of};

use key_check::body::Body;
use open_grid_row::add_shares;

// Fills `out`, which has a cell's length, with a square's share, worked out of the part of the key that begins at the
// square's grid row. Of each row only the square's cell is expanded.
fn fill_square(body: &Body<'_>, position: u32, out: &mut [u8])
    requires { (position < body.now.board.positions) × (length out.old ≡ body.now.board.value_bytes) }
    ensures { out.new ≡ square_of (board_of body.now.board) (rule (board_of body.now.board)) body.now.bytes.now position }
{
    let board = body.board;
    let grid_row = (position / board.width) as usize;
    let from = (position % board.width * board.value_bytes) as usize;
    out.fill(0);
    add_shares(body.grid_row_part(grid_row), board, grid_row, from, out);
}

// Body and output go as two, here and below: a struct of both would hold the lent `&mut` (writer).
// Writes a square's share.
pub fn open_square(body: &Body<'_>, position: u32, out: &mut [u8])
    requires { (position < body.now.board.positions) × (body.now.board.value_bytes ≤ length out.old) }
    ensures { out.new ≡ in_front
        (square_of (board_of body.now.board) (rule (board_of body.now.board)) body.now.bytes.now position) out.old }
{
    let count = body.board.value_bytes as usize;
    fill_square(body, position, &mut out[..count]);
}

// `grid_row < grid_rows` stays a clause, here, below (open_grid_row) and above (draw_call): the rows are gone through by a `for`, which gives it.
// XORs into `out` the entries of one grid row: as many bytes as the table has of it. Rows and words have all cells of a
// short last grid row, the table those below N. Each held seed is expanded once, and only so far.
pub fn add_entries(body: &Body<'_>, grid_row: usize, out: &mut [u8])
    requires { (grid_row < grid_rows (board_of body.now.board))
        × (length out.old ≡ entries_long (board_of body.now.board) grid_row) }
    ensures { out.new ≡ xors out.old
        (entries_of (board_of body.now.board) (rule (board_of body.now.board)) body.now.bytes.now grid_row) }
{
    add_shares(body.grid_row_part(grid_row), body.board, grid_row, 0, out);
}

// XORs the full table into `out`, which has its length, grid row by grid row.
pub fn add_table(body: &Body<'_>, out: &mut [u8])
    requires { length out.old ≡ body.now.board.positions * body.now.board.value_bytes }
    ensures { out.new ≡ xors out.old (table_of (board_of body.now.board) (rule (board_of body.now.board)) body.now.bytes.now) }
{
    let grid_rows = body.board.grid_rows();
    let row_bytes = body.board.row_length();
    for grid_row in 0..grid_rows {
        let at = grid_row * row_bytes;
        let end = at + row_bytes.min(out.len() - at);
        add_entries(body, grid_row, &mut out[at..end]);
    }
}

// Fills `out` with the full table.
fn fill_table(body: &Body<'_>, out: &mut [u8])
    requires { length out.old ≡ body.now.board.positions * body.now.board.value_bytes }
    ensures { out.new ≡ table_of (board_of body.now.board) (rule (board_of body.now.board)) body.now.bytes.now }
{
    out.fill(0);
    add_table(body, out);
}

// No twin of open_square: each cuts the output to a length of its own and fills it by a function of its own.
// Writes the full table.
pub fn open_table(body: &Body<'_>, out: &mut [u8])
    requires { body.now.board.positions * body.now.board.value_bytes ≤ length out.old }
    ensures { out.new ≡ in_front (table_of (board_of body.now.board) (rule (board_of body.now.board)) body.now.bytes.now) out.old }
{
    let count = body.board.table_length();
    fill_table(body, &mut out[..count]);
}
