// The check of a dealing's arrays: their first fault, a column with a bit at p or above (18), of the wrong parity (19),
// or that stood earlier in its array (20). An array of J columns without a fault holds every column of its parity
// exactly once. Each array is gone over once, and number and place come from that.
#![tactic(auto)]

ghost use Rattle.std.specs.Prelude.{◌≡◌, ◌*◌, ◌<◌, length};
ghost use Rattle.refusal.specs.Refusing.{answer_number};
ghost use Rattle.grid.specs.Grid.{columns, grid_rows, arrays_long};
ghost use Rattle.grid.specs.Code.{board_of, fault_of};
ghost use Rattle.grid.specs.Faults.{wrong_parity, fault_from, arrays_fault};
ghost use Rattle.grid_arrays.specs.Seen.{SeenTells};

use grid::board::Board;
use grid::fault::Fault;
use refusal::Refusal;

// Whether a column has the wrong parity, by its count of ones and without a branch: in an odd array the column's lowest
// bit is turned round first, and then the count must be even too.
fn wrong_parity(odd: bool, column: u8) -> bool
    ensures { result ≡ wrong_parity odd column }
{
    u8::count_ones(column ^ u8::from(odd)) % 2 == 1
}

// What is wrong with a column, by the columns seen before it in its array: 18, 19, 20, the first that fits. A column
// byte can be 255, so 18 is asked before anything is shifted.
fn column_fault(board: Board, odd: bool, seen: u64, column: u8) -> Result<(), Refusal>
    ensures { SeenTells (board_of board) odd seen column (answer_number result) }
{
    let past: u32 = 1 << board.players;
    if past <= column as u32 {
        return Err(Refusal::ColumnBit);
    }
    if wrong_parity(odd, column) {
        return Err(Refusal::ColumnParity);
    }
    let stood = (seen >> column) % 2 == 1;
    if stood {
        return Err(Refusal::ColumnTwice);
    }
    Ok(())
}

// Board and point go as two, here and below: a `Dealing` has both, and is made by what these functions answer.
// The first fault of one grid row's array, in one pass. At each column bit b of `seen` is set exactly when the column of
// value b stood earlier in this array: `ColumnsSeen`, the loop's invariant.
fn array_fault(board: Board, point: u32, arrays: &[u8], grid_row: usize) -> Option<Fault>
    requires { (length arrays.now ≡ arrays_long (board_of board)) × (grid_row < grid_rows (board_of board)) }
    ensures { fault_of result ≡ fault_from (columns (board_of board)) (grid_row * columns (board_of board))
        (board_of board) point arrays.now }
{
    let columns = board.columns();
    let start = grid_row * columns;
    let point_grid_row = (point / board.width) as usize;
    let odd = grid_row == point_grid_row;
    let mut seen: u64 = 0;
    for place in 0..columns {
        let column = arrays[start + place];
        if let Err(refusal) = column_fault(board, odd, seen, column) {
            return Some(Fault {
                refusal,
                grid_row: grid_row as u32,
                column: place as u32,
            });
        }
        seen = seen | (1 << column);
    }
    None
}

// THE FIRST FAULT of the arrays of all grid rows.
pub fn first_fault(board: Board, point: u32, arrays: &[u8]) -> Option<Fault>
    requires { length arrays.now ≡ arrays_long (board_of board) }
    ensures { fault_of result ≡ arrays_fault (board_of board) point arrays.now }
{
    for grid_row in 0..board.grid_rows() {
        if let Some(fault) = array_fault(board, point, arrays, grid_row) {
            return Some(fault);
        }
    }
    None
}
