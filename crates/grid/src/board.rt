// A board's four numbers. Which are refused, by the numbers 1 to 5; and how many columns an array of a board has, how many grid rows it has,
// how many bytes a row has, and how long what Deal is lent is. Any four numbers may come in: what is computed from a number comes after the
// test of its range, so nothing overflows and nothing is divided by zero. That no refusal fits is known of a board by its type.
ghost use Rattle.std.specs.Prelude.{◌≡◌, ◌&&◌, ◌+◌, ◌*◌, ◌-◌, ◌/◌, ◌^◌, ◌≤◌, leb, IfOk};
ghost use Rattle.refusal.specs.Refusing.{answer_number};
ghost use Rattle.grid.specs.Grid.{players_fit, positions_fit, width_fits, value_fits};
ghost use Rattle.grid.specs.Grid.{board, board_refusal, columns, grid_rows, row_long, arrays_long, seeds_long, words_long};

use refusal::Refusal;

const LEAST_PLAYERS: u32 = 2;

const MOST_PLAYERS: u32 = 6;

const MOST_POSITIONS: u32 = 65536;

pub const MOST_WIDTH: u32 = 256;

const MOST_VALUE_BYTES: u32 = 16;

pub const MOST_GRID_ROWS: u32 = 256;

// p, N, μ and w: players, positions, cells of a grid row, bytes of a value, that no refusal fits.
#[derive(Clone, Copy, Debug, PartialEq, Eq)]
pub struct Board {
    pub players: u32,
    pub positions: u32,
    pub width: u32,
    pub value_bytes: u32,
    ghost accepted: { board_refusal (board players positions width value_bytes) ≡ 0 },
}

// Bytes of a seed.
pub const SEED_BYTES: usize = 32;

// Whether a number lies in its range.
pub fn within(low: u32, number: u32, high: u32) -> bool
    ensures { result ≡ (leb low number && leb number high) }
{
    low <= number && number <= high
}

// Whether there can be so many players.
pub fn players_fit(players: u32) -> bool
    ensures { result ≡ players_fit players }
{
    within(LEAST_PLAYERS, players, MOST_PLAYERS)
}

// Whether there can be so many positions.
pub fn positions_fit(positions: u32) -> bool
    ensures { result ≡ positions_fit positions }
{
    within(1, positions, MOST_POSITIONS)
}

// Whether a grid can be so wide.
fn width_fits(width: u32) -> bool
    ensures { result ≡ width_fits width }
{
    within(1, width, MOST_WIDTH)
}

// Whether a value can have so many bytes.
pub fn value_bytes_fit(value_bytes: u32) -> bool
    ensures { result ≡ value_fits value_bytes }
{
    within(1, value_bytes, MOST_VALUE_BYTES)
}

// Not a board's: it is asked before there is one, so its bounds are clauses.
// Grid rows for so many positions: their number over the width, rounded up.
pub fn grid_rows_for(positions: u32, width: u32) -> u32
    requires { (positions ≤ 65536) × (1 ≤ width) × (width ≤ 256) }
    ensures { result ≡ (positions + width - 1) / width }
{
    (positions + width - 1) / width
}

// Columns of an array for so many players: two to the power of one player less.
fn columns_for(players: u32) -> u32
    requires { (2 ≤ players) × (players ≤ 6) }
    ensures { result ≡ 2 ^ (players - 1) }
{
    1 << (players - 1)
}

impl Board {
    ghost use Rattle.grid.specs.Code.{board_of};

    // The board of four numbers, or the first of 1 to 5 that fits.
    pub fn new(players: u32, positions: u32, width: u32, value_bytes: u32) -> Result<Board, Refusal>
        ensures refusal { answer_number result ≡ board_refusal (board players positions width value_bytes) }
        ensures numbers { IfOk result (λ made. board_of made ≡ board players positions width value_bytes) }
    {
        if !players_fit(players) {
            return Err(Refusal::Players);
        }
        if !positions_fit(positions) {
            return Err(Refusal::Positions);
        }
        if !width_fits(width) {
            return Err(Refusal::Width);
        }
        if !value_bytes_fit(value_bytes) {
            return Err(Refusal::ValueBytes);
        }
        if MOST_GRID_ROWS < grid_rows_for(positions, width) {
            return Err(Refusal::GridRows);
        }
        Ok(Board {
            players,
            positions,
            width,
            value_bytes,
        })
    }

    // Columns of an array: J.
    pub fn columns(self) -> usize
        ensures { result ≡ columns (board_of self) }
    {
        columns_for(self.players) as usize
    }

    // Grid rows: ν.
    pub fn grid_rows(self) -> usize
        ensures { result ≡ grid_rows (board_of self) }
    {
        grid_rows_for(self.positions, self.width) as usize
    }

    // Bytes of a row or of a word: μ × w.
    pub fn row_length(self) -> usize
        ensures { result ≡ row_long (board_of self) }
    {
        (self.width * self.value_bytes) as usize
    }

    // Bytes of a table: an entry for each position.
    pub fn table_length(self) -> usize
        ensures { result ≡ self.positions * self.value_bytes }
    {
        (self.positions * self.value_bytes) as usize
    }

    // Bytes of all arrays: a column is a byte.
    pub fn arrays_length(self) -> usize
        ensures { result ≡ arrays_long (board_of self) }
    {
        self.grid_rows() * self.columns()
    }

    // Bytes of all seeds: each column has one.
    pub fn seeds_length(self) -> usize
        ensures { result ≡ seeds_long (board_of self) }
    {
        SEED_BYTES * self.arrays_length()
    }

    // Bytes of the lent words: all but the last.
    pub fn words_length(self) -> usize
        ensures { result ≡ words_long (board_of self) }
    {
        (self.columns() - 1) * self.row_length()
    }
}
