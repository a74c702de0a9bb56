// What can be wrong with a column of an array, by the numbers 18 to 20, and the place of the first such column. What
// they mean stands in specs/Faults.antt. Assumes nothing.
use refusal::Refusal;

// The first fault of a dealing's arrays: why they are refused, and the grid row and the column where it stands.
#[derive(Clone, Copy, Debug, PartialEq, Eq)]
pub struct Fault {
    pub refusal: Refusal,
    pub grid_row: u32,
    pub column: u32,
}
