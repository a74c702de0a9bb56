// Boards as grids: the four numbers of a board with their refusals 1 to 5, the grid's sizes, what can be wrong with
// arrays and where, and the places of the spring board's sensors.
#![tactic(auto)]

pub mod board;
pub mod fault;
pub mod sensor;
