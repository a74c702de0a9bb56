// The C interface: the operations as C functions, each over the call of its name, in one file for each section of
// include/nosingginger.h. A slice is a pointer and a length. Results are u32 or u64, and everything else is written
// through pointers, so that one module serves every machine. Assumes nothing.
#![tactic(auto)]

pub mod board;
pub mod deal;
pub mod draw;
pub mod join;
pub mod key;
pub mod open;
pub mod pages;
pub mod seed;
pub mod tallies;
mod value;
