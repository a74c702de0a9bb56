// Open one and Open all, behind their refusals. Assumes nothing.
#![tactic(auto)]

mod square;
mod table;

pub use square::open_one;
pub use table::open_all;
