// Two operations on one key: its check (10, 1 to 5, 11, 12, 13), and the held seed as a part of the caller's own key.
// The lent keys are bytes of every kind: neither `check_key` nor `held_seed` requires anything of them. Assumes nothing.
#![tactic(auto)]

pub mod body;
pub mod check;
pub mod held;
