// Checks 8 to 10, of a tree.
#![tactic(auto)]

pub mod chains;
pub mod checks;
