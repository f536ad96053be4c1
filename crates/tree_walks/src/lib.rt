// Walks up the parents of a rooted tree.
#![tactic(auto)]

pub mod mark_ancestors;
pub mod walk;
