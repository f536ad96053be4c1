// The search for a best spanning tree: network simplex on perturbed masses.
#![tactic(auto)]

pub mod search;
