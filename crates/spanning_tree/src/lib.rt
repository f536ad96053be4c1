// Spanning trees of a graph, by value.
#![tactic(auto)]

pub mod tree;
