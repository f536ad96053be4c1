// Weighted undirected graphs (document 01's patches): checks 1 to 4.
#![tactic(auto)]

pub mod edges;

pub use edges::Graph;
