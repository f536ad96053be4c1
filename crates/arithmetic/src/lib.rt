#![tactic(auto)]

// Finite sums, tables, words and integers: definitions and laws that every crate above cites. There is no code here.
