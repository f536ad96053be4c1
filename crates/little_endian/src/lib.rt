// Little-endian numbers in bytes.
#![tactic(auto)]

pub mod read; // numbers in a slice of bytes
pub mod write; // numbers put into a lent buffer
