// What a report returns.

// How many images were accepted; in place k how many have the number k, 0 for the accepted ones; the sum of their costs,
// the greatest, and the first image that has it.
#[derive(Clone, Copy)]
pub struct Report {
    pub accepted: u32,
    pub tally: [u32; 24],
    pub sum: u64,
    pub greatest: u64,
    pub first: usize,
}

// The same without the counts, which went to a lent table.
#[derive(Clone, Copy)]
pub struct Totals {
    pub accepted: u32,
    pub sum: u64,
    pub greatest: u64,
    pub first: usize,
}
