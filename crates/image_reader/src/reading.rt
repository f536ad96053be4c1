// What the reader returns.
ghost use Rattle.std.specs.Prelude.{◌≤◌};

// Of an accepted image: n, m and the root of its tree, if it has one.
#[derive(Clone, Copy)]
pub struct Reading {
    pub n: usize,
    pub m: usize,
    pub root: Option<usize>,
    ghost within: { (n ≤ 64) × (m ≤ 512) },
}
