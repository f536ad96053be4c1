// Checks 1 to 4, of any numbers whatever.
ghost use Rattle.std.specs.Prelude.{◌≡◌, ◌*◌, ◌≤◌, ◌<◌, leb, length};
ghost use Rattle.arithmetic.specs.Bools.{all};
ghost use Rattle.arithmetic.specs.Refusal.{refusal};
ghost use Rattle.refusals.specs.Refusals.{number_of};
ghost use Rattle.graph.specs.Graph.{graph_of};
ghost use Rattle.graph.specs.Checks.{vertices_ok, lists_ok, edge_fits, edges_ok, lengths_ok, size_checks};

use refusals::Refusal;

// A graph as a caller lends it: the number of its vertices, and of each edge the lower end, the upper end and the length.
#[derive(Clone, Copy)]
pub struct Graph<'a> {
    pub n: usize,
    pub a: &'a [u32],
    pub b: &'a [u32],
    pub lengths: &'a [u32],
}

#[tactic(auto, unfolding(crate::specs::Checks::vertices_ok))]
pub fn vertices_fit(n: usize) -> bool
    ensures { result ≡ vertices_ok n }
{
    if n == 0 {
        return false;
    }
    n <= 64
}

// Edge e has ends below n, the lower one first, and stands after its forerunner.
#[tactic(auto, unfolding(crate::specs::Checks::edge_fits))]
fn edge_fits(n: u32, a: &[u32], b: &[u32], e: usize) -> bool
    requires { (length b.now ≡ length a.now) × (e < length a.now) }
    ensures { result ≡ edge_fits n a.now b.now e }
{
    let x = a[e];
    let y = b[e];
    if e == 0 {
        return (y < n) & (x < y);
    }
    let last = a[e - 1];
    (y < n) & ((x < y) & ((last < x) | ((last == x) & (b[e - 1] < y))))
}

// Whether n rows of n numbers fit into so many places.
pub fn square_fits(n: usize, places: usize) -> bool
    ensures { result ≡ leb (n * n) places }
{
    n.checked_mul(n).is_some_and(|square| square <= places)
}

impl Graph<'_> {
    // What check 2 asks of the lists.
    #[tactic(auto, unfolding(crate::specs::Checks::lists_fit))]
    pub fn lists_fit(&self) -> bool
        ensures { result ≡ lists_ok (graph_of self.now) }
    {
        if self.a.len() > 512 {
            return false;
        }
        if self.b.len() != self.a.len() {
            return false;
        }
        self.lengths.len() == self.a.len()
    }

    // Check 3. Every edge is looked at, with no branch on what is found, so that four are tested at a time.
    pub fn edges_fit(&self) -> bool
        requires { (self.now.n ≤ 64) × (length self.now.b.now ≡ length self.now.a.now) }
        ensures { result ≡ edges_ok (graph_of self.now) }
    {
        let mut fits = true;
        for e in 0..self.a.len() {
            fits &= edge_fits(self.n as u32, self.a, self.b, e);
        }
        fits
    }

    // Check 4: each edge's length is at most 65,535.
    pub fn lengths_fit(&self) -> bool
        requires { length self.now.a.now ≤ length self.now.lengths.now }
        ensures { result ≡ lengths_ok (graph_of self.now) }
    {
        let mut fits = true;
        for &size in &self.lengths[..self.a.len()] {
            fits &= size <= 65535;
        }
        fits
    }

    // Checks 1 and 2; `tables` says whether the caller's own tables pass check 2.
    #[tactic(auto, unfolding(arithmetic::specs::Refusal::refusal, crate::specs::Checks::size_checks))]
    pub fn check_sizes(&self, tables: bool) -> Result<(), Refusal>
        ensures { number_of result ≡ refusal (size_checks (graph_of self.now) tables) }
    {
        if !vertices_fit(self.n) {
            return Err(Refusal::Vertices);
        }
        if !self.lists_fit() {
            return Err(Refusal::Tables);
        }
        if !tables {
            return Err(Refusal::Tables);
        }
        Ok(())
    }
}
