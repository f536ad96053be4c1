// The labels of the vertices: what the path from the start weighs, or more until it is found. An edge weighs 128 times its length and 1: as a path of a tree has at
// most 63 edges, the lightest path is a shortest one, with the fewest edges of those; and every weight is positive, whatever the length.
#![tactic(auto)]

ghost use Rattle.std.specs.Prelude.{◌≡◌, ◌≤◌, ◌<◌, length, ltb};
ghost use Rattle.arithmetic.specs.Bools.{all};
ghost use Rattle.arithmetic.specs.Table.{at};
ghost use Rattle.path_labels.specs.Steps.Weight.{weight_of, unreached};
ghost use Rattle.path_labels.specs.Steps.Labels.{SomeLabelled, Initialized, CanRelax, Relaxed, SweepsUp, SweepsDown, FeasibleUp, Rounds};

use graph::Graph;

// The label of a vertex that is not reached: more than any path of a tree weighs. It stays a number in place of a None, as labels are only compared, and their
// sum is what a round lowers.
const UNREACHED: u32 = 1 << 30;

// What an edge of length `long` weighs.
pub fn weight(long: u32) -> u32
    requires { long ≤ 65535 }
    ensures { result ≡ weight_of long }
{
    128 * long + 1
}

// The start alone is reached.
pub fn initialize(start: usize, parents: &mut [u32], labels: &mut [u32])
    requires { (start < 64) × ((64 ≤ length parents.old) × (64 ≤ length labels.old)) }
    ensures { Initialized start parents.old labels.old parents.new labels.new }
{
    parents[..64].fill(start as u32);
    labels[..64].fill(UNREACHED);
    labels[start] = 0;
}

// Whether every vertex is reached.
pub fn all_reached(n: usize, labels: &[u32]) -> bool
    requires { n ≤ length labels.now }
    ensures { result ≡ all n (λ v. ltb (at labels.now v) unreached) }
{
    labels[..n].iter().all(|label| *label < UNREACHED)
}

// Hangs the end of edge e in `to` on that in `from`, if that lowers its label; says whether it did.
fn relax(
    from: &[u32],
    to: &[u32],
    lengths: &[u32],
    e: usize,
    parents: &mut [u32],
    edge: &mut [u32],
    labels: &mut [u32],
) -> bool
    requires { CanRelax from.now to.now lengths.now e parents.old edge.old labels.old }
    ensures { Relaxed (at from.now e) (at to.now e) e (weight_of (at lengths.now e))
        parents.old edge.old labels.old result parents.new edge.new labels.new }
{
    let x = from[e] as usize;
    let y = to[e] as usize;
    let near = labels[x] + weight(lengths[e]);
    if labels[y] <= near {
        return false;
    }
    labels[y] = near;
    parents[y] = x as u32;
    edge[y] = e as u32;
    true
}

// Every edge, by rising number, from its lower end to its upper one; says whether a label was lowered. The label that an edge lowers is that of its upper end, from
// which no edge before it goes up: so at the end no edge can lower a label upward.
pub fn sweep_up(g: &Graph<'_>, parents: &mut [u32], edge: &mut [u32], labels: &mut [u32]) -> bool
    requires { SomeLabelled g.now.a.now g.now.b.now g.now.lengths.now parents.old edge.old labels.old }
    ensures { SweepsUp g.now.a.now g.now.b.now g.now.lengths.now (length g.now.a.now)
        parents.old edge.old labels.old result parents.new edge.new labels.new }
{
    let Graph { a, b, lengths, .. } = *g;
    let mut lowered = false;
    for e in 0..a.len() {
        if relax(a, b, lengths, e, parents, edge, labels) {
            lowered = true;
        }
    }
    lowered
}

// The same downward: every edge, by falling number, from its upper end to its lower one. One function for both would take the order of the edges as an
// iterator, and its contract would speak of the list that it yields: no plainer than two loops of one line.
fn sweep_down(g: &Graph<'_>, parents: &mut [u32], edge: &mut [u32], labels: &mut [u32]) -> bool
    requires { SomeLabelled g.now.a.now g.now.b.now g.now.lengths.now parents.old edge.old labels.old }
    ensures { SweepsDown g.now.a.now g.now.b.now g.now.lengths.now 0
        parents.old edge.old labels.old result parents.new edge.new labels.new }
{
    let Graph { a, b, lengths, .. } = *g;
    let mut lowered = false;
    for e in (0..a.len()).rev() {
        if relax(b, a, lengths, e, parents, edge, labels) {
            lowered = true;
        }
    }
    lowered
}

// A sweep down and, if that lowered a label, one up; says whether each of them did.
pub fn round(g: &Graph<'_>, parents: &mut [u32], edge: &mut [u32], labels: &mut [u32]) -> bool
    requires { SomeLabelled g.now.a.now g.now.b.now g.now.lengths.now parents.old edge.old labels.old
        × FeasibleUp g.now.a.now g.now.b.now g.now.lengths.now labels.old }
    ensures { Rounds g.now.a.now g.now.b.now g.now.lengths.now
        parents.old edge.old labels.old result parents.new edge.new labels.new }
{
    if !sweep_down(g, parents, edge, labels) {
        return false;
    }
    sweep_up(g, parents, edge, labels)
}
