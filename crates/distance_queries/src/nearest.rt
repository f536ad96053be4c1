// The nearest vertex with a positive amount.
ghost use Rattle.std.specs.Prelude.{◌≡◌, ◌≤◌, ◌<◌, length, IfOk, IfSome};
ghost use Rattle.arithmetic.specs.Table.{at};
ghost use Rattle.refusals.specs.Refusals.{number_of};
ghost use Rattle.graph.specs.Graph.{graph_of};
ghost use Rattle.distance_queries.specs.Nearest.{nearer, nearest, or_64, vertex_of, FoundNearest};
ghost use Rattle.distance_queries.specs.Steps.Nearer.{CanCompare};

use crate::checked::checked_distances;
use graph::Graph;
use measures::total;
use refusals::Refusal;

// v, if its amount is positive and it is nearer than the best so far, or there is none; else that.
fn nearer(distances: &[u32], amounts: &[u64], best: Option<usize>, v: usize) -> Option<usize>
    requires { CanCompare distances.now amounts.now best v }
    ensures value { or_64 result ≡ nearer (at distances.now) (at amounts.now) (or_64 best) v }
    ensures vertex { IfSome result (λ x. x < 64) }
{
    if amounts[v] == 0 {
        return best;
    }
    match best {
        Some(x) if distances[x] <= distances[v] => best,
        _ => Some(v),
    }
}

// The nearest of n vertices with a positive amount, the lowest of those equally near. A loop, as the library's min_by_key promises a vertex with the least distance,
// but not the first.
fn nearest_positive(n: usize, distances: &[u32], amounts: &[u64]) -> Option<usize>
    requires { (n ≤ 64) × (64 ≤ length distances.now) × (n ≤ length amounts.now) }
    ensures value { or_64 result ≡ nearest (at distances.now) (at amounts.now) n }
    ensures vertex { IfSome result (λ x. x < 64) }
{
    let mut best = None;
    for v in 0..n {
        best = nearer(distances, amounts, best, v);
    }
    best
}

// The vertex with a positive amount whose distance from `start` is least, the lowest of those equally near.
pub fn nearest_vertex(
    g: &Graph<'_>,
    start: usize,
    amounts: &[u64],
) -> Result<Option<usize>, Refusal>
    ensures found { FoundNearest (graph_of g.now) start amounts.now
        (number_of result) (vertex_of result) }
    ensures vertex { IfOk result (λ found. IfSome found (λ v. v < 64)) }
{
    let distances = checked_distances(g, amounts.len() == g.n, start)?;
    total(g.n, amounts)?;
    if start >= g.n {
        return Err(Refusal::Start);
    }
    Ok(nearest_positive(g.n, &distances, amounts))
}
