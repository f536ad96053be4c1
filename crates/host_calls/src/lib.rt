// Every call for hosts in C: the calls of the crates below under exported names, each further result written through a reference.
// Refusals are numbers here, and what a Result or an Option holds stands in places of its own: the C interface.
#![tactic(auto)]

ghost use Rattle.std.specs.Prelude.{◌≡◌};
ghost use Rattle.refusals.specs.Refusals.{number_of};
ghost use Rattle.graph.specs.Graph.{graph};
ghost use Rattle.distances.specs.Distances.{distances_refusal, distances_table};
ghost use Rattle.distance_queries.specs.Within.{FoundWithin};
ghost use Rattle.distance_queries.specs.Nearest.{FoundNearest};
ghost use Rattle.given_tree.specs.Given.{given};
ghost use Rattle.tree_evaluation.specs.Evaluate.{Evaluated};
ghost use Rattle.tree_page.specs.Page.{PageWritten};
ghost use Rattle.optimal_transport.specs.Solve.{Solved};
ghost use Rattle.optimality_test.specs.OptimalityTest.{OptimalityTested};
ghost use Rattle.tree_walks.specs.MarkAncestors.{mark_refusal, mark_table};
ghost use Rattle.skin_weights.specs.Lists.{amounts_refusal, weights_refusal, amounts_table, weights_table};

pub mod images;
pub mod records;
pub mod sequences;
pub mod tree;

use graph::Graph;
use refusals::Refusal;
use transport_problem::Problem;

// What a call with no result returns to C: 0 after a success.
fn number_of(outcome: Result<(), Refusal>) -> u32
    ensures { result ≡ number_of outcome }
{
    match outcome {
        Ok(()) => 0,
        Err(refusal) => refusal.number(),
    }
}

// Fills the first n × n places of `out` with the distances, row i from place i × n.
#[unsafe(no_mangle)]
pub extern "C" fn mover_distances(
    n: usize,
    a: &[u32],
    b: &[u32],
    lengths: &[u32],
    out: &mut [u32],
) -> u32
    ensures { (result ≡ distances_refusal (graph n a.now b.now lengths.now) out.old)
        × (out.new ≡ distances_table (graph n a.now b.now lengths.now) out.old) }
{
    number_of(distances::distances(&Graph { n, a, b, lengths }, out))
}

// Evaluates a given tree: fills in its imbalances, its potential and its plan.
#[unsafe(no_mangle)]
pub extern "C" fn mover_evaluate(
    n: usize,
    a: &[u32],
    b: &[u32],
    lengths: &[u32],
    mu: &[u64],
    nu: &[u64],
    root: usize,
    parents: &[u32],
    imbalance: &mut [i32],
    potential: &mut [i32],
    plan: &mut [u32],
    cost: &mut u64,
    moves: &mut u32,
) -> u32
    ensures { Evaluated (graph n a.now b.now lengths.now)
        (given mu.now nu.now root parents.now)
        imbalance.old potential.old plan.old result cost.new moves.new
        imbalance.new potential.new plan.new }
{
    let graph = Graph { n, a, b, lengths };
    let problem = Problem { graph, mu, nu };
    match tree_evaluation::evaluate(&problem, root, parents, imbalance, potential, plan) {
        Ok(evaluation) => {
            *cost = evaluation.cost;
            *moves = evaluation.moves;
            0
        }
        Err(refusal) => {
            *cost = 0;
            *moves = 0;
            refusal.number()
        }
    }
}

// Judges a given tree: 1 where no spanning tree costs less.
#[unsafe(no_mangle)]
pub extern "C" fn mover_is_optimal(
    n: usize,
    a: &[u32],
    b: &[u32],
    lengths: &[u32],
    mu: &[u64],
    nu: &[u64],
    root: usize,
    parents: &[u32],
    optimal: &mut u32,
) -> u32
    ensures { OptimalityTested (graph n a.now b.now lengths.now)
        (given mu.now nu.now root parents.now) result optimal.new }
{
    let graph = Graph { n, a, b, lengths };
    let problem = Problem { graph, mu, nu };
    match optimality_test::is_optimal(&problem, root, parents) {
        Ok(is_optimal) => {
            *optimal = is_optimal as u32;
            0
        }
        Err(refusal) => {
            *optimal = 0;
            refusal.number()
        }
    }
}

// Writes the page of a given tree, and how many bytes it has.
#[unsafe(no_mangle)]
pub extern "C" fn mover_write_page(
    n: usize,
    a: &[u32],
    b: &[u32],
    lengths: &[u32],
    mu: &[u64],
    nu: &[u64],
    root: usize,
    parents: &[u32],
    buffer: &mut [u8],
    length: &mut usize,
) -> u32
    ensures { PageWritten (graph n a.now b.now lengths.now)
        (given mu.now nu.now root parents.now) buffer.old result length.new buffer.new }
{
    let graph = Graph { n, a, b, lengths };
    let problem = Problem { graph, mu, nu };
    match tree_page::write_page(&problem, root, parents, buffer) {
        Ok(page) => {
            *length = page;
            0
        }
        Err(refusal) => {
            *length = 0;
            refusal.number()
        }
    }
}

// The best answer: fills in a best tree with root 0, its potential and its plan.
#[unsafe(no_mangle)]
pub extern "C" fn mover_solve(
    n: usize,
    a: &[u32],
    b: &[u32],
    lengths: &[u32],
    mu: &[u64],
    nu: &[u64],
    parents: &mut [u32],
    potential: &mut [i32],
    plan: &mut [u32],
    cost: &mut u64,
    moves: &mut u32,
) -> u32
    ensures { Solved (graph n a.now b.now lengths.now) mu.now nu.now
        parents.old potential.old plan.old result cost.new moves.new
        parents.new potential.new plan.new }
{
    let graph = Graph { n, a, b, lengths };
    let lent = Problem { graph, mu, nu };
    match optimal_transport::solve(&lent, parents, potential, plan) {
        Ok(solution) => {
            *cost = solution.cost;
            *moves = solution.moves;
            0
        }
        Err(refusal) => {
            *cost = 0;
            *moves = 0;
            refusal.number()
        }
    }
}

// Sets y's bit in the mask of each x that y is below, and changes no other bit.
#[unsafe(no_mangle)]
pub extern "C" fn mover_mark_ancestors(
    n: usize,
    root: usize,
    parents: &[u32],
    y: usize,
    masks: &mut [u64],
) -> u32
    ensures { (result ≡ mark_refusal n root parents.now masks.old)
        × (masks.new ≡ mark_table n root parents.now y masks.old) }
{
    number_of(tree_walks::mark_ancestors::mark_ancestors(n, root, parents, y, masks))
}

// The word of all vertices whose distance from `start` is at most `reach`.
#[unsafe(no_mangle)]
pub extern "C" fn mover_vertices_within(
    n: usize,
    a: &[u32],
    b: &[u32],
    lengths: &[u32],
    start: usize,
    reach: u32,
    mask: &mut u64,
) -> u32
    ensures { FoundWithin (graph n a.now b.now lengths.now) start reach result mask.new }
{
    let graph = Graph { n, a, b, lengths };
    match distance_queries::vertices_within(&graph, start, reach) {
        Ok(within) => {
            *mask = within;
            0
        }
        Err(refusal) => {
            *mask = 0;
            refusal.number()
        }
    }
}

// The vertex with a positive amount whose distance from `start` is least, the lowest of those equally near; 64 if there is none.
#[unsafe(no_mangle)]
pub extern "C" fn mover_nearest_vertex(
    n: usize,
    a: &[u32],
    b: &[u32],
    lengths: &[u32],
    start: usize,
    amounts: &[u64],
    vertex: &mut u32,
) -> u32
    ensures { FoundNearest (graph n a.now b.now lengths.now) start amounts.now
        result vertex.new }
{
    let graph = Graph { n, a, b, lengths };
    match distance_queries::nearest_vertex(&graph, start, amounts) {
        Ok(nearest) => {
            *vertex = nearest.unwrap_or(64) as u32;
            0
        }
        Err(refusal) => {
            *vertex = 0;
            refusal.number()
        }
    }
}

// Fills the first places of `amounts` with the amounts of the weights, in grains.
#[unsafe(no_mangle)]
pub extern "C" fn mover_to_amounts(weights: &[f32], amounts: &mut [u64]) -> u32
    ensures { (result ≡ amounts_refusal weights.now amounts.old)
        × (amounts.new ≡ amounts_table weights.now amounts.old) }
{
    number_of(skin_weights::to_amounts(weights, amounts))
}

// Fills the first places of `weights` with the floats of the amounts.
#[unsafe(no_mangle)]
pub extern "C" fn mover_to_weights(amounts: &[u64], weights: &mut [f32]) -> u32
    ensures { (result ≡ weights_refusal amounts.now weights.old)
        × (weights.new ≡ weights_table amounts.now weights.old) }
{
    number_of(skin_weights::to_weights(amounts, weights))
}
