// The best call: a best tree, its plan and a potential that certifies both.
// Tables of 64 entries stand for lists of n: a rule of the project, no heap.
#![tactic(auto)]

ghost use Rattle.std.specs.Prelude.{◌≡◌, ◌++◌, ◌^◌, ◌≤◌, length, drop};
ghost use Rattle.std.proofs.Math.IntN.{sub_ℕ};
ghost use Rattle.arithmetic.specs.Table.{at, tab};
ghost use Rattle.graph.specs.Graph.{graph_of};
ghost use Rattle.arithmetic.specs.Steps.Table.{EachBelow};
ghost use Rattle.refusals.specs.Refusals.{number_of};
ghost use Rattle.tree_evaluation.specs.Outcome.{cost_of, moves_of};
ghost use Rattle.optimal_transport.specs.Solve.{Solved};

use network_simplex::search::best_tree;
use numbers::difference;
use refusals::Refusal;
use spanning_tree::tree::Tree;
use transport_problem::Problem;
use tree_evaluation::{Evaluation, evaluate_tree};

// Fills in the parents of a tree.
fn write_parents(tree: Tree, parents: &mut [u32])
    requires { (tree.n ≤ 64) × (tree.n ≤ length parents.old) }
    ensures { parents.new ≡ tab tree.n (at tree.parents) ++ drop tree.n parents.old }
{
    parents[..tree.n].copy_from_slice(&tree.parents[..tree.n]);
}

// Fills in a potential, less that of vertex 0.
fn write_potential(n: usize, u: &[u32], potential: &mut [i32])
    requires n_in_bounds { (n ≤ length u.now) × (n ≤ length potential.old) }
    requires small { EachBelow n (at u.now) (2 ^ 24) }
    ensures { potential.new ≡ tab n (λ y. sub_ℕ (at u.now y) (at u.now 0)) ++ drop n potential.old }
{
    for y in 0..n {
        potential[y] = difference(u[y] as u64, u[0] as u64);
    }
}

// The best answer: fills in a best tree with root 0, its potential and its plan.
pub fn solve(
    problem: &Problem<'_>,
    parents: &mut [u32],
    potential: &mut [i32],
    plan: &mut [u32],
) -> Result<Evaluation, Refusal>
    ensures { Solved (graph_of problem.now.graph) problem.now.mu.now problem.now.nu.now
        parents.old potential.old plan.old (number_of result) (cost_of result) (moves_of result)
        parents.new potential.new plan.new }
{
    let mut first = [0u32; 64];
    let mut edge = [0u32; 64];
    let room = given_tree::has_room(problem.graph.n, parents.len(), potential.len(), plan.len());
    transport_problem::check(problem, room, &mut first, &mut edge)?;
    let found = best_tree(problem, &first, &edge);
    let mut masks = [0u64; 64];
    let mut imbalance = [0i32; 64];
    let value = evaluate_tree(
        found.tree,
        &found.above,
        problem.mu,
        problem.nu,
        &mut masks,
        &mut imbalance,
        plan,
    );
    write_parents(found.tree, parents);
    write_potential(problem.graph.n, &found.potential, potential);
    Ok(value)
}
