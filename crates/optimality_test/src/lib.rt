// The optimality test of a given tree, document 01's judging.
// Tables of 64 entries stand for lists of n: a rule of the project, no heap.
#![tactic(auto)]

ghost use Rattle.std.specs.Prelude.{◌≡◌, length};
ghost use Rattle.arithmetic.specs.Table.{at};
ghost use Rattle.refusals.specs.Refusals.{number_of};
ghost use Rattle.graph.specs.Graph.{graph_of};
ghost use Rattle.graph.specs.Steps.EdgeTree.{EdgeTree};
ghost use Rattle.transport_problem.specs.Steps.TransportProblem.{TransportProblem};
ghost use Rattle.given_tree.specs.Given.{given};
ghost use Rattle.duality.specs.BestCost.{best_cost};
ghost use Rattle.optimality_test.specs.OptimalityTest.{OptimalityTested, optimal_of};
ghost use Rattle.optimality_test.specs.Steps.TreeCosts.{CanCost, CostOf};

use network_simplex::search::best_tree;
use refusals::Refusal;
use spanning_tree::tree::Tree;
use transport_problem::Problem;
use tree_evaluation::tree_flow;

// The cost of an accepted tree. `above` has the length from each vertex to its parent.
fn cost_of(tree: Tree, above: &[u32], mu: &[u64], nu: &[u64]) -> u64
    requires { CanCost tree.n tree.root tree.parents above.now mu.now nu.now }
    ensures { CostOf tree.n tree.root tree.parents above.now mu.now nu.now result }
{
    let mut depths = [0u32; 64];
    let mut masks = [0u64; 64];
    let mut imbalance = [0i32; 64];
    tree_flow(tree, above, mu, nu, &mut depths, &mut masks, &mut imbalance)
}

// The cost of a best tree, from a first spanning tree.
fn least_cost(problem: &Problem<'_>, first: &[u32; 64], edge: &[u32; 64]) -> u64
    requires { TransportProblem (graph_of problem.now.graph) problem.now.mu.now problem.now.nu.now
        × (EdgeTree (graph_of problem.now.graph) 0 first.now edge.now × ((length first.now ≡ 64) × (length edge.now ≡ 64))) }
    ensures { result ≡ best_cost (graph_of problem.now.graph) (at problem.now.mu.now) (at problem.now.nu.now) }
{
    let found = best_tree(problem, first, edge);
    cost_of(found.tree, &found.above, problem.mu, problem.nu)
}

// Whether no spanning tree costs less than a given one.
pub fn is_optimal(problem: &Problem<'_>, root: usize, parents: &[u32]) -> Result<bool, Refusal>
    ensures { OptimalityTested (graph_of problem.now.graph)
        (given problem.now.mu.now problem.now.nu.now root parents.now) (number_of result) (optimal_of result) }
{
    let mut above = [0u32; 64];
    let mut first = [0u32; 64];
    let mut edge = [0u32; 64];
    given_tree::check(
        problem, root, parents, true, &mut above, &mut first, &mut edge,
    )?;
    let tree = Tree::new(problem.graph.n, root, parents);
    let cost = cost_of(tree, &above, problem.mu, problem.nu);
    let least = least_cost(problem, &first, &edge);
    Ok(cost == least)
}
