// Evaluating a given tree, document 01's weighing.
// Tables of 64 entries stand for lists of n: a rule of the project, no heap.
#![tactic(auto)]

ghost use Rattle.std.specs.Prelude.{◌≡◌, List, ◌++◌, ℕ, ◌≤◌, length, drop};
ghost use Rattle.arithmetic.specs.Table.{at, tab};
ghost use Rattle.arithmetic.specs.Mask.{mask};
ghost use Rattle.arithmetic.specs.Steps.Fill.{Filled};
ghost use Rattle.refusals.specs.Refusals.{number_of};
ghost use Rattle.rooted_tree.specs.Chain.{below, depth};
ghost use Rattle.graph.specs.Graph.{graph, graph_of};
ghost use Rattle.given_tree.specs.Given.{given};
ghost use Rattle.tree_evaluation.specs.Evaluate.{Evaluated};
ghost use Rattle.tree_evaluation.specs.Outcome.{cost_of, moves_of};
ghost use Rattle.tree_figures.specs.Figures.{imbalance, tree_cost};
ghost use Rattle.tree_figures.specs.Steps.Tables.{LengthsTo};
ghost use Rattle.tree_evaluation.specs.Steps.EvaluateTree.{Weighted, Evaluable, TreeEvaluated};

use refusals::Refusal;
use spanning_tree::tree::Tree;
use subtree_sums::subtree_tables;
use transport_plan::tree_plan;
use transport_problem::Problem;

// the cost of a tree, and the moves of its plan
#[derive(Clone, Copy)]
pub struct Evaluation {
    pub cost: u64,
    pub moves: u32,
}

// The flow of an accepted tree: fills in the depths of its vertices, the words below them, gathered once for all that follows, and the imbalances, and
// returns the cost, on every graph whose lengths from a vertex to its parent are in `above`.
pub fn tree_flow(
    tree: Tree,
    above: &[u32],
    mu: &[u64],
    nu: &[u64],
    depths: &mut [u32],
    masks: &mut [u64],
    flow: &mut [i32],
) -> u64
    requires weighted { Weighted tree.n tree.root tree.parents above.now mu.now nu.now flow.old }
    requires room { (tree.n ≤ length depths.old) × (tree.n ≤ length masks.old) }
    ensures levels { Filled tree.n (depth (at tree.parents) tree.root tree.n) depths.old depths.new }
    ensures words { Filled tree.n (λ x. mask tree.n (λ y. below (at tree.parents) tree.n y x)) masks.old masks.new }
    ensures figures { flow.new
        ≡ tab tree.n (imbalance tree.n (at tree.parents) (at mu.now) (at nu.now)) ++ drop tree.n flow.old }
    ensures cost { (a b lengths : List ℕ) → LengthsTo (graph tree.n a b lengths) tree.root (at tree.parents) (at above.now)
        → result ≡ tree_cost (graph tree.n a b lengths) tree.root (at tree.parents) (at mu.now) (at nu.now) }
{
    let n = tree.n;
    let root = tree.root;
    let parents = tree.parents;
    let mut supply = [0u64; 64];
    let mut demand = [0u64; 64];
    subtree_tables(
        n,
        root,
        &parents,
        mu,
        nu,
        depths,
        masks,
        &mut supply,
        &mut demand,
    );
    tree_figures::write_imbalance(n, &supply, &demand, flow);
    tree_figures::tree_cost(n, root, above, &supply, &demand)
}

// Evaluates an accepted tree: its flow, and its plan.
pub fn evaluate_tree(
    tree: Tree,
    above: &[u32],
    mu: &[u64],
    nu: &[u64],
    masks: &mut [u64],
    imbalance: &mut [i32],
    plan: &mut [u32],
) -> Evaluation
    requires evaluable { Evaluable tree.n tree.root tree.parents above.now mu.now nu.now imbalance.old plan.old }
    requires room { tree.n ≤ length masks.old }
    ensures words { Filled tree.n (λ x. mask tree.n (λ y. below (at tree.parents) tree.n y x)) masks.old masks.new }
    ensures figures { (a b lengths : List ℕ) → LengthsTo (graph tree.n a b lengths) tree.root (at tree.parents) (at above.now)
        → TreeEvaluated (graph tree.n a b lengths) tree.root (at tree.parents) (at mu.now) (at nu.now)
        imbalance.old plan.old result.cost result.moves imbalance.new plan.new }
{
    let mut depth = [0u32; 64];
    let cost = tree_flow(tree, above, mu, nu, &mut depth, masks, imbalance);
    let moves = tree_plan(tree, &depth, masks, mu, nu, plan);
    Evaluation { cost, moves }
}

// Evaluates a given tree: fills in its imbalances, its potential and its plan.
pub fn evaluate(
    problem: &Problem<'_>,
    root: usize,
    parents: &[u32],
    imbalance: &mut [i32],
    potential: &mut [i32],
    plan: &mut [u32],
) -> Result<Evaluation, Refusal>
    ensures { Evaluated (graph_of problem.now.graph)
        (given problem.now.mu.now problem.now.nu.now root parents.now)
        imbalance.old potential.old plan.old (number_of result) (cost_of result) (moves_of result)
        imbalance.new potential.new plan.new }
{
    let mut above = [0u32; 64];
    let mut first = [0u32; 64];
    let mut edge = [0u32; 64];
    let room = given_tree::has_room(
        problem.graph.n,
        imbalance.len(),
        potential.len(),
        plan.len(),
    );
    given_tree::check(
        problem, root, parents, room, &mut above, &mut first, &mut edge,
    )?;
    let tree = Tree::new(problem.graph.n, root, parents);
    let mut masks = [0u64; 64];
    let value = evaluate_tree(
        tree, &above, problem.mu, problem.nu, &mut masks, imbalance, plan,
    );
    tree_figures::write_potential(tree.n, tree.root, &masks, &above, imbalance, potential);
    Ok(value)
}
