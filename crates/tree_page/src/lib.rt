// The page of a given tree: a line for each vertex, indented by its depth, with its imbalance and its potential.
// Tables of 64 entries stand for lists of n: a rule of the project, no heap.
#![tactic(auto)]

ghost use Rattle.std.specs.Prelude.{List, ℕ, ◌≤◌, length};
ghost use Rattle.arithmetic.specs.Table.{at};
ghost use Rattle.refusals.specs.Refusals.{number_of};
ghost use Rattle.graph.specs.Graph.{graph, graph_of};
ghost use Rattle.given_tree.specs.Given.{given};
ghost use Rattle.tree_figures.specs.Steps.Tables.{LengthsTo};
ghost use Rattle.tree_evaluation.specs.Steps.EvaluateTree.{Weighted};
ghost use Rattle.tree_page.specs.Page.{PageWritten, filled_of};
ghost use Rattle.tree_page.specs.Steps.Figures.{FiguresFound};

use preorder::print_tree;
use refusals::Refusal;
use spanning_tree::tree::Tree;
use transport_problem::Problem;

// The bytes of a line.
const LINE: usize = 96;

// The imbalances and the potential of an accepted tree, on every graph whose lengths from a vertex to its parent are in `above`.
fn write_figures(
    tree: Tree,
    above: &[u32],
    mu: &[u64],
    nu: &[u64],
    imbalance: &mut [i32],
    potential: &mut [i32],
)
    requires { Weighted tree.n tree.root tree.parents above.now mu.now nu.now imbalance.old × (tree.n ≤ length potential.old) }
    ensures { (a b lengths : List ℕ) → LengthsTo (graph tree.n a b lengths) tree.root (at tree.parents) (at above.now)
        → FiguresFound (graph tree.n a b lengths) tree.root (at tree.parents) (at mu.now) (at nu.now)
        imbalance.old potential.old imbalance.new potential.new }
{
    let mut depths = [0u32; 64];
    let mut masks = [0u64; 64];
    tree_evaluation::tree_flow(tree, above, mu, nu, &mut depths, &mut masks, imbalance);
    tree_figures::write_potential(tree.n, tree.root, &masks, above, imbalance, potential);
}

// Writes the page of a given tree from the start of the buffer on, and returns the bytes filled: checks 1 to 10, where a buffer that is too short is 2.
pub fn write_page(
    problem: &Problem<'_>,
    root: usize,
    parents: &[u32],
    buffer: &mut [u8],
) -> Result<usize, Refusal>
    ensures { PageWritten (graph_of problem.now.graph)
        (given problem.now.mu.now problem.now.nu.now root parents.now) buffer.old (number_of result) (filled_of result) buffer.new }
{
    let n = problem.graph.n;
    let mut above = [0u32; 64];
    let mut first = [0u32; 64];
    let mut edge = [0u32; 64];
    let room = n <= buffer.len() / LINE;
    given_tree::check(
        problem, root, parents, room, &mut above, &mut first, &mut edge,
    )?;
    let mut imbalance = [0i32; 64];
    let mut potential = [0i32; 64];
    let tree = Tree::new(n, root, parents);
    write_figures(
        tree,
        &above,
        problem.mu,
        problem.nu,
        &mut imbalance,
        &mut potential,
    );
    Ok(print_tree(n, root, parents, &imbalance, &potential, buffer))
}
