// The writer's checks: 1, 2 and 13, of any numbers whatever.
ghost use Rattle.std.specs.Prelude.{◌≡◌, not, ◌&&◌, ◌||◌, ◌≤◌, eqb, is_some, length};
ghost use Rattle.refusals.specs.Refusals.{number_of};
ghost use Rattle.graph.specs.Graph.{graph_of};
ghost use Rattle.graph.specs.Checks.{lists_fit};
ghost use Rattle.image.specs.Contents.{contents_lent, parents_lent};
ghost use Rattle.image_writer.specs.WriteImage.{numbers_ok, write_refusal};
ghost use Rattle.image_writer.specs.Steps.Size.{tree_size, image_size, lengths_fit};

use graph::edges::vertices_fit;
use image_sections::held::{amounts_held, edges_held, tree_held};
use refusals::Refusal;
use transport_problem::Problem;

// The bytes of a tree of n vertices, or none; only whether there is one counts.
pub fn tree_size(n: usize, tree: bool) -> usize
    requires { n ≤ 64 }
    ensures { result ≡ tree_size n tree }
{
    if tree { n + 1 } else { 0 }
}

// The bytes of the image of n vertices and m edges.
pub fn image_size(n: usize, m: usize, tree: bool) -> usize
    requires { (n ≤ 64) × (m ≤ 512) }
    ensures { result ≡ image_size n m tree }
{
    36 + 4 * m + 8 * n + tree_size(n, tree)
}

// The parents are n long, where there is a tree.
fn parents_ok(n: usize, tree: Option<(usize, &[u32])>) -> bool
    ensures { result ≡ not (is_some tree.entry) || eqb (length (parents_lent tree.entry)) n }
{
    match tree {
        Some((_, parents)) => parents.len() == n,
        None => true,
    }
}

// What check 2 asks of the lengths of paintings and parents, and of the room in a buffer.
fn lengths_ok(
    n: usize,
    m: usize,
    mu: &[u64],
    nu: &[u64],
    tree: Option<(usize, &[u32])>,
    room: usize,
) -> bool
    requires { (n ≤ 64) × (m ≤ 512) }
    ensures { result ≡ lengths_fit n m (length mu.now) (length nu.now) (is_some tree.entry) (length (parents_lent tree.entry)) room }
{
    mu.len() == n
        && nu.len() == n
        && parents_ok(n, tree)
        && image_size(n, m, tree.is_some()) <= room
}

// Check 13: the sections can hold every number.
#[tactic(auto, unfolding(crate::specs::WriteImage::numbers_ok))]
fn numbers_ok(problem: &Problem<'_>, tree: Option<(usize, &[u32])>) -> bool
    ensures { result ≡ numbers_ok
        (contents_lent (graph_of problem.now.graph) problem.now.mu.now problem.now.nu.now tree.entry) }
{
    edges_held(&problem.graph)
        && amounts_held(problem.mu)
        && amounts_held(problem.nu)
        && tree_held(tree)
}

// Check 2.
#[tactic(auto, using(graph::proofs::Laws::Accepted::lists_fit_in))]
fn tables_ok(problem: &Problem<'_>, tree: Option<(usize, &[u32])>, room: usize) -> bool
    requires { problem.now.graph.n ≤ 64 }
    ensures { result ≡ lists_fit problem.now.graph.a.now problem.now.graph.b.now problem.now.graph.lengths.now
        && lengths_fit problem.now.graph.n (length problem.now.graph.a.now) (length problem.now.mu.now) (length problem.now.nu.now) (is_some tree.entry) (length (parents_lent tree.entry)) room }
{
    problem.graph.lists_fit()
        && lengths_ok(
            problem.graph.n,
            problem.graph.a.len(),
            problem.mu,
            problem.nu,
            tree,
            room,
        )
}

// Checks 1, 2 and 13, for a buffer with room for so many bytes.
#[tactic(auto, using(crate::proofs::Laws::Size::tables_are, graph::proofs::Laws::Accepted::vertices_in), unfolding(crate::specs::WriteImage::write_checks, graph::specs::Checks::size_checks, arithmetic::specs::Refusal::refusal))]
pub fn check(
    problem: &Problem<'_>,
    tree: Option<(usize, &[u32])>,
    room: usize,
) -> Result<(), Refusal>
    ensures { number_of result ≡ write_refusal
        (contents_lent (graph_of problem.now.graph) problem.now.mu.now problem.now.nu.now tree.entry)
        room }
{
    if !vertices_fit(problem.graph.n) {
        return Err(Refusal::Vertices);
    }
    if !tables_ok(problem, tree, room) {
        return Err(Refusal::Tables);
    }
    if !numbers_ok(problem, tree) {
        return Err(Refusal::Layout);
    }
    Ok(())
}
