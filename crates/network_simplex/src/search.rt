// The search for a best tree: network simplex.
ghost use Rattle.std.specs.Prelude.{◌≡◌, ◌<◌, length};
ghost use Rattle.arithmetic.specs.Table.{at};
ghost use Rattle.graph.specs.Graph.{graph_of};
ghost use Rattle.tree_pivot.specs.Steps.Basis.{tables_of};
ghost use Rattle.pricing.specs.Steps.Entering.{violation_at};
ghost use Rattle.first_basis.specs.Steps.FirstBasis.{CanStart};
ghost use Rattle.network_simplex.specs.Steps.Search.{CanSearch, Improved, Optimized, BestTree};

use graph::Graph;
use spanning_tree::tree::Tree;
use transport_problem::Problem;
use tree_pivot::{Basis, Subtrees};

// One step: edge e, which the potential violates, enters, and another leaves.
fn improve(g: &Graph<'_>, e: usize, basis: &mut Basis)
    requires { CanSearch (graph_of g.now) (tables_of basis.old)
        × (e < length g.now.a.now) × (0 < violation_at (graph_of g.now) basis.old.potential e) }
    ensures { Improved (graph_of g.now) (tables_of basis.old) (tables_of basis.new) }
{
    let edge = pricing::downhill_edge(g, &basis.potential, e);
    let x = ratio_test::exchange(g.n, edge, basis);
    basis.pivot(g.n, x);
}

// Improves the basis until the potential violates no edge.
fn search(g: &Graph<'_>, basis: &mut Basis)
    requires { CanSearch (graph_of g.now) (tables_of basis.old) }
    ensures { Optimized (graph_of g.now) (tables_of basis.old) (tables_of basis.new) }
{
    let mut entering = pricing::entering_edge(g, basis, 0);
    while let Some(e) = entering {
        improve(g, e, basis);
        entering = pricing::entering_edge(g, basis, pricing::next_block(e));
    }
}

// What the search finds: a best tree, the length of the edge above each of its vertices, and its potential.
#[derive(Clone, Copy)]
pub struct Optimum {
    pub tree: Tree,
    pub above: [u32; 64],
    pub potential: [u32; 64],
}

// A best tree, from a spanning tree given by the parents and the edges to them.
pub fn best_tree(problem: &Problem<'_>, first: &[u32; 64], edge: &[u32; 64]) -> Optimum
    requires { CanStart (graph_of problem.now.graph) problem.now.mu.now problem.now.nu.now first.now edge.now }
    ensures { BestTree (graph_of problem.now.graph) (at problem.now.mu.now) (at problem.now.nu.now)
        result.tree.n result.tree.root result.tree.parents result.above result.potential }
{
    let mut basis = Basis {
        parents: *first,
        above: [0; 64],
        subtrees: Subtrees {
            supply: [0; 64],
            demand: [0; 64],
            masks: [0; 64],
        },
        potential: [0; 64],
    };
    first_basis::fill_basis(
        problem.graph.n,
        problem.graph.lengths,
        problem.mu,
        problem.nu,
        edge,
        &mut basis,
    );
    search(&problem.graph, &mut basis);
    Optimum {
        tree: Tree::new(problem.graph.n, 0, &basis.parents),
        above: basis.above,
        potential: basis.potential,
    }
}
