// Checks 1 to 10 of a call that is given a tree.
#![tactic(auto)]

ghost use Rattle.std.specs.Prelude.{◌≡◌, ◌≤◌, length};
ghost use Rattle.refusals.specs.Refusals.{number_of};
ghost use Rattle.graph.specs.Graph.{graph_of};
ghost use Rattle.given_tree.specs.Given.{given, parents_long, answers_ok};
ghost use Rattle.given_tree.specs.Steps.Given.{GivenChecked};

use graph::edges;
use refusals::Refusal;
use transport_problem::Problem;
use tree_checks::checks;

// the parents are n long, and the answer tables are fine
#[tactic(auto, unfolding(crate::specs::Given::parents_long))]
fn parents_fit(n: usize, parents: &[u32], answers: bool) -> bool
    ensures { result ≡ parents_long n parents.now answers }
{
    if parents.len() != n {
        return false;
    }
    answers
}

// checks 1 to 10; `answers` says whether the caller's answer tables pass check 2. Where nothing is refused, `above` has the length of
// the edge from each vertex to its parent, and `first` and `edge` hold a first spanning tree with root 0.
pub fn check(
    problem: &Problem<'_>,
    root: usize,
    parents: &[u32],
    answers: bool,
    above: &mut [u32],
    first: &mut [u32],
    edge: &mut [u32],
) -> Result<(), Refusal>
    requires { (64 ≤ length above.old) × ((64 ≤ length first.old) × (64 ≤ length edge.old)) }
    ensures { GivenChecked (graph_of problem.now.graph)
        (given problem.now.mu.now problem.now.nu.now root parents.now) answers (number_of result) above.old above.new
        first.new edge.new }
{
    let tables = parents_fit(problem.graph.n, parents, answers);
    transport_problem::check(problem, tables, first, edge)?;
    checks::check_tree(&problem.graph, root, parents, above)
}

// there is room for two tables of n numbers and one of n × n
#[tactic(auto, unfolding(crate::specs::Given::answers_ok))]
pub fn has_room(n: usize, first: usize, second: usize, entries: usize) -> bool
    ensures { result ≡ answers_ok n first second entries }
{
    if n > first {
        return false;
    }
    if n > second {
        return false;
    }
    edges::square_fits(n, entries)
}
