// A transport problem: a connected graph and two paintings of equal total. Checks 1 to 7.
#![tactic(auto)]

ghost use Rattle.std.specs.Prelude.{◌≡◌, ◌≤◌, length};
ghost use Rattle.refusals.specs.Refusals.{number_of};
ghost use Rattle.graph.specs.Graph.{graph_of};
ghost use Rattle.transport_problem.specs.Checks.{measures_long};
ghost use Rattle.transport_problem.specs.Steps.TransportProblem.{ProblemChecked};

use graph::Graph;
use refusals::Refusal;

// A graph and two paintings of it, as a caller lends them.
#[derive(Clone, Copy)]
pub struct Problem<'a> {
    pub graph: Graph<'a>,
    pub mu: &'a [u64],
    pub nu: &'a [u64],
}

// both paintings are n long, and the caller's own tables are fine
#[tactic(auto, unfolding(crate::specs::Checks::measures_long))]
fn measures_fit(problem: &Problem<'_>, tables: bool) -> bool
    ensures { result ≡ measures_long problem.now.graph.n problem.now.mu.now problem.now.nu.now tables }
{
    if problem.mu.len() != problem.graph.n {
        return false;
    }
    if problem.nu.len() != problem.graph.n {
        return false;
    }
    tables
}

// Checks 1 to 7; `tables` says whether the caller's own tables pass check 2. Where nothing is refused, a first spanning tree stands in the two scratch
// tables.
pub fn check(
    problem: &Problem<'_>,
    tables: bool,
    first: &mut [u32],
    edge: &mut [u32],
) -> Result<(), Refusal>
    requires { (64 ≤ length first.old) × (64 ≤ length edge.old) }
    ensures { ProblemChecked (graph_of problem.now.graph) problem.now.mu.now problem.now.nu.now tables (number_of result)
        first.new edge.new }
{
    let fits = measures_fit(problem, tables);
    graph_checks::check(&problem.graph, fits, first, edge)?;
    measures::check(problem.graph.n, problem.mu, problem.nu)
}
