// The plan of a tree: what both measures share stays, and each vertex's surplus is sent to deficits, by falling depth.
#![tactic(auto)]

ghost use Rattle.std.specs.Prelude.{◌≡◌, ◌++◌, ◌*◌, ◌≤◌, length, drop};
ghost use Rattle.arithmetic.specs.Table.{at, matrix};
ghost use Rattle.plan_rule.specs.Plan.{moves};
ghost use Rattle.plan_rule.specs.Plan as Plan;
ghost use Rattle.transport_plan.specs.Steps.PlanSteps.{TreeTables, Measures, Zeros, Begun};

use plan_layers::take_layers;
use plan_matching::Residue;
use plan_moves::count_moves;
use spanning_tree::tree::Tree;
use tables::{fill_table, place};

// What mu and nu share stays where it is; the rest is surplus or deficit.
fn keep_shared(n: usize, mu: &[u64], nu: &[u64], plan: &mut [u32]) -> Residue
    requires { (n ≤ 64) × Measures n mu.now nu.now × Zeros n plan.old }
    ensures { Begun n mu.now nu.now plan.old result plan.new }
{
    let mut surplus = [0u32; 64];
    let mut deficit = [0u32; 64];
    for x in 0..n {
        let before = mu[x] as u32;
        let after = nu[x] as u32;
        plan[place(n, x, x)] = before.min(after);
        surplus[x] = before.saturating_sub(after);
        deficit[x] = after.saturating_sub(before);
    }
    Residue::new(n, surplus, deficit)
}

// The plan of a tree by value, with the depth of each vertex and the mask of its subtree: fills the first n * n places of plan, and counts its
// moves.
pub fn tree_plan(
    tree: Tree,
    depth: &[u32],
    masks: &[u64],
    mu: &[u64],
    nu: &[u64],
    plan: &mut [u32],
) -> u32
    requires tree_tables { TreeTables tree.n tree.root (at tree.parents) depth.now masks.now × (tree.n * tree.n ≤ length plan.old) }
    requires measures { Measures tree.n mu.now nu.now }
    ensures table { plan.new
        ≡ matrix tree.n (Plan.plan tree.n tree.root (at tree.parents) (at mu.now) (at nu.now))
        ++ drop (tree.n * tree.n) plan.old }
    ensures unmatched { result
        ≡ moves tree.n (Plan.plan tree.n tree.root (at tree.parents) (at mu.now) (at nu.now)) }
{
    let n = tree.n;
    fill_table(n, 0, plan);
    let mut residue = keep_shared(n, mu, nu, plan);
    take_layers(n, depth, masks, &mut residue, plan);
    count_moves(n, plan)
}
