// The climb up a tree from one vertex, as a call that checks what it is given.
ghost use Rattle.std.specs.Prelude.{◌≡◌};
ghost use Rattle.refusals.specs.Refusals.{number_of};
ghost use Rattle.tree_walks.specs.MarkAncestors.{mark_refusal, mark_table};

use crate::walk;
use graph::edges;
use refusals::Refusal;
use tree_checks::{chains, checks};

// checks 1, 2, 8 and 10
#[tactic(auto, unfolding(arithmetic::specs::Refusal::refusal, crate::specs::MarkAncestors::mark_refusal))]
fn check(n: usize, root: usize, parents: &[u32], masks: &[u64]) -> Result<(), Refusal>
    ensures { number_of result ≡ mark_refusal n root parents.now masks.now }
{
    if !edges::vertices_fit(n) {
        return Err(Refusal::Vertices);
    }
    if parents.len() != n {
        return Err(Refusal::Tables);
    }
    if masks.len() < n {
        return Err(Refusal::Tables);
    }
    if !checks::parents_ok(n, root, parents) {
        return Err(Refusal::Parents);
    }
    if !chains::chains_reach(n, root, parents) {
        return Err(Refusal::Chains);
    }
    Ok(())
}

// Sets y's bit in the mask of each x that y is below, and changes no other bit.
pub fn mark_ancestors(
    n: usize,
    root: usize,
    parents: &[u32],
    y: usize,
    masks: &mut [u64],
) -> Result<(), Refusal>
    ensures { (number_of result ≡ mark_refusal n root parents.now masks.old)
        × (masks.new ≡ mark_table n root parents.now y masks.old) }
{
    check(n, root, parents, masks)?;
    if y >= n {
        return Ok(());
    }
    walk::walk_up(n, root, parents, y, masks);
    Ok(())
}
