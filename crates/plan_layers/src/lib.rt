// The plan's rule on a tree that is given by its depths and the masks of its subtrees: vertices are taken by falling depth.
#![tactic(auto)]

ghost use Rattle.std.specs.Prelude.{◌≡◌};
ghost use Rattle.arithmetic.specs.Steps.Mask.{bit};
ghost use Rattle.arithmetic.specs.Mask.{mask};
ghost use Rattle.vertex_set.specs.Steps.Sets.{VertexSets, Depths};
ghost use Rattle.plan_rule.specs.Steps.Taken.{taken};
ghost use Rattle.plan_matching.specs.Steps.Residue.{Consistent, Done};
ghost use Rattle.plan_layers.specs.Steps.Layers.{set_of, taken_by_tables};

use plan_matching::Residue;
use vertex_set::lowest_vertex;

// The vertices of a word, by rising number, each with its mask.
fn take_layer(n: usize, vertices: u64, masks: &[u64], residue: &mut Residue, plan: &mut [u32])
    requires { (vertices ≡ mask n (bit vertices)) × VertexSets n masks.now × Consistent n residue.old plan.old }
    ensures { Done n (taken n (bit vertices) (set_of masks.now) n) residue.old plan.old residue.new plan.new }
{
    let mut left = vertices;
    while left != 0 {
        let x = lowest_vertex(n, left);
        residue.match_subtree(n, masks[x], plan);
        left = left - (1u64 << x);
    }
}

// All vertices, by falling depth. Depth n, of chains that miss the root, is left out.
pub fn take_layers(n: usize, depth: &[u32], masks: &[u64], residue: &mut Residue, plan: &mut [u32])
    requires { Depths n depth.now × VertexSets n masks.now × Consistent n residue.old plan.old }
    ensures { Done n (taken_by_tables n depth.now masks.now n) residue.old plan.old residue.new plan.new }
{
    let vertices = vertex_set::layers(n, depth);
    for d in (0..n).rev() {
        take_layer(n, vertices[d], masks, residue, plan);
    }
}
