// A tree by value: n, its root and the parents of its vertices. C takes it by value too, so its layout is C's, and its methods answer by 0, 64 and 0
// where a vertex has no answer (document 01, "Trees"; the definitions depth_of, parent_of and subtree_of).
ghost use Rattle.std.specs.Prelude.{◌≡◌};
ghost use Rattle.spanning_tree.specs.Tree.{valid, depth_of, parent_of, subtree_of};
ghost use Rattle.spanning_tree.specs.TreeValue.{parents_held};

use tree_checks::{chains, checks};
use tree_walks::walk;

#[repr(C)]
#[derive(Clone, Copy)]
pub struct Tree {
    pub n: usize,
    pub root: usize,
    pub parents: [u32; 64],
}

impl Tree {
    // the tree with a root and a list of parents; places from n on hold 0
    pub fn new(n: usize, root: usize, parents: &[u32]) -> Self
        ensures { (result.n ≡ n) × ((result.root ≡ root) × (result.parents ≡ parents_held n parents.now)) }
    {
        let mut held = [0u32; 64];
        let count = n.min(64).min(parents.len());
        held[..count].copy_from_slice(&parents[..count]);
        Tree {
            n,
            root,
            parents: held,
        }
    }

    // whether v is a vertex, and checks 1, 8 and 10 accept the tree
    #[tactic(auto, using(crate::proofs::Laws::Valid::few_vertices, crate::proofs::Laws::Valid::many_vertices), unfolding(crate::specs::Tree::valid))]
    pub fn is_valid(self, v: usize) -> bool
        ensures { result ≡ valid self.n self.root self.parents v }
    {
        if v >= self.n {
            return false;
        }
        if self.n > 64 {
            return false;
        }
        if !checks::parents_ok(self.n, self.root, &self.parents) {
            return false;
        }
        chains::chains_reach(self.n, self.root, &self.parents)
    }

    // the number of edges from v up to the root
    #[tactic(auto, using(crate::proofs::Laws::Valid::valid_say), unfolding(crate::specs::Tree::depth_of))]
    pub fn depth(self, v: usize) -> u32
        ensures { result ≡ depth_of self.n self.root self.parents v }
    {
        if !self.is_valid(v) {
            return 0;
        }
        let mut masks = [0u64; 64];
        walk::walk_up(self.n, self.root, &self.parents, v, &mut masks)
    }

    // the parent of v
    #[tactic(auto, using(crate::proofs::Laws::Valid::valid_say), unfolding(crate::specs::Tree::parent_of))]
    pub fn parent(self, v: usize) -> u32
        ensures { result ≡ parent_of self.n self.root self.parents v }
    {
        if !self.is_valid(v) {
            return 64;
        }
        self.parents[v]
    }

    // the mask of the vertices below v
    #[tactic(auto, using(crate::proofs::Laws::Valid::valid_say), unfolding(crate::specs::Tree::subtree_of))]
    pub fn subtree(self, v: usize) -> u64
        ensures { result ≡ subtree_of self.n self.root self.parents v }
    {
        if !self.is_valid(v) {
            return 0;
        }
        let mut depths = [0u32; 64];
        let mut masks = [0u64; 64];
        walk::subtree_masks(self.n, self.root, &self.parents, &mut depths, &mut masks);
        masks[v]
    }
}
