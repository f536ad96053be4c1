// A tree by value, and its methods.
ghost use Rattle.std.specs.Prelude.{◌≡◌};
ghost use Rattle.spanning_tree.specs.Tree.{depth_of, parent_of, subtree_of};
ghost use Rattle.spanning_tree.specs.TreeValue.{parents_held};

use spanning_tree::tree::Tree;

// The tree with a root and a list of parents, of which none is examined; places from n on hold 0.
#[unsafe(no_mangle)]
pub extern "C" fn mover_tree_new(n: usize, root: usize, parents: &[u32]) -> Tree
    ensures { (result.n ≡ n) × ((result.root ≡ root) × (result.parents ≡ parents_held n parents.now)) }
{
    Tree::new(n, root, parents)
}

// The number of edges from v up to the root.
#[unsafe(no_mangle)]
pub extern "C" fn mover_tree_depth(tree: Tree, v: usize) -> u32
    ensures { result ≡ depth_of tree.n tree.root tree.parents v }
{
    tree.depth(v)
}

// The parent of v.
#[unsafe(no_mangle)]
pub extern "C" fn mover_tree_parent(tree: Tree, v: usize) -> u32
    ensures { result ≡ parent_of tree.n tree.root tree.parents v }
{
    tree.parent(v)
}

// The mask of the vertices below v.
#[unsafe(no_mangle)]
pub extern "C" fn mover_tree_subtree(tree: Tree, v: usize) -> u64
    ensures { result ≡ subtree_of tree.n tree.root tree.parents v }
{
    tree.subtree(v)
}
