// What sections can hold, of any numbers whatever.
ghost use Rattle.std.specs.Prelude.{◌≡◌, is_some};
ghost use Rattle.image.specs.Contents.{root_lent, parents_lent};
ghost use Rattle.image_sections.specs.Held.{at_most, edges_held, tree_held};

use graph::Graph;

// No number of the list is above `most`.
fn at_most(most: u32, numbers: &[u32]) -> bool
    ensures { result ≡ at_most most numbers.now }
{
    numbers.iter().all(|x| *x <= most)
}

// A section can hold the amounts: none is above 4,294,967,295. One test over any ordered type would be no plainer: it says what the order
// answers, and each of five calls would turn that into numbers.
pub fn amounts_held(amounts: &[u64]) -> bool
    ensures { result ≡ at_most 4294967295 amounts.now }
{
    amounts.iter().all(|x| *x <= 4294967295)
}

// A section can hold the ends and lengths of the edges.
pub fn edges_held(g: &Graph<'_>) -> bool
    ensures { result ≡ edges_held g.now.a.now g.now.b.now g.now.lengths.now }
{
    at_most(255, g.a) && at_most(255, g.b) && at_most(65535, g.lengths)
}

// A section can hold the tree, or there is none.
pub fn tree_held(tree: Option<(usize, &[u32])>) -> bool
    ensures { result ≡ tree_held (is_some tree.entry) (root_lent tree.entry) (parents_lent tree.entry) }
{
    match tree {
        Some((root, parents)) => root <= 255 && at_most(255, parents),
        None => true,
    }
}
