// What the sections of an accepted image hold, and the lists filled with it.
ghost use Rattle.std.specs.Prelude.{◌≡◌, cond, [], ◌+◌, ◌*◌, ◌≤◌, ◌<◌, length};
ghost use Rattle.arithmetic.specs.Sum.{pick};
ghost use Rattle.arithmetic.specs.Table.{tab, written};
ghost use Rattle.image.specs.Image.{vertex_count, edge_count, first_offset, section_count, offset as offset_of, lower_end, upper_end, edge_length_of, amount, has_tree, root_in, parent_in};
ghost use Rattle.image_reader.specs.Reading.{root_number, tree_mark};
ghost use Rattle.image_reader.specs.Steps.Held.{Held};

use image::{TREE, edge_count, extent, offset, vertex_count};
use little_endian::read::{fill_bytes, fill_fours, fill_twos, get};

// The edges: lower ends, upper ends and lengths.
pub fn fill_edges(image: &[u8], a: &mut [u32], b: &mut [u32], lengths: &mut [u32])
    requires held { Held image.now }
    requires image_in_bounds { (edge_count image.now ≤ length a.old) × ((edge_count image.now ≤ length b.old)
        × (edge_count image.now ≤ length lengths.old)) }
    ensures a_after { a.new ≡ written 0 (tab (edge_count image.now) (lower_end image.now)) a.old }
    ensures b_after { b.new ≡ written 0 (tab (edge_count image.now) (upper_end image.now)) b.old }
    ensures lengths_after { lengths.new
        ≡ written 0 (tab (edge_count image.now) (edge_length_of image.now)) lengths.old }
{
    let m = edge_count(image);
    let from = offset(image, 0);
    fill_bytes(image, from, 4, m, a);
    fill_bytes(image, from + 1, 4, m, b);
    fill_twos(image, from + 2, m, lengths);
}

// The amounts of painting t.
pub fn fill_amounts(image: &[u8], t: usize, out: &mut [u64])
    requires image_in_bounds { (first_offset image.now ≤ length image.now) × (t + 1 < section_count image.now) }
    requires image_in_bounds_2 { (offset_of image.now (t + 1) + 4 * vertex_count image.now ≤ length image.now) × (vertex_count image.now ≤ length out.old) }
    ensures { out.new
        ≡ written 0 (tab (vertex_count image.now) (amount image.now t)) out.old }
{
    fill_fours(image, offset(image, t + 1), vertex_count(image), out);
}

// The tree's parents, or nothing without a tree.
pub fn fill_parents(image: &[u8], parents: &mut [u32])
    requires held { Held image.now }
    requires image_in_bounds { vertex_count image.now ≤ length parents.old }
    ensures { parents.new ≡ written 0
        (cond (has_tree image.now) (tab (vertex_count image.now) (parent_in image.now)) [])
        parents.old }
{
    if extent(image, TREE) != 0 {
        fill_bytes(
            image,
            offset(image, TREE) + 1,
            1,
            vertex_count(image),
            parents,
        );
    }
}

// The tree's root, if there is a tree.
pub fn root(image: &[u8]) -> Option<usize>
    requires { Held image.now }
    ensures root_is { root_number result ≡ pick (has_tree image.now) (root_in image.now) }
    ensures tree_is { tree_mark result ≡ pick (has_tree image.now) 1 }
{
    if extent(image, TREE) == 0 {
        return None;
    }
    Some(get(image, offset(image, TREE)) as usize)
}
