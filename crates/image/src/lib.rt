// The image format: the header's fields, and the checks of an image, 11, 12, 13, 1 and 2.
#![tactic(auto)]

ghost use Rattle.std.specs.Prelude.{◌≡◌, ◌&&◌, ◌≤◌, ◌<◌, length, leb};
ghost use Rattle.arithmetic.specs.Refusal.{refusal};
ghost use Rattle.refusals.specs.Refusals.{number_of};
ghost use Rattle.graph.specs.Checks.{vertices_ok};
ghost use Rattle.image.specs.Image.{vertex_count, edge_count, first_offset, section_count, size_ok, sections_ok, layout_ok, offset as offset_of, extent as extent_of};
ghost use Rattle.image.specs.ImageChecks.{image_checks};

use directory::pairs_ok;
use graph::edges::vertices_fit;
use little_endian::read::{get, get_two};
use refusals::Refusal;

// Where the pairs of offset and length of the sections stand.
const PAIRS: usize = 4;

// How many sections an image has.
const SECTIONS: usize = 4;

// Where the first of them may start.
const FIRST_OFFSET: usize = 36;

// Which of them is the tree.
pub const TREE: usize = 3;

// The number of vertices.
pub fn vertex_count(image: &[u8]) -> usize
    requires { first_offset image.now ≤ length image.now }
    ensures { (result ≡ vertex_count image.now) × (result < 256) }
{
    get(image, 0) as usize
}

// The number of edges.
pub fn edge_count(image: &[u8]) -> usize
    requires { first_offset image.now ≤ length image.now }
    ensures { (result ≡ edge_count image.now) × (result < 65536) }
{
    get_two(image, 2) as usize
}

// Where section t starts.
pub fn offset(image: &[u8], t: usize) -> usize
    requires { (first_offset image.now ≤ length image.now) × (t < section_count image.now) }
    ensures { (result ≡ offset_of image.now t) × (result < 4294967296) }
{
    directory::offset(image, PAIRS, t)
}

// How many bytes section t has.
pub fn extent(image: &[u8], t: usize) -> usize
    requires { (first_offset image.now ≤ length image.now) × (t < section_count image.now) }
    ensures { (result ≡ extent_of image.now t) × (result < 4294967296) }
{
    directory::extent(image, PAIRS, t)
}

// Check 11.
#[tactic(auto, unfolding(crate::specs::Image::size_ok))]
fn size_ok(image: &[u8]) -> bool
    ensures { result ≡ size_ok image.now }
{
    FIRST_OFFSET <= image.len() && image.len() <= 65536
}

// Check 12.
fn sections_ok(image: &[u8]) -> bool
    requires { first_offset image.now ≤ length image.now }
    ensures { result ≡ sections_ok image.now }
{
    pairs_ok(image, PAIRS, FIRST_OFFSET, SECTIONS)
}

// Check 13.
#[tactic(auto, unfolding(crate::specs::Image::layout_ok))]
fn layout_ok(image: &[u8]) -> bool
    requires { first_offset image.now ≤ length image.now }
    ensures { result ≡ layout_ok image.now }
{
    let n = vertex_count(image);
    let tree = extent(image, TREE);
    get(image, 1) == 0
        && extent(image, 0) == 4 * edge_count(image)
        && extent(image, 1) == 4 * n
        && extent(image, 2) == 4 * n
        && (tree == 0 || tree == n + 1)
}

// Check 1.
fn vertices_ok(image: &[u8]) -> bool
    requires { first_offset image.now ≤ length image.now }
    ensures { result ≡ vertices_ok (vertex_count image.now) }
{
    vertices_fit(vertex_count(image))
}

// Check 2: few enough edges, and room for all that is read.
fn tables_ok(image: &[u8], edges: usize, vertices: usize) -> bool
    requires { first_offset image.now ≤ length image.now }
    ensures { result ≡ leb (edge_count image.now) 512
        && (leb (edge_count image.now) edges && leb (vertex_count image.now) vertices) }
{
    let m = edge_count(image);
    m <= 512 && m <= edges && vertex_count(image) <= vertices
}

// Checks 11, 12, 13, 1 and 2 in their order; the tables for what is read have room for so many edges and vertices.
#[tactic(auto, using(crate::proofs::Laws::ImageCheck::sized), unfolding(crate::specs::ImageChecks::image_checks, arithmetic::specs::Refusal::refusal))]
pub fn check(image: &[u8], edges: usize, vertices: usize) -> Result<(), Refusal>
    ensures { number_of result ≡ refusal (image_checks image.now
        (leb (edge_count image.now) edges && leb (vertex_count image.now) vertices)) }
{
    if !size_ok(image) {
        return Err(Refusal::ImageSize);
    }
    if !sections_ok(image) {
        return Err(Refusal::Sections);
    }
    if !layout_ok(image) {
        return Err(Refusal::Layout);
    }
    if !vertices_ok(image) {
        return Err(Refusal::Vertices);
    }
    if !tables_ok(image, edges, vertices) {
        return Err(Refusal::Tables);
    }
    Ok(())
}
