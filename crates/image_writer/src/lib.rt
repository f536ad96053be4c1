// The writer of images: one image for one patch with its paintings and tree.
#![tactic(auto)]

mod checks; // checks 1, 2 and 13

ghost use Rattle.std.specs.Prelude.{◌≡◌, [], ◌∷◌, ◌*◌, ◌≤◌, length};
ghost use Rattle.arithmetic.specs.Table.{at, written};
ghost use Rattle.little_endian.specs.Steps.Buffer.{placed};
ghost use Rattle.refusals.specs.Refusals.{number_of};
ghost use Rattle.graph.specs.Graph.{graph_of};
ghost use Rattle.image.specs.Contents.{contents_lent};
ghost use Rattle.packed_image.specs.Packed.{header};
ghost use Rattle.image_writer.specs.ImageBytes.{image_bytes};
ghost use Rattle.image_writer.specs.WriteImage.{ImageWritten, length_of};
ghost use Rattle.image_writer.specs.Steps.Size.{tree_size};
ghost use Rattle.image_writer.specs.Steps.Writable.{Writable};

use checks::{check, image_size, tree_size};
use image_sections::write::{write_amounts, write_edges, write_tree};
use packed_image::write_header;
use refusals::Refusal;
use transport_problem::Problem;

// The header of an image of n vertices and m edges.
fn write_front(n: usize, m: usize, tree: bool, buffer: &mut [u8])
    requires { (n ≤ 64) × (m ≤ 512) × (36 ≤ length buffer.old) }
    ensures { buffer.new
        ≡ placed 0 (header n 0 m 4 (at (4 * m ∷ 4 * n ∷ 4 * n ∷ tree_size n tree ∷ []))) buffer.old }
{
    let edges = (4 * m) as u32;
    let amounts = (4 * n) as u32;
    let parents = tree_size(n, tree) as u32;
    let section_lengths = [edges, amounts, amounts, parents];
    write_header(n as u32, 0, m as u32, &section_lengths, buffer);
}

// The image of what was accepted: each section is written into the part of the buffer that starts where it does.
fn write_all(problem: &Problem<'_>, tree: Option<(usize, &[u32])>, buffer: &mut [u8])
    requires { Writable (contents_lent (graph_of problem.now.graph) problem.now.mu.now problem.now.nu.now tree) (length buffer.old) }
    ensures { buffer.new ≡ written 0
        (image_bytes (contents_lent (graph_of problem.now.graph) problem.now.mu.now problem.now.nu.now tree.entry)) buffer.old }
{
    let n = problem.graph.n;
    let m = problem.graph.a.len();
    write_front(n, m, tree.is_some(), buffer);
    write_edges(&problem.graph, &mut buffer[36..]);
    let second = 36 + 4 * m;
    write_amounts(n, problem.mu, &mut buffer[second..]);
    let third = 36 + 4 * m + 4 * n;
    write_amounts(n, problem.nu, &mut buffer[third..]);
    let fourth = 36 + 4 * m + 8 * n;
    write_tree(n, tree, &mut buffer[fourth..]);
}

// Writes an image with its sections back to back, and returns its length.
pub fn write_image(
    problem: &Problem<'_>,
    tree: Option<(usize, &[u32])>,
    buffer: &mut [u8],
) -> Result<usize, Refusal>
    ensures { ImageWritten
        (contents_lent (graph_of problem.now.graph) problem.now.mu.now problem.now.nu.now tree.entry)
        buffer.old (number_of result) (length_of result) buffer.new }
{
    check(problem, tree, buffer.len())?;
    write_all(problem, tree, buffer);
    Ok(image_size(problem.graph.n, problem.graph.a.len(), tree.is_some()))
}
