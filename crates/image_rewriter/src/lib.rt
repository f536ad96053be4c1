// An image written anew: what it holds, with sections back to back.
#![tactic(auto)]

ghost use Rattle.refusals.specs.Refusals.{number_of};
ghost use Rattle.image_writer.specs.WriteImage.{length_of};
ghost use Rattle.image_rewriter.specs.Rewrite.{Rewritten};

use graph::Graph;
use image_reader::{Reading, read};
use image_writer::write_image;
use refusals::Refusal;
use transport_problem::Problem;

// Writes an image anew, or refuses it as the reader does. The tables have room for the largest image: no heap, fixed memory.
pub fn rewrite(image: &[u8], buffer: &mut [u8]) -> Result<usize, Refusal>
    ensures { Rewritten image.now buffer.old (number_of result) (length_of result) buffer.new }
{
    let mut a = [0u32; 512];
    let mut b = [0u32; 512];
    let mut l = [0u32; 512];
    let mut mu = [0u64; 64];
    let mut nu = [0u64; 64];
    let mut parents = [0u32; 64];
    let Reading { n, m, root } = read(
        image,
        &mut a,
        &mut b,
        &mut l,
        &mut mu,
        &mut nu,
        &mut parents,
    )?;
    let tree = root.zip(Some(&parents[..n]));
    let problem = Problem {
        graph: Graph {
            n,
            a: &a[..m],
            b: &b[..m],
            lengths: &l[..m],
        },
        mu: &mu[..n],
        nu: &nu[..n],
    };
    write_image(&problem, tree, buffer)
}
