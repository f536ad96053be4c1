// Images: read, written, written anew, and answered.
ghost use Rattle.graph.specs.Graph.{graph};
ghost use Rattle.image_reader.specs.Read.{Read, lists};
ghost use Rattle.image.specs.Contents.{contents};
ghost use Rattle.image_writer.specs.WriteImage.{ImageWritten};
ghost use Rattle.image_rewriter.specs.Rewrite.{Rewritten};
ghost use Rattle.weight_mover.specs.Run.{Ran};

use graph::Graph;
use transport_problem::Problem;

// Reads an image into lent lists: all of them, or none after a refusal.
#[unsafe(no_mangle)]
pub extern "C" fn mover_read(
    image: &[u8],
    a: &mut [u32],
    b: &mut [u32],
    lengths: &mut [u32],
    mu: &mut [u64],
    nu: &mut [u64],
    parents: &mut [u32],
    n: &mut usize,
    m: &mut usize,
    root: &mut usize,
    tree: &mut u32,
) -> u32
    ensures { Read image.now
        (lists a.old b.old lengths.old mu.old nu.old parents.old)
        result n.new m.new root.new tree.new
        (lists a.new b.new lengths.new mu.new nu.new parents.new) }
{
    match image_reader::read(image, a, b, lengths, mu, nu, parents) {
        Ok(reading) => {
            *n = reading.n;
            *m = reading.m;
            *root = reading.root.unwrap_or(0);
            *tree = reading.root.is_some() as u32;
            0
        }
        Err(refusal) => {
            *n = 0;
            *m = 0;
            *root = 0;
            *tree = 0;
            refusal.number()
        }
    }
}

// Writes an image with its sections back to back; without a tree, root and parents are not looked at.
#[unsafe(no_mangle)]
pub extern "C" fn mover_write_image(
    n: usize,
    a: &[u32],
    b: &[u32],
    lengths: &[u32],
    mu: &[u64],
    nu: &[u64],
    tree: bool,
    root: usize,
    parents: &[u32],
    buffer: &mut [u8],
    length: &mut usize,
) -> u32
    ensures { ImageWritten
        (contents (graph n a.now b.now lengths.now) mu.now nu.now tree root parents.now)
        buffer.old result length.new buffer.new }
{
    let graph = Graph { n, a, b, lengths };
    let problem = Problem { graph, mu, nu };
    match image_writer::write_image(&problem, tree.then_some((root, parents)), buffer) {
        Ok(image) => {
            *length = image;
            0
        }
        Err(refusal) => {
            *length = 0;
            refusal.number()
        }
    }
}

// Writes an image anew, or refuses it as the reader does.
#[unsafe(no_mangle)]
pub extern "C" fn mover_rewrite(image: &[u8], buffer: &mut [u8], length: &mut usize) -> u32
    ensures { Rewritten image.now buffer.old result length.new buffer.new }
{
    match image_rewriter::rewrite(image, buffer) {
        Ok(anew) => {
            *length = anew;
            0
        }
        Err(refusal) => {
            *length = 0;
            refusal.number()
        }
    }
}

// Answers an image by its record: 0, or a refusal number and the buffer as it came.
#[unsafe(no_mangle)]
pub extern "C" fn mover_run(image: &[u8], buffer: &mut [u8]) -> u32
    ensures { Ran image.now buffer.old result buffer.new }
{
    weight_mover::mover_run(image, buffer)
}
