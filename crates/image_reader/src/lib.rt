// The image reader.
#![tactic(auto)]

mod reading; // what the reader returns
mod sections; // what the sections hold

ghost use Rattle.refusals.specs.Refusals.{number_of};
ghost use Rattle.image_reader.specs.Steps.Held.{Held, Counted, Least};
ghost use Rattle.image_reader.specs.Read.{Read, lists};
ghost use Rattle.image_reader.specs.Reading.{root_number, tree_mark, n_of, m_of, root_of, mark_of};

use image::{check, edge_count, vertex_count};
pub use reading::Reading;
use refusals::Refusal;
use sections::{fill_amounts, fill_edges, fill_parents, root};

// What is returned of an accepted image.
fn counts(image: &[u8]) -> Reading
    requires { Held image.now }
    ensures { Counted image.now 0 result.n result.m (root_number result.root) (tree_mark result.root) }
{
    Reading {
        n: vertex_count(image),
        m: edge_count(image),
        root: root(image),
    }
}

// The room that tables of these lengths have in common.
#[tactic(auto, using(std::proofs::lemmas::Bool::Decides::nat_tests))]
fn room(x: usize, y: usize, z: usize) -> usize
    ensures { Least result x y z }
{
    x.min(y).min(z)
}

// Reads an image into lent lists: all of them, or none after a refusal.
pub fn read(
    image: &[u8],
    a: &mut [u32],
    b: &mut [u32],
    lengths: &mut [u32],
    mu: &mut [u64],
    nu: &mut [u64],
    parents: &mut [u32],
) -> Result<Reading, Refusal>
    ensures { Read image.now
        (lists a.old b.old lengths.old mu.old nu.old parents.old)
        (number_of result) (n_of result) (m_of result) (root_of result) (mark_of result)
        (lists a.new b.new lengths.new mu.new nu.new parents.new) }
{
    let edges = room(a.len(), b.len(), lengths.len());
    let vertices = room(mu.len(), nu.len(), parents.len());
    check(image, edges, vertices)?;
    fill_edges(image, a, b, lengths);
    fill_amounts(image, 0, mu);
    fill_amounts(image, 1, nu);
    fill_parents(image, parents);
    Ok(counts(image))
}
