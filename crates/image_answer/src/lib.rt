// The answer to an image: read, and its tree evaluated or the best answer found, into lent tables.
#![tactic(auto)]

ghost use Rattle.std.specs.Prelude.{◌≡◌, true, List, ℕ, ◌*◌, ◌≤◌, length, leb};
ghost use Rattle.image.specs.Image.{vertex_count};
ghost use Rattle.image_reader.specs.Read.{Lists, lists, Read};
ghost use Rattle.image_reader.specs.Reading.{root_number, tree_mark};
ghost use Rattle.host_record.specs.Record.{record_size};
ghost use Rattle.image_answer.specs.Steps.Answered.{Spacious, Answered};

use graph::Graph;
use image_reader::{Reading, read};
use optimal_transport::solve;
use refusals::Refusal;
use spanning_tree::tree::Tree;
use transport_problem::Problem;
use tree_evaluation::evaluate;

// A tree, whether the image gave it, its cost and the moves of its plan.
#[derive(Clone, Copy)]
pub struct Answer {
    pub tree: Tree,
    pub given: bool,
    pub cost: u64,
    pub moves: u32,
}

// How long the record of n vertices is.
fn record_size(n: usize) -> usize
    requires { n ≤ 64 }
    ensures { result ≡ record_size n }
{
    4 * (n * n) + 5 * n + 13
}

// Answers the image that was read into the first places of these tables: evaluates its tree, or finds the best answer.
fn answer_tables(
    found: Reading,
    a: &[u32],
    b: &[u32],
    lengths: &[u32],
    mu: &[u64],
    nu: &[u64],
    parents: &mut [u32],
    potential: &mut [i32; 64],
    plan: &mut [u32],
) -> Result<Answer, Refusal>
    requires { (found.m ≤ length a.now) × (found.m ≤ length b.now) × (found.m ≤ length lengths.now)
        × (found.n ≤ length mu.now) × (found.n ≤ length nu.now) × (found.n ≤ length parents.old) × (length parents.old ≡ 64)
        × (found.n * found.n ≤ length plan.old) }
    ensures { (s : List ℕ) (t : Lists) → Read s t 0 found.n found.m (root_number found.root) (tree_mark found.root)
        (lists a.now b.now lengths.now mu.now nu.now parents.old)
        → Answered s true potential.old plan.old result potential.new plan.new }
{
    let n = found.n;
    let m = found.m;
    let problem = Problem {
        graph: Graph {
            n,
            a: &a[..m],
            b: &b[..m],
            lengths: &lengths[..m],
        },
        mu: &mu[..n],
        nu: &nu[..n],
    };
    let Some(root) = found.root else {
        let best = solve(&problem, parents, potential, plan)?;
        return Ok(Answer {
            tree: Tree::new(n, 0, parents),
            given: false,
            cost: best.cost,
            moves: best.moves,
        });
    };
    let mut imbalance = [0i32; 64];
    let value = evaluate(
        &problem,
        root,
        &parents[..n],
        &mut imbalance,
        potential,
        plan,
    )?;
    Ok(Answer {
        tree: Tree::new(n, root, parents),
        given: true,
        cost: value.cost,
        moves: value.moves,
    })
}

// Answers an image: evaluates its tree, or finds the best answer. A host has room for a record of `room` bytes.
pub fn answer_image(
    image: &[u8],
    room: usize,
    potential: &mut [i32; 64],
    plan: &mut [u32],
) -> Result<Answer, Refusal>
    requires { Spacious image.now (length plan.old) }
    ensures { Answered image.now (leb (record_size (vertex_count image.now)) room)
        potential.old plan.old result potential.new plan.new }
{
    let mut a = [0u32; 512];
    let mut b = [0u32; 512];
    let mut l = [0u32; 512];
    let mut mu = [0u64; 64];
    let mut nu = [0u64; 64];
    let mut parents = [0u32; 64];
    let found = read(
        image,
        &mut a,
        &mut b,
        &mut l,
        &mut mu,
        &mut nu,
        &mut parents,
    )?;
    if record_size(found.n) > room {
        return Err(Refusal::Tables);
    }
    answer_tables(found, &a, &b, &l, &mu, &nu, &mut parents, potential, plan)
}
