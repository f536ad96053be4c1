// The distance call over a lent list of edge records.
ghost use Rattle.std.specs.Prelude.{◌≡◌, ◌≤◌, length};
ghost use Rattle.refusals.specs.Refusals.{number_of};
ghost use Rattle.distances.specs.Distances.{distances_refusal, distances_table};
ghost use Rattle.distances.specs.Records.{graph_of_records};
ghost use Rattle.distances.specs.Steps.Records.{columns_of};

use graph::Graph;
use graph::edges::vertices_fit;
use refusals::Refusal;

// An edge as C lays it out: hosts lend lists of them.
#[repr(C)]
#[derive(Clone, Copy)]
pub struct EdgeRecord {
    pub a: u32,
    pub b: u32,
    pub length: u32,
}

// The fields of up to 512 edges, each in a table of its own: a graph is lent as three lists, and the library has no heap for them.
#[derive(Drop)]
struct Columns {
    a: [u32; 512],
    b: [u32; 512],
    lengths: [u32; 512],
}

// The edges, field by field.
fn take_apart(edges: &[EdgeRecord]) -> Columns
    requires { length edges.now ≤ 512 }
    ensures { result ≡ columns_of edges.now (length edges.now) }
{
    let mut columns = Columns {
        a: [0; 512],
        b: [0; 512],
        lengths: [0; 512],
    };
    for (i, e) in edges.iter().enumerate() {
        columns.a[i] = e.a;
        columns.b[i] = e.b;
        columns.lengths[i] = e.length;
    }
    columns
}

// The answers and refusals of `distances` on the three lists of the records' fields.
pub fn distances_of_records(n: usize, edges: &[EdgeRecord], out: &mut [u32]) -> Result<(), Refusal>
    ensures { (number_of result ≡ distances_refusal (graph_of_records n edges.now) out.old)
        × (out.new ≡ distances_table (graph_of_records n edges.now) out.old) }
{
    let m = edges.len();
    if m > 512 {
        if vertices_fit(n) {
            return Err(Refusal::Tables);
        }
        return Err(Refusal::Vertices);
    }
    let c = take_apart(edges);
    let g = Graph {
        n,
        a: &c.a[..m],
        b: &c.b[..m],
        lengths: &c.lengths[..m],
    };
    crate::distances(&g, out)
}
