// The distance call over a lent list of edge records: C's array of a struct of two ends and a length.
ghost use Rattle.std.specs.Prelude.{◌≡◌};
ghost use Rattle.distances.specs.Distances.{distances_refusal, distances_table};
ghost use Rattle.distances.specs.Records.{graph_of_records};

use distances::records::EdgeRecord;

// The answers and refusals of `mover_distances` on the three lists of the records' fields.
#[unsafe(no_mangle)]
pub extern "C" fn mover_distances_of_records(n: usize, edges: &[EdgeRecord], out: &mut [u32]) -> u32
    ensures { (result ≡ distances_refusal (graph_of_records n edges.now) out.old)
        × (out.new ≡ distances_table (graph_of_records n edges.now) out.old) }
{
    crate::number_of(distances::records::distances_of_records(n, edges, out))
}
