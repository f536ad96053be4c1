// The edges at each vertex as linked lists, the field's forward star. Edge e is two arcs: 2e from its lower end and 2e + 1 from its upper end. From each vertex
// a list leads from the last arc there back to the first.
#![tactic(auto)]

ghost use Rattle.std.specs.Prelude.{◌≡◌, ◌+◌, ◌*◌, ◌<◌, length, set};
ghost use Rattle.arithmetic.specs.Table.{at};
ghost use Rattle.forward_star.specs.Steps.Linked.{tail, CanLink, Linked};

// `last` has the last arc at each vertex, and `before` the one before each arc at its vertex. A table holds one more than the number of an arc, and 0 for none: the
// lists lie in tables of numbers, as the library has no heap.
#[derive(Clone, Copy)]
pub struct ForwardStar {
    pub last: [u32; 64],
    pub before: [u32; 1024],
}

impl ForwardStar {
    // Puts arc k before the others at x.
    fn link_arc(&mut self, k: usize, x: usize)
        requires { (k < 1024) × (x < 64) }
        ensures { (self.new.last ≡ set self.old.last x (k + 1))
            × (self.new.before ≡ set self.old.before k (at self.old.last x)) }
    {
        self.before[k] = self.last[x];
        self.last[x] = k as u32 + 1;
    }

    // The arcs of the edges, linked.
    pub fn link_edges(a: &[u32], b: &[u32]) -> ForwardStar
        requires { CanLink a.now b.now }
        ensures { Linked (tail a.now b.now) (2 * length a.now) result.last result.before }
    {
        let mut star = ForwardStar {
            last: [0; 64],
            before: [0; 1024],
        };
        for e in 0..a.len() {
            star.link_arc(2 * e, a[e] as usize);
            star.link_arc(2 * e + 1, b[e] as usize);
        }
        star
    }
}
