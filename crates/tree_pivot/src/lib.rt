// The pivot of the network simplex: a subtree is cut off and hung elsewhere, and every table of the basis follows.
#![tactic(auto)]

ghost use Rattle.std.specs.Prelude.{◌≡◌, ◌≤◌, ◌<◌, length};
ghost use Rattle.arithmetic.specs.Steps.Product.{gap};
ghost use Rattle.arithmetic.specs.Table.{at};
ghost use Rattle.tree_pivot.specs.Steps.Pivot.{Cut};
ghost use Rattle.tree_pivot.specs.Steps.PathReversal.{PathReversed};
ghost use Rattle.tree_pivot.specs.Steps.PivotTables.{CanShift, CanComplement, PathShifted, PathComplemented, CanMove, TotalsMoved};
ghost use Rattle.tree_pivot.specs.Steps.PivotPotential.{violation};
ghost use Rattle.tree_pivot.specs.Steps.Basis.{tables_of, Some, Every};
ghost use Rattle.tree_pivot.specs.Steps.PivotBasis.{CommonAncestor, CanPivot, CheaperBasis};

use vertex_set::{shift_word, shifted};

// An exchange: the edge between a and b, of length `long`, enters the tree, and the edge above `leaving` leaves it. The subtree of `leaving`, in which a is and b is
// not, hangs by a on b then; its potential rises or falls until the edge is tight. `ancestor` is above a and b.
#[derive(Clone, Copy)]
pub struct Exchange {
    pub a: usize,
    pub b: usize,
    pub leaving: usize,
    pub ancestor: usize,
    pub long: u32,
    pub rises: bool,
}

// What is below a vertex: the masses sent and taken there, and the mask of its subtree.
#[derive(Clone, Copy)]
struct Subtree {
    supply: u64,
    demand: u64,
    mask: u64,
}

// The same of every vertex. Three tables, and not one of Subtree: the laws of a pivot speak of a table of numbers. Of 64 places: no heap, fixed memory.
#[derive(Drop)]
pub struct Subtrees {
    pub supply: [u64; 64],
    pub demand: [u64; 64],
    pub masks: [u64; 64],
}

impl Subtrees {
    // What is below y.
    fn of_vertex(&self, y: usize) -> Subtree
        requires { y < 64 }
        ensures { (result.supply ≡ at self.now.supply y) × ((result.demand ≡ at self.now.demand y) × (result.mask ≡ at self.now.masks y)) }
    {
        Subtree {
            supply: self.supply[y],
            demand: self.demand[y],
            mask: self.masks[y],
        }
    }

    // Raises or lowers by d what is below each vertex from `from` up to `stop`, and not below `stop`.
    fn shift_path(
        &mut self,
        n: usize,
        root: usize,
        parents: &[u32; 64],
        from: usize,
        stop: usize,
        rises: bool,
        d: Subtree,
    )
        requires { CanShift n root parents.now from stop rises d.supply self.old.supply
            × (CanShift n root parents.now from stop rises d.demand self.old.demand
            × CanShift n root parents.now from stop rises d.mask self.old.masks) }
        ensures { PathShifted n parents.now from stop rises d.supply self.old.supply self.new.supply
            × (PathShifted n parents.now from stop rises d.demand self.old.demand self.new.demand
            × PathShifted n parents.now from stop rises d.mask self.old.masks self.new.masks) }
    {
        let mut y = from;
        while y != stop {
            self.supply[y] = shifted(rises, d.supply, self.supply[y]);
            self.demand[y] = shifted(rises, d.demand, self.demand[y]);
            self.masks[y] = shifted(rises, d.mask, self.masks[y]);
            y = parents[y] as usize;
        }
    }

    // Reverses the path from a up to `stop`: what is now below a vertex is all but what was below the one before it.
    fn complement_path(
        &mut self,
        n: usize,
        root: usize,
        parents: &[u32; 64],
        a: usize,
        stop: usize,
        total: Subtree,
    )
        requires { CanComplement n root parents.now a stop total.supply self.old.supply
            × (CanComplement n root parents.now a stop total.demand self.old.demand
            × CanComplement n root parents.now a stop total.mask self.old.masks) }
        ensures { PathComplemented n parents.now a stop total.supply self.old.supply self.new.supply
            × (PathComplemented n parents.now a stop total.demand self.old.demand self.new.demand
            × PathComplemented n parents.now a stop total.mask self.old.masks self.new.masks) }
    {
        let mut y = a;
        let mut before = Subtree {
            supply: 0,
            demand: 0,
            mask: 0,
        };
        while y != stop {
            let own = self.of_vertex(y);
            self.supply[y] = total.supply - before.supply;
            self.demand[y] = total.demand - before.demand;
            self.masks[y] = total.mask - before.mask;
            before = own;
            y = parents[y] as usize;
        }
    }

    // Moves what is in the cut subtree to where a hangs on b.
    fn hang(&mut self, n: usize, root: usize, parents: &[u32; 64], x: Exchange)
        requires { CanMove n root parents.now x.a x.b x.leaving x.ancestor self.old.supply
            × (CanMove n root parents.now x.a x.b x.leaving x.ancestor self.old.demand
            × CanMove n root parents.now x.a x.b x.leaving x.ancestor self.old.masks) }
        ensures { TotalsMoved n root parents.now x.a x.b x.leaving self.old.supply self.new.supply
            × (TotalsMoved n root parents.now x.a x.b x.leaving self.old.demand self.new.demand
            × TotalsMoved n root parents.now x.a x.b x.leaving self.old.masks self.new.masks) }
    {
        let c = x.leaving;
        let total = self.of_vertex(c);
        let over = parents[c] as usize;
        self.shift_path(n, root, parents, over, x.ancestor, false, total);
        self.shift_path(n, root, parents, x.b, x.ancestor, true, total);
        self.complement_path(n, root, parents, x.a, over, total);
    }
}

// Hangs the cut subtree by a on b: each vertex on the path from a up to the leaving one gets the vertex before it for its parent, with the length of that edge.
fn reverse_path(n: usize, root: usize, x: Exchange, parents: &mut [u32; 64], above: &mut [u32; 64])
    requires { (n ≤ 64) × Cut n root (at parents.old) x.a x.b x.leaving × (length parents.old ≡ 64) × (length above.old ≡ 64) }
    ensures { PathReversed n parents.old above.old root x.a x.b x.leaving x.long
        parents.new above.new }
{
    let c = x.leaving;
    let stop = parents[c] as usize;
    let b = x.b;
    let mut y = x.a;
    let mut before = b;
    let mut length = x.long;
    while y != stop {
        let next = parents[y] as usize;
        let own = above[y];
        parents[y] = before as u32;
        above[y] = length;
        before = y;
        length = own;
        y = next;
    }
}

// By how much potentials u and w are further apart than an edge is long.
fn violation(u: u32, w: u32, long: u32) -> u32
    requires { long ≤ gap u w }
    ensures { result ≡ violation u w long }
{
    u.abs_diff(w) - long
}

// A basis: a spanning tree with root 0, by the parent of each vertex and the length of the edge above it; what is below each vertex; and the potential of each.
#[derive(Drop)]
pub struct Basis {
    pub parents: [u32; 64],
    pub above: [u32; 64],
    pub subtrees: Subtrees,
    pub potential: [u32; 64],
}

impl Basis {
    // The pivot: the basis becomes a cheaper one.
    pub fn pivot(&mut self, n: usize, x: Exchange)
        requires { Some n (λ g m v.
            CanPivot g m v x.a x.b x.leaving x.long x.rises (tables_of self.old)
            × CommonAncestor n (at self.old.parents) x.a x.b x.ancestor) }
        ensures { Every n (λ g m v.
            CanPivot g m v x.a x.b x.leaving x.long x.rises (tables_of self.old)
            → CheaperBasis g m v (tables_of self.old) (tables_of self.new)) }
    {
        self.subtrees.hang(n, 0, &self.parents, x);
        reverse_path(n, 0, x, &mut self.parents, &mut self.above);
        let d = violation(self.potential[x.a], self.potential[x.b], x.long);
        shift_word(n, self.subtrees.masks[x.a], x.rises, d, &mut self.potential);
    }
}
