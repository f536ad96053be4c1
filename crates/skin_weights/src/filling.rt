// A list filled from another.
ghost use Rattle.std.specs.Prelude.{ℕ, ◌≡◌, ◌≤◌, ◌<◌, length, slice_index_or};
ghost use Rattle.arithmetic.specs.Table.{tab, written};
ghost use Rattle.skin_weights.specs.Steps.Filling.{Makes};

// Fills the first places of `out` with what f makes of the items: where that is g's, with g's.
pub fn fill_by<A: Copy, B: Copy, F: Fn(A) -> B>(items: &[A], out: &mut [B], f: F)
    requires room { length items.now ≤ length out.old }
    requires callable { (i : ℕ) (x : A) → i < length items.now → x ≡ slice_index_or items.now i x → F.pre f x }
    ensures { (g : ℕ → B) → Makes (F.post f) items.now g → out.new ≡ written 0 (tab (length items.now) g) out.old }
{
    for (i, x) in items.iter().enumerate() {
        out[i] = f(*x);
    }
}
