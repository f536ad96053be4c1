// A sheet of outcomes: how many there are of each number, and what the costs of the accepted ones come to.
#![tactic(auto)]

ghost use Rattle.std.specs.Prelude.{◌≡◌, ℕ, ◌+◌, ◌^◌, ◌≤◌, ◌<◌, length};
ghost use Rattle.arithmetic.specs.Table.{at, tab, written};
ghost use Rattle.cost_sheet.specs.Steps.Sheet.{Tells};

// The numbers that are counted are below this.
pub const PLACES: usize = 24;

// In place k the number of outcomes with the number k, 0 for the accepted ones; the sum of their costs, the greatest, and the first that has it.
#[derive(Clone, Copy)]
pub struct Sheet {
    pub tally: [u32; 24],
    pub sum: u64,
    pub greatest: u64,
    pub first: Option<usize>,
}

impl Sheet {
    // No outcome yet.
    pub fn new() -> Sheet
        ensures { (number cost : ℕ → ℕ) → Tells 0 number cost result }
    {
        Sheet {
            tally: [0u32; 24],
            sum: 0,
            greatest: 0,
            first: None,
        }
    }

    // One outcome more, the i-th: a refusal's number, or 0 and a cost. It stays a number: the clause takes any below 24, and the sheet knows nothing
    // of the refusals.
    pub fn with(mut self, i: usize, refusal: u32, cost: u64) -> Sheet
        requires { (refusal < 24) × (at self.tally refusal + 1 < 2 ^ 32) × (refusal ≡ 0 → self.sum + cost < 2 ^ 64) }
        ensures { (numbers costs : ℕ → ℕ) → Tells i numbers costs self → refusal ≡ numbers i → (refusal ≡ 0 → cost ≡ costs i)
            → Tells (i + 1) numbers costs result }
    {
        let k = refusal as usize;
        self.tally[k] += 1;
        if refusal != 0 {
            return self;
        }
        self.sum += cost;
        if self.first.is_none() || self.greatest < cost {
            self.greatest = cost;
            self.first = Some(i);
        }
        self
    }
}

// Fills the first places of a lent table with the counts.
pub fn write_tally(tally: [u32; 24], out: &mut [u32])
    requires { 24 ≤ length out.old }
    ensures { out.new ≡ written 0 (tab 24 (at tally)) out.old }
{
    out[..PLACES].copy_from_slice(&tally);
}
