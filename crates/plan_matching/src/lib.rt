// The plan's rule in a subtree: surpluses matched with deficits.
#![tactic(auto)]

ghost use Rattle.std.specs.Prelude.{◌≡◌, ◌-◌, ◌≤◌, ◌<◌, ◌^◌};
ghost use Rattle.arithmetic.specs.Table.{at};
ghost use Rattle.arithmetic.specs.Steps.Mask.{bit};
ghost use Rattle.arithmetic.specs.Mask.{mask};
ghost use Rattle.plan_rule.specs.Plan.{matched};
ghost use Rattle.plan_matching.specs.Steps.Residue.{residue, positive, Consistent, Done, sends_least};

use tables::place;
use vertex_set::{lowest_vertex, word_of};

// What remains of ξ: who has a surplus and who a deficit, as words, and how much. Tables of 64 places: there is no heap.
#[derive(Drop)]
pub struct Residue {
    pub senders: u64,
    pub receivers: u64,
    pub surplus: [u32; 64],
    pub deficit: [u32; 64],
}

// The word, without vertex x if nothing is left there.
fn without_empty(word: u64, x: usize, left: u32) -> u64
    requires { (x < 64) × (2 ^ x ≤ word) }
    ensures { (left ≡ 0 → result ≡ word - 2 ^ x) × ((left ≡ 0 → ⊥) → result ≡ word) }
{
    if left == 0 { word - (1u64 << x) } else { word }
}

impl Residue {
    // The residue of n vertices with these amounts.
    pub fn new(n: usize, surplus: [u32; 64], deficit: [u32; 64]) -> Residue
        requires { n ≤ 64 }
        ensures { result ≡ residue (positive n surplus) (positive n deficit) surplus deficit }
    {
        Residue {
            senders: word_of(n, |x| 0 < surplus[x]),
            receivers: word_of(n, |x| 0 < deficit[x]),
            surplus,
            deficit,
        }
    }

    // One move: i sends to j the smaller of its surplus and j's deficit.
    fn send(&mut self, n: usize, i: usize, j: usize, plan: &mut [u32])
        requires { (i < n) × (j < n) × (0 < at self.old.surplus i) × (0 < at self.old.deficit j)
            × Consistent n self.old plan.old }
        ensures { Done n (sends_least i j) self.old plan.old self.new plan.new }
    {
        let amount = self.surplus[i].min(self.deficit[j]);
        let rest = self.surplus[i] - amount;
        let lack = self.deficit[j] - amount;
        plan[place(n, i, j)] += amount;
        self.surplus[i] = rest;
        self.deficit[j] = lack;
        self.senders = without_empty(self.senders, i, rest);
        self.receivers = without_empty(self.receivers, j, lack);
    }

    // The moves among the vertices of a subtree, until one side is empty.
    pub fn match_subtree(&mut self, n: usize, below: u64, plan: &mut [u32])
        requires { (below ≡ mask n (bit below)) × Consistent n self.old plan.old }
        ensures { Done n (matched n (bit below) n) self.old plan.old self.new plan.new }
    {
        loop {
            let from = below & self.senders;
            let to = below & self.receivers;
            if from == 0 || to == 0 {
                return;
            }
            let i = lowest_vertex(n, from);
            let j = lowest_vertex(n, to);
            self.send(n, i, j, plan);
        }
    }
}
