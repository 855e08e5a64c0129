// Edges with the cores of the tasks that they join, and the words that they move over the bus.
ghost use Rattle.std.specs.Prelude.{◌≡◌, ℕ, ◌+◌, ◌*◌, ◌^◌, ◌<◌, ◌≤◌, length};
ghost use Rattle.model.specs.Below.{at};
ghost use Rattle.model.specs.Contention.{moved};
ghost use Rattle.contention.specs.Columns.{raised, with_edge};
ghost use Rattle.contention.specs.Views.{as_plan, Among};

use crate::EdgeColumns;

// Edges, and the core of each task: what moves words is between tasks that have one.
#[derive(Clone, Copy)]
pub struct Moving<'a> {
    pub edges: EdgeColumns<'a>,
    pub cores: &'a [u32],
    pub ghost known: { Among (length cores.now) edges },
}

// `moved` words more for the read of task `to` and the write of task `from`.
#[tactic(auto, using(crate::proofs::Loads::raised_twice))]
fn raise(from: usize, to: usize, moved: u32, words: &mut [u32])
    requires write_in { 2 * from + 1 < length words.old }
    requires read_in { 2 * to < length words.old }
    requires read_fits { at words.old (2 * to) + moved < 2 ^ 32 }
    requires write_fits { at words.old (2 * from + 1) + moved < 2 ^ 32 }
    ensures { words.new ≡ raised words.old from to moved }
{
    words[2 * to] += moved;
    words[2 * from + 1] += moved;
}

impl Moving<'_> {
    // The words that edge e moves over the bus: none where both its tasks are on one core.
    #[tactic(auto, unfolding(model::specs::Contention::moved))]
    fn moved_by(&self, e: usize) -> u32
        requires { e < length self.now.edges.sources.now }
        ensures { result ≡ moved (as_plan 0 self.now.edges) (at self.now.cores.now) e }
    {
        let amount = u32::from(self.edges.amounts[e]);
        if amount == 0 {
            return 0;
        }
        let from = usize::from(self.edges.sources[e]);
        let to = usize::from(self.edges.targets[e]);
        if self.cores[from] == self.cores[to] {
            0
        } else {
            amount
        }
    }

    // Adds the words that edge e moves to the write of its source and the read of its target.
    #[tactic(auto, unfolding(crate::specs::Columns::with_edge))]
    pub fn add_edge(&self, e: usize, words: &mut [u32])
        requires edge_in { e < length self.now.edges.sources.now }
        requires room { 2 * length self.now.cores.now ≤ length words.old }
        requires loads { (x : ℕ) → x < 2 * length self.now.cores.now → at words.old x ≤ 4095 * e }
        ensures { words.new ≡ with_edge (as_plan 0 self.now.edges) (at self.now.cores.now) e words.old }
    {
        let moved = self.moved_by(e);
        if moved == 0 {
            return;
        }
        let from = usize::from(self.edges.sources[e]);
        let to = usize::from(self.edges.targets[e]);
        raise(from, to, moved, words);
    }
}
