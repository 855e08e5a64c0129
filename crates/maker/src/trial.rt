// The candidates of a plan in list order, tried place by place.
ghost use Rattle.std.specs.Prelude.{◌≡◌, ◌++◌, ℕ, ◌+◌, ◌*◌, ◌≤◌, ◌<◌, length, take, drop};
ghost use Rattle.model.specs.Below.{at};
ghost use Rattle.model.specs.Table.{numbers_at, bytes};
ghost use Rattle.model.specs.ListRule.{candidate, finished, makespan_of, chosen, winner};
ghost use Rattle.placing.specs.Candidates.{FewCores};
ghost use Rattle.maker.specs.Choosing.{span_choosing, by_task, Placed};
ghost use Rattle.maker.specs.Views.{plan_in, Within, table_by};

use crate::{ByPlace, place_of};
use contention::EdgeColumns;
use placing::Candidate;

// A candidate at work: the words of the edges within its places, its choices, and the columns that it is settled in. Arrays of the
// greatest size, since there is no heap.
#[derive(Drop)]
struct Trial {
    within: [u16; 256],
    choices: [u32; 64],
    cores: [u32; 64],
    core: [u32; 128],
    words: [u32; 128],
    lengths: [u32; 128],
    start: [u32; 128],
    end: [u32; 128],
}

impl Trial {
    // The candidate of the first n places, with its choices, settled: its makespan, and its windows in the columns.
    fn settle(&mut self, plan: &ByPlace<'_>, n: usize) -> u32
        requires places { n ≤ length plan.now.costs.now }
        requires within { Within plan.now n self.old.within }
        requires few_cores { FewCores (take n self.old.choices) n }
        ensures span { result ≡ makespan_of (candidate (plan_in plan.now) (take n self.old.choices)) }
        ensures within { self.new.within ≡ self.old.within }
        ensures choices { self.new.choices ≡ self.old.choices }
        ensures placed { Placed n (finished (candidate (plan_in plan.now) (take n self.old.choices))) self.new.cores self.new.start self.new.end }
    {
        let candidate = Candidate {
            bus: plan.bus,
            costs: &plan.costs[..n],
            edges: EdgeColumns {
                amounts: &self.within[..plan.edges.sources.len()],
                ..plan.edges
            },
            links: plan.links,
            choices: &self.choices[..n],
        };
        rounds::settle(
            candidate,
            &mut self.cores,
            &mut self.core,
            &mut self.words,
            &mut self.lengths,
            &mut self.start,
            &mut self.end,
        )
    }

    // The makespan with a choice for place k, behind those of the places before it.
    fn span_choosing(&mut self, plan: &ByPlace<'_>, k: usize, choice: u32) -> u32
        requires place_in { k < length plan.now.costs.now }
        requires within { Within plan.now (k + 1) self.old.within }
        requires kept { take k self.old.choices ≡ chosen (plan_in plan.now) k }
        requires few_cores { choice < 16 }
        ensures span { result ≡ span_choosing (plan_in plan.now) k choice }
        ensures within { self.new.within ≡ self.old.within }
        ensures kept { take k self.new.choices ≡ take k self.old.choices }
    {
        self.choices[k] = choice;
        self.settle(plan, k + 1)
    }

    // The choice of place k, behind those of the places before it: the first of those with the least makespan.
    #[tactic(auto, using(crate::proofs::Choosing::leading_none))]
    fn choose(&mut self, plan: &ByPlace<'_>, k: usize)
        requires place_in { k < length plan.now.costs.now }
        requires within { Within plan.now (k + 1) self.old.within }
        requires kept { take k self.old.choices ≡ chosen (plan_in plan.now) k }
        ensures { take (k + 1) self.new.choices ≡ chosen (plan_in plan.now) (k + 1) }
    {
        // no Option, which would be asked anew for each choice: marks stay under 2 ^ 31 (`marks_fit`), so this loses to any
        let mut least = u32::MAX;
        let mut best = 0;
        for choice in 0..2 * plan.bus.cores {
            let span = self.span_choosing(plan, k, choice);
            if span < least {
                least = span;
                best = choice;
            }
        }
        self.choices[k] = best;
    }

    // The choices of all places, in list order.
    #[tactic(auto, unfolding(model::specs::ListRule::chosen))]
    fn choose_all(&mut self, plan: &ByPlace<'_>)
        ensures { take (length plan.now.costs.now) self.new.choices ≡ chosen (plan_in plan.now) (length plan.now.costs.now) }
    {
        for k in 0..plan.costs.len() {
            plan.mask(k + 1, &mut self.within);
            self.choose(plan, k);
        }
    }

    // The numbers of task i.
    #[tactic(auto, unfolding(model::specs::Table::numbers_at))]
    fn row(&self, plan: &ByPlace<'_>, i: usize) -> [u32; 5]
        requires { i < length plan.now.costs.now }
        ensures { result ≡ numbers_at (table_by self.now plan.now) i }
    {
        let a = place_of(plan.order, i);
        let read = 2 * a;
        let write = read + 1;
        [
            self.cores[a],
            self.start[read],
            self.end[read],
            self.start[write],
            self.end[write],
        ]
    }

    // The bytes of the table, at the front of a lent output, which may be longer: so each function that fills it asks for the room.
    #[tactic(auto, using(table::proofs::Rows::byte_blocks))]
    fn put_table(&self, plan: &ByPlace<'_>, out: &mut [u8])
        requires few_cores { (a : ℕ) → a < length plan.now.costs.now → at self.now.cores a < 256 }
        requires room { 20 * length plan.now.costs.now ≤ length out.old }
        ensures { out.new ≡ bytes (table_by self.now plan.now) (length plan.now.costs.now) ++ drop (20 * length plan.now.costs.now) out.old }
    {
        for i in 0..plan.costs.len() {
            let row = self.row(plan, i);
            table::put_rows(&row, 1, &mut out[20 * i..20 * i + 20]);
        }
    }

    // The winner settled once more: its makespan, and the bytes of its table, by task, at the front of a lent output.
    fn finish(&mut self, plan: &ByPlace<'_>, out: &mut [u8]) -> u32
        requires chosen { take (length plan.now.costs.now) self.old.choices ≡ chosen (plan_in plan.now) (length plan.now.costs.now) }
        requires room { 20 * length plan.now.costs.now ≤ length out.old }
        ensures span { result ≡ makespan_of (winner (plan_in plan.now)) }
        ensures table { out.new ≡ bytes (by_task plan.now.order.now (finished (winner (plan_in plan.now)))) (length plan.now.costs.now) ++ drop (20 * length plan.now.costs.now) out.old }
    {
        let tasks = plan.costs.len();
        plan.mask(tasks, &mut self.within);
        let span = self.settle(plan, tasks);
        self.put_table(plan, out);
        span
    }
}

// A plan in list order scheduled: the makespan, and the table's bytes, by task, at the front of a lent output.
pub fn schedule(plan: &ByPlace<'_>, out: &mut [u8]) -> u32
    requires { 20 * length plan.now.costs.now ≤ length out.old }
    ensures span { result ≡ makespan_of (winner (plan_in plan.now)) }
    ensures table { out.new ≡ bytes (by_task plan.now.order.now (finished (winner (plan_in plan.now)))) (length plan.now.costs.now) ++ drop (20 * length plan.now.costs.now) out.old }
{
    let mut trial = Trial {
        within: [0; 256],
        choices: [0; 64],
        cores: [0; 64],
        core: [0; 128],
        words: [0; 128],
        lengths: [0; 128],
        start: [0; 128],
        end: [0; 128],
    };
    trial.choose_all(plan);
    trial.finish(plan, out)
}
