// A table in working memory beside the plan that it is judged by, and the rules that need no delays.
ghost use Rattle.std.specs.Prelude.{◌≡◌, ◌+◌, ◌*◌, ◌≤◌, ◌<◌, ◌++◌, length, drop};
ghost use Rattle.model.specs.Below.{list_below};
ghost use Rattle.model.specs.Plan.{Valid};
ghost use Rattle.model.specs.Refusals.{refuse_if, first_bad};
ghost use Rattle.model.specs.Contention.{phase_words};
ghost use Rattle.model.specs.Rules.{execute_at, edge_at, crossing, cross_at, makespan};
ghost use Rattle.contention.specs.Columns.{core_column, start_column, end_column};
ghost use Rattle.verifier.specs.Columns.{plan_by};

use contention::EdgeColumns;
use model::{Bus, Fault, Refusal, Side};

// The plan in columns, by task and by edge, and the table's numbers, five for each task.
#[derive(Clone, Copy)]
pub struct PlannedTable<'a> {
    pub bus: Bus,
    pub costs: &'a [u16],
    pub edges: EdgeColumns<'a>,
    pub table: &'a [u32],
    pub ghost valid: { Valid (plan_by bus costs.now edges.sources.now edges.targets.now edges.amounts.now) },
    pub ghost whole: { 5 * length costs.now ≤ length table.now },
}

// Refuses at a task's field where a rule is broken.
pub fn refuse_at(broken: bool, fault: Fault, task: usize) -> Result<(), Refusal>
    requires { task < 64 }
    ensures { result ≡ refuse_if broken (record { fault = fault; side = Side.OfTable; place = 20 * task }) }
{
    model::refuse_if(broken, Refusal::new(fault, Side::OfTable, 20 * task))
}

// A task's core and its span, from its read start to its end.
#[derive(Clone, Copy)]
struct Span {
    core: u32,
    from: u32,
    to: u32,
}

impl Span {
    // Two spans on one core share time.
    #[tactic(auto, unfolding(model::specs::Rules::crossing))]
    fn crosses(self, other: Span) -> bool
        ensures { result ≡ crossing self.core self.from self.to other.core other.from other.to }
    {
        self.core == other.core && self.from.max(other.from) < self.to.min(other.to)
    }
}

impl PlannedTable<'_> {
    ghost use Rattle.verifier.specs.Views.{plan_in, table_in, span_in};

    // 12: task i's execute window lasts at least its execute time.
    #[tactic(auto, unfolding(model::specs::Rules::execute_at))]
    pub fn execute_at(&self, i: usize) -> Result<(), Refusal>
        requires { i < length self.now.costs.now }
        ensures { result ≡ execute_at (plan_in self.now) (table_in self.now) i }
    {
        let starts = u64::from(table::execute_start(self.table, i));
        let ends = u64::from(table::write_start(self.table, i));
        let cost = u64::from(self.costs[i]);
        refuse_at(ends < starts + cost, Fault::ExecuteShort, i)
    }

    // 13: the target of edge e reads no earlier than its source has ended.
    #[tactic(auto, unfolding(model::specs::Rules::edge_at))]
    pub fn edge_at(&self, e: usize) -> Result<(), Refusal>
        requires { e < length self.now.edges.sources.now }
        ensures { result ≡ edge_at (plan_in self.now) (table_in self.now) e }
    {
        let source = usize::from(self.edges.sources[e]);
        let target = usize::from(self.edges.targets[e]);
        let starts = table::read_start(self.table, target);
        let ended = table::end_at(self.table, source);
        refuse_at(starts < ended, Fault::ReadEarly, target)
    }

    fn span(&self, i: usize) -> Span
        requires { i < length self.now.costs.now }
        ensures { result ≡ span_in (table_in self.now) i }
    {
        Span {
            core: table::core_at(self.table, i),
            from: table::read_start(self.table, i),
            to: table::end_at(self.table, i),
        }
    }

    // 14: task i's span and those of all higher tasks share no time of a core. A loop of its own: `first_bad` would begin at task 0.
    #[tactic(auto, using(crate::proofs::Checks::pairs))]
    pub fn cross_from(&self, i: usize) -> Result<(), Refusal>
        requires { i < length self.now.costs.now }
        ensures { result ≡ first_bad (cross_at (table_in self.now) i) (length self.now.costs.now) }
    {
        let span = self.span(i);
        for j in i + 1..self.costs.len() {
            refuse_at(span.crosses(self.span(j)), Fault::SpansCross, j)?;
        }
        Ok(())
    }

    // The greatest end.
    #[tactic(auto, using(model::proofs::Below::join_none, model::proofs::Below::join_step))]
    pub fn makespan(&self) -> u32
        ensures { result ≡ makespan (length self.now.costs.now) (table_in self.now) }
    {
        let mut most = 0;
        for i in 0..self.costs.len() {
            most = most.max(table::end_at(self.table, i));
        }
        most
    }

    // The core of each task.
    #[tactic(auto, using(contention::proofs::Columns::filling))]
    fn fill_cores(&self, cores: &mut [u32])
        requires { length cores.old ≡ length self.now.costs.now }
        ensures { cores.new ≡ list_below (table_in self.now).core (length self.now.costs.now) }
    {
        for i in 0..cores.len() {
            cores[i] = table::core_at(self.table, i);
        }
    }

    // Core and window of each phase. Three lent columns and not a struct of them: what such a struct holds is not known any
    // more where one of its columns is lent on.
    #[tactic(auto, using(contention::proofs::Columns::filling))]
    fn fill_windows(&self, core: &mut [u32], start: &mut [u32], end: &mut [u32])
        requires { (128 ≤ length core.old) × (128 ≤ length start.old) × (128 ≤ length end.old) }
        ensures core { core.new ≡ core_column (length self.now.costs.now) (table_in self.now) ++ drop (2 * length self.now.costs.now) core.old }
        ensures start { start.new ≡ start_column (length self.now.costs.now) (table_in self.now) ++ drop (2 * length self.now.costs.now) start.old }
        ensures end { end.new ≡ end_column (length self.now.costs.now) (table_in self.now) ++ drop (2 * length self.now.costs.now) end.old }
    {
        for x in 0..2 * self.costs.len() {
            core[x] = table::phase_core(self.table, x);
            start[x] = table::phase_start(self.table, x);
            end[x] = table::phase_end(self.table, x);
        }
    }

    // The phases of all tasks, into lent columns: core, window and words.
    #[tactic(auto, using(crate::proofs::Ruling::words_plan))]
    pub fn fill_phases(
        &self,
        core: &mut [u32],
        start: &mut [u32],
        end: &mut [u32],
        words: &mut [u32],
    )
        requires { (128 ≤ length core.old) × (128 ≤ length start.old) × (128 ≤ length end.old) × (128 ≤ length words.old) }
        ensures core { core.new ≡ core_column (length self.now.costs.now) (table_in self.now) ++ drop (2 * length self.now.costs.now) core.old }
        ensures start { start.new ≡ start_column (length self.now.costs.now) (table_in self.now) ++ drop (2 * length self.now.costs.now) start.old }
        ensures end { end.new ≡ end_column (length self.now.costs.now) (table_in self.now) ++ drop (2 * length self.now.costs.now) end.old }
        ensures words { words.new ≡ phase_words (plan_in self.now) (table_in self.now).core ++ drop (2 * length self.now.costs.now) words.old }
    {
        let mut cores = [0; 64];
        let cores = &mut cores[..self.costs.len()];
        self.fill_cores(cores);
        contention::phase_words(self.edges, cores, words);
        self.fill_windows(core, start, end);
    }
}
