// The verifier: the windows of a table judged by every rule, on a plan's columns and a table's numbers.
#![tactic(auto)]

ghost use Rattle.std.specs.Prelude.{◌≡◌, ◌++◌, ℕ, ◌+◌, ◌*◌, ◌≤◌, ◌<◌, length, drop, IfOk};
ghost use Rattle.model.specs.Below.{at};
ghost use Rattle.model.specs.Refusals.{first_bad};
ghost use Rattle.model.specs.Contention.{phases_of};
ghost use Rattle.model.specs.Rules.{window_at};
ghost use Rattle.model.specs.Answers.{verdict_of};
ghost use Rattle.contention.specs.Views.{as_phases};
ghost use Rattle.verifier.specs.Columns.{lasts_at};
ghost use Rattle.verifier.specs.Judging.{Shown, ruled, judgement_of, column_of, phase_cores, phase_starts, phase_ends, phase_loads};
ghost use Rattle.verifier.specs.Views.{plan_in, table_in};

use contention::{EdgeColumns, PhaseColumns};
use model::{Bus, Fault, Refusal, Time};
use plan::Columns;
use planned::PlannedTable;

mod planned;

// 15: the window of phase x lasts at least its delay.
#[tactic(auto, unfolding(crate::specs::Columns::lasts_at))]
fn window_at(phases: PhaseColumns<'_>, delays: &[u32], x: usize) -> Result<(), Refusal>
    requires { (x < length phases.core.now) × (x < length delays.now) }
    ensures { result ≡ lasts_at phases.entry.start.now phases.entry.end.now delays.now x }
{
    let due = u64::from(phases.start[x]) + u64::from(delays[x]);
    planned::refuse_at(u64::from(phases.end[x]) < due, Fault::WindowShort, x / 2)
}

// Of all phases, by their delays.
fn each_window(phases: PhaseColumns<'_>, delays: &[u32]) -> Result<(), Refusal>
    requires { length phases.core.now ≤ length delays.now }
    ensures { result ≡ first_bad (lasts_at phases.entry.start.now phases.entry.end.now delays.now) (length phases.entry.core.now) }
{
    model::first_bad(phases.core.len(), |x| window_at(phases, delays, x))
}

// Of all phases, once the delays are known.
fn windows(planned: &PlannedTable<'_>, phases: PhaseColumns<'_>) -> Result<(), Refusal>
    requires { Shown (as_phases phases) (plan_in planned.now) (table_in planned.now) }
    ensures { result ≡ first_bad (window_at planned.now.bus (phases_of (plan_in planned.now) (table_in planned.now))) (2 * length planned.now.costs.now) }
{
    let mut delays = [0; 128];
    contention::delays_of_phases(planned.bus, phases, &mut delays);
    each_window(phases, &delays)
}

// What the rules find of a table that obeys them all: its makespan, and what of the plan its phases are read by.
#[derive(Clone, Copy, Debug, PartialEq, Eq)]
pub struct Obeyed {
    pub bus: Bus,
    pub tasks: usize,
    pub makespan: Time,
}

// All rules, on a table and its phases, which are left in the lent columns.
#[tactic(auto, unfolding(crate::specs::Judging::ruled, model::specs::Rules::rules_check))]
fn rules(
    planned: &PlannedTable<'_>,
    core: &mut [u32],
    start: &mut [u32],
    end: &mut [u32],
    words: &mut [u32],
) -> Result<Obeyed, Refusal>
    requires { (128 ≤ length core.old) × (128 ≤ length start.old) × (128 ≤ length end.old) × (128 ≤ length words.old) }
    ensures answer { result ≡ ruled (plan_in planned.now) (table_in planned.now) }
    ensures few { IfOk result (λ obeyed. obeyed.tasks ≤ 64) }
    ensures core { core.new ≡ phase_cores (plan_in planned.now) (table_in planned.now) ++ drop (2 * length planned.now.costs.now) core.old }
    ensures start { start.new ≡ phase_starts (plan_in planned.now) (table_in planned.now) ++ drop (2 * length planned.now.costs.now) start.old }
    ensures end { end.new ≡ phase_ends (plan_in planned.now) (table_in planned.now) ++ drop (2 * length planned.now.costs.now) end.old }
    ensures words { words.new ≡ phase_loads (plan_in planned.now) (table_in planned.now) ++ drop (2 * length planned.now.costs.now) words.old }
{
    planned.fill_phases(core, start, end, words);
    let phases = PhaseColumns {
        core: &core[..2 * planned.costs.len()],
        start,
        end,
        words,
    };
    let tasks = planned.costs.len();
    model::first_bad(tasks, |i| planned.execute_at(i))?;
    model::first_bad(planned.edges.sources.len(), |e| planned.edge_at(e))?;
    model::first_bad(tasks, |i| planned.cross_from(i))?;
    windows(planned, phases)?;
    Ok(Obeyed {
        bus: planned.bus,
        tasks,
        makespan: Time(planned.makespan()),
    })
}

// A table's bytes judged by a plan's. The phases of a table that reads are left in the lent columns, which are four and no struct
// for the reason that `fill_windows` has.
#[tactic(auto, using(model::proofs::ReadBack::rows_length), unfolding(crate::specs::Judging::judgement_of, crate::specs::Judging::column_of, crate::specs::Judging::ruled, model::specs::Answers::judged, model::specs::Table::table_of))]
pub fn judge(
    plan: &[u8],
    table: &[u8],
    core: &mut [u32],
    start: &mut [u32],
    end: &mut [u32],
    words: &mut [u32],
) -> Result<Obeyed, Refusal>
    requires { (128 ≤ length core.old) × (128 ≤ length start.old) × (128 ≤ length end.old) × (128 ≤ length words.old) }
    ensures answer { result ≡ judgement_of plan.now table.now }
    ensures few { IfOk result (λ obeyed. obeyed.tasks ≤ 64) }
    ensures phases { (core.new ≡ column_of phase_cores plan.now table.now core.old) × (start.new ≡ column_of phase_starts plan.now table.now start.old) × (end.new ≡ column_of phase_ends plan.now table.now end.old) × (words.new ≡ column_of phase_loads plan.now table.now words.old) }
{
    let mut columns = Columns::new();
    columns.read(plan)?;
    let tasks = columns.tasks;
    let edges = columns.edges;
    table::table_check(columns.bus.cores, tasks, table)?;
    let mut numbers = [0; 320];
    table::take_rows(table, tasks, &mut numbers);
    let planned = PlannedTable {
        bus: columns.bus,
        costs: &columns.costs[..tasks],
        edges: EdgeColumns {
            sources: &columns.sources[..edges],
            targets: &columns.targets[..edges],
            amounts: &columns.amounts[..edges],
        },
        table: &numbers[..5 * tasks],
    };
    rules(&planned, core, start, end, words)
}

// The verifier: the makespan of a table that obeys every rule, or the first refusal.
#[tactic(auto, using(crate::proofs::Ruling::verdicts))]
pub fn verify(plan: &[u8], table: &[u8]) -> Result<Time, Refusal>
    ensures { result ≡ verdict_of plan.now table.now }
{
    let mut core = [0; 128];
    let mut start = [0; 128];
    let mut end = [0; 128];
    let mut words = [0; 128];
    let obeyed = judge(plan, table, &mut core, &mut start, &mut end, &mut words)?;
    Ok(obeyed.makespan)
}
