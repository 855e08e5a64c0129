// The schedule maker: a plan's table by the list rule. Tasks are met by their place in the list order, in columns; phase 2a is
// the read of place a, 2a + 1 its write.
#![tactic(auto)]

ghost use Rattle.std.specs.Prelude.{◌≡◌, ◌++◌, ℕ, ◌+◌, ◌*◌, ◌≤◌, ◌<◌, length, take, drop};
ghost use Rattle.model.specs.Below.{at};
ghost use Rattle.model.specs.Graph.{place_of};
ghost use Rattle.model.specs.ListRule.{made_bytes, made_makespan};
ghost use Rattle.model.specs.Answers.{made_of, made_output};
ghost use Rattle.maker.specs.Choosing.{Planned};
ghost use Rattle.maker.specs.Renumbering.{costs_by, places_by, linked_by};
ghost use Rattle.maker.specs.Views.{plan_of_columns};

use crate::by_place::ByPlace;
use contention::EdgeColumns;
use model::{Refusal, Time};
use plan::Columns;

mod by_place;
mod trial;

// ---- the plan by list place
// The place of a task in the list order; its length where there is none, as the definition `place_of` has it. std's `position`
// leaves a goal: no law takes what it promises to that definition.
#[tactic(auto, using(model::proofs::Below::first_none), unfolding(model::specs::Graph::place_of))]
fn place_of(order: &[u8], task: usize) -> usize
    ensures { result ≡ place_of order.now task }
{
    for (a, other) in order.iter().enumerate() {
        if usize::from(*other) == task {
            return a;
        }
    }
    order.len()
}

// The execute time of the task at each place. By index, as in all loops here that fill a column: of `iter_mut().zip(..)` the proof
// keeps no value that was written.
#[tactic(auto, using(contention::proofs::Columns::filling))]
fn fill_costs(costs: &[u16], order: &[u8], column: &mut [u32])
    requires room { length order.now ≤ length column.old }
    requires known { (a : ℕ) → a < length order.now → at order.now a < length costs.now }
    ensures filled { column.new ≡ costs_by costs.now order.now ++ drop (length order.now) column.old }
    ensures small { (a : ℕ) → at costs.now a < 65536 }
{
    for a in 0..order.len() {
        column[a] = u32::from(costs[usize::from(order[a])]);
    }
}

// The places of tasks: of the sources, or of the targets, of all edges.
#[tactic(auto, using(contention::proofs::Columns::filling, model::proofs::Graph::place_le))]
fn fill_places(order: &[u8], ends: &[u8], column: &mut [u8])
    requires few { length order.now ≤ 64 }
    requires room { length ends.now ≤ length column.old }
    ensures { column.new ≡ places_by order.now ends.now ++ drop (length ends.now) column.old }
{
    for e in 0..ends.len() {
        column[e] = place_of(order, usize::from(ends[e])) as u8;
    }
}

// The edges to each place, as a chain: at a the last edge to place a, at 64 + e the last one before e to the same place, each as
// one more than its number; 0 where there is none (`Candidate.links` says why).
#[tactic(auto, using(crate::proofs::Edges::linking))]
fn link(targets: &[u8], links: &mut [u16])
    requires few { length targets.now ≤ 256 }
    requires room { 64 + length targets.now ≤ length links.old }
    requires known { (e : ℕ) → e < length targets.now → at targets.now e < 64 }
    ensures { links.new ≡ linked_by targets.now links.old (length targets.now) }
{
    for e in 0..targets.len() {
        let a = usize::from(targets[e]);
        links[64 + e] = links[a];
        links[a] = e as u16 + 1;
    }
}

// A plan scheduled by its list order: the makespan, and the table's bytes at the front of a lent output.
fn make_table(columns: &Columns, out: &mut [u8]) -> u32
    requires few_tasks { columns.now.tasks ≤ 64 }
    requires few_edges { columns.now.edges ≤ 256 }
    requires planned { Planned (plan_of_columns columns.now) (take columns.now.tasks columns.now.order) }
    requires room { 20 * columns.now.tasks ≤ length out.old }
    ensures span { result ≡ made_makespan (plan_of_columns columns.now) }
    ensures table { out.new ≡ made_bytes (plan_of_columns columns.now) ++ drop (20 * columns.now.tasks) out.old }
{
    let tasks = columns.tasks;
    let edges = columns.edges;
    let order = &columns.order[..tasks];
    let from = &columns.sources[..edges];
    let to = &columns.targets[..edges];
    let mut costs = [0u32; 64];
    let mut sources = [0u8; 256];
    let mut targets = [0u8; 256];
    let mut links = [0u16; 320];
    fill_costs(&columns.costs[..tasks], order, &mut costs);
    fill_places(order, from, &mut sources);
    fill_places(order, to, &mut targets);
    let targets = &targets[..to.len()];
    link(targets, &mut links);
    let plan = ByPlace {
        bus: columns.bus,
        costs: &costs[..order.len()],
        edges: EdgeColumns {
            sources: &sources[..from.len()],
            targets,
            amounts: &columns.amounts[..edges],
        },
        links: &links,
        order,
    };
    trial::schedule(&plan, out)
}

// The table of a plan by the list rule: its bytes at the front of a lent output, and the makespan.
// Stack: the arrays that stand while candidates are tried are 9,316 bytes together, though a growth and a placing take turns. The
// plan's columns 1,216; the plan by place 1,408, of which the chains of edges are 640; a candidate at work 3,584, one growth of it
// 2,048 and one placing 1,060.
#[tactic(auto, unfolding(model::specs::Answers::made_of, model::specs::Answers::made_output, model::specs::Answers::making, model::specs::Answers::room))]
pub fn make(plan: &[u8], out: &mut [u8]) -> Result<Time, Refusal>
    ensures answer { result ≡ made_of plan.now out.old }
    ensures output { out.new ≡ made_output plan.now out.old }
{
    let mut columns = Columns::new();
    columns.read(plan)?;
    model::refuse_if(out.len() < 20 * columns.tasks, table::short_output())?;
    Ok(Time(make_table(&columns, out)))
}
