// Step 2 of the list rule: the windows of a candidate's phases, placed in list order. Columns are by phase as everywhere:
// phase 2a is place a's read, 2a + 1 its write. `start` and `end` are filled on the way, so no struct holds them beside what is read:
// they are parameters of their own, and each function asks that place a is within them.
#![tactic(auto)]

ghost use Rattle.std.specs.Prelude.{◌≡◌, ◌++◌, ◌+◌, ◌*◌, ◌^◌, ◌≤◌, ◌<◌, length, take, drop};
ghost use Rattle.model.specs.Below.{at};
ghost use Rattle.model.specs.ListRule.{placed};
ghost use Rattle.contention.specs.Columns.{start_column, end_column};
ghost use Rattle.placing.specs.Starts.{sent_by, earliest_by, Freed, Closed, with_pair, Prepared};
ghost use Rattle.placing.specs.Candidates.{candidate_by, Ready, FewCores};
ghost use Rattle.placing.specs.Views.{as_candidate, placed_in, task_in, RoomIn, StartsIn};

use crate::board::Board;
use crate::earlier::{Earlier, Task};
use contention::EdgeColumns;
use model::Bus;

mod board;
mod candidate;
mod earlier;

pub use candidate::{Candidate, PhaseLoads};

// F of the source of edge e.
fn source_end(sources: &[u8], end: &[u32], e: usize) -> u32
    requires edge_in { e < length sources.now }
    requires source_in { 2 * at sources.now e + 2 ≤ length end.now }
    ensures { result ≡ at end.now (2 * at sources.now e + 1) }
{
    end[2 * usize::from(sources[e]) + 1]
}

// The greatest F of the sources of place a, along the chain of its edges. No code reads the targets: the chain stands for them.
// A `while`, since the chain says which edge is next.
fn sources_end(candidate: &Candidate<'_>, end: &[u32], a: usize) -> u32
    requires place_in { a < length candidate.now.costs.now }
    requires ends_all { 2 * a + 2 ≤ length end.now }
    ensures { result ≡ sent_by candidate.now.edges.sources.now candidate.now.edges.targets.now end.now a (length candidate.now.edges.sources.now) }
{
    let mut from = 0;
    let mut left = usize::from(candidate.links[a]);
    while 0 < left {
        let e = left - 1;
        from = from.max(source_end(candidate.edges.sources, end, e));
        left = usize::from(candidate.links[64 + e]);
    }
    from
}

// The earliest R of place a: not before the F of any source or of any earlier place on its core.
fn earliest_start(
    candidate: &Candidate<'_>,
    core: &[u32],
    end: &[u32],
    free: &[u32],
    a: usize,
) -> u32
    requires place_in { a < length candidate.now.costs.now }
    requires phases_all { 2 * a + 2 ≤ length core.now }
    requires ends_all { 2 * a + 2 ≤ length end.now }
    requires few_cores { at core.now (2 * a) < 8 }
    requires freed { Freed core.now end.now free.now a }
    ensures { result ≡ earliest_by candidate.now.edges.sources.now candidate.now.edges.targets.now core.now end.now a }
{
    let mine = core[2 * a] as usize;
    free[mine].max(sources_end(candidate, end, a))
}

// Place a as a task.
fn task_at(candidate: &Candidate<'_>, phases: &PhaseLoads<'_>, a: usize) -> Task
    requires place_in { a < length candidate.now.costs.now }
    requires phases_all { 2 * a + 2 ≤ length phases.now.core.now }
    ensures { result ≡ task_in candidate.now phases.now a }
{
    let x = 2 * a;
    Task {
        mine: phases.core[x],
        reads: phases.words[x],
        writes: phases.words[x + 1],
        read: phases.lengths[x],
        cost: candidate.costs[a],
        write: phases.lengths[x + 1],
    }
}

// R of place a, by its mode.
#[tactic(auto, using(crate::proofs::Places::starts_overlapping))]
fn start_at(
    candidate: &Candidate<'_>,
    phases: &PhaseLoads<'_>,
    start: &[u32],
    end: &[u32],
    board: &Board,
    a: usize,
) -> u32
    requires room { RoomIn candidate.now phases.now start.now end.now a }
    requires freed { Freed phases.now.core.now end.now board.now.free a }
    requires closed { Closed phases.now.words.now end.now board.now.closes board.now.tops a }
    ensures { StartsIn candidate.now phases.now start.now end.now a result }
{
    let from = earliest_start(candidate, phases.core, end, &board.free, a);
    if candidate.choices[a] % 2 != 1 {
        return from;
    }
    let x = 2 * a;
    let earlier = Earlier {
        core: &phases.core[..x],
        start,
        closes: &board.closes,
        low: contention::back_to(&board.tops, x, from),
    };
    earlier.exclusive_start(task_at(candidate, phases, a), from)
}

// The windows of place a from its start r: E, W and F follow without gaps.
fn put_windows(cost: u32, lengths: &[u32], a: usize, r: u32, start: &mut [u32], end: &mut [u32])
    requires lengths_all { 2 * a + 2 ≤ length lengths.now }
    requires starts_all { 2 * a + 2 ≤ length start.old }
    requires ends_all { 2 * a + 2 ≤ length end.old }
    requires fits { r + at lengths.now (2 * a) + cost + at lengths.now (2 * a + 1) < 2 ^ 32 }
    ensures starts { start.new ≡ with_pair start.old a r (r + at lengths.now (2 * a) + cost) }
    ensures ends { end.new ≡ with_pair end.old a (r + at lengths.now (2 * a)) (r + at lengths.now (2 * a) + cost + at lengths.now (2 * a + 1)) }
{
    let x = 2 * a;
    let e = r + lengths[x];
    let w = e + cost;
    start[x] = r;
    start[x + 1] = w;
    end[x] = e;
    end[x + 1] = w + lengths[x + 1];
}

// Step 2: the windows of all places, in list order.
pub fn place_phases(
    candidate: Candidate<'_>,
    phases: PhaseLoads<'_>,
    start: &mut [u32],
    end: &mut [u32],
)
    requires prepared { Prepared (as_candidate candidate) phases.core.now phases.words.now phases.lengths.now }
    requires starts_room { 2 * length candidate.costs.now ≤ length start.old }
    requires ends_room { 2 * length candidate.costs.now ≤ length end.old }
    ensures starts { start.new ≡ start_column (length candidate.entry.costs.now) (placed_in candidate.entry phases.entry.lengths.now) ++ drop (2 * length candidate.entry.costs.now) start.old }
    ensures ends { end.new ≡ end_column (length candidate.entry.costs.now) (placed_in candidate.entry phases.entry.lengths.now) ++ drop (2 * length candidate.entry.costs.now) end.old }
{
    let mut board = Board {
        free: [0; 8],
        closes: [0; 128],
        tops: [0; 129],
    };
    for a in 0..candidate.costs.len() {
        let r = start_at(&candidate, &phases, start, end, &board, a);
        put_windows(candidate.costs[a], phases.lengths, a, r, start, end);
        board.stand(&phases, end, a);
    }
}

// The same of columns that may all be longer than the phases are many. `PhaseLoads` has no more cores than words and lengths, so it
// takes the front of these.
pub fn place(
    bus: Bus,
    costs: &[u32],
    sources: &[u8],
    targets: &[u8],
    amounts: &[u16],
    links: &[u16],
    choices: &[u32],
    core: &[u32],
    words: &[u32],
    lengths: &[u32],
    start: &mut [u32],
    end: &mut [u32],
)
    requires ready { Ready bus costs.now sources.now targets.now amounts.now links.now choices.now }
    requires few_cores { FewCores choices.now (length costs.now) }
    requires prepared { Prepared (candidate_by bus costs.now sources.now targets.now amounts.now choices.now) core.now words.now lengths.now }
    requires starts_room { 2 * length costs.now ≤ length start.old }
    requires ends_room { 2 * length costs.now ≤ length end.old }
    ensures starts { start.new ≡ start_column (length costs.now) (placed (candidate_by bus costs.now sources.now targets.now amounts.now choices.now) (take (2 * length costs.now) lengths.now)) ++ drop (2 * length costs.now) start.old }
    ensures ends { end.new ≡ end_column (length costs.now) (placed (candidate_by bus costs.now sources.now targets.now amounts.now choices.now) (take (2 * length costs.now) lengths.now)) ++ drop (2 * length costs.now) end.old }
{
    let candidate = Candidate {
        bus,
        costs,
        edges: EdgeColumns {
            sources,
            targets,
            amounts,
        },
        links,
        choices,
    };
    let phases = PhaseLoads {
        core: &core[..2 * costs.len()],
        words,
        lengths,
    };
    place_phases(candidate, phases, start, end);
}
