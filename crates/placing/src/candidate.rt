// A candidate of the list rule, in columns.
ghost use Rattle.std.specs.Prelude.{◌≤◌, length};
ghost use Rattle.placing.specs.Candidates.{Ready, FewCores};

use contention::EdgeColumns;
use model::Bus;

// A candidate: of each place its execute time and its choice; the edges between places, and the chains of the edges to each place.
#[derive(Clone, Copy)]
pub struct Candidate<'a> {
    pub bus: Bus,
    pub costs: &'a [u32],
    pub edges: EdgeColumns<'a>,
    // At a the last edge to place a, at 64 + e the last one before e to the same place, each as one more than its number: one fixed
    // column, since there is no heap, and 0 for none, since an Option would take more than two bytes an entry.
    pub links: &'a [u16],
    // 2 * core, or 2 * core + 1 if the place is exclusive: a number and not a core beside a mode, since `chosen` tries them in this
    // order, and ties follow from it.
    pub choices: &'a [u32],
    pub ghost ready: { Ready bus costs.now edges.sources.now edges.targets.now edges.amounts.now links.now choices.now },
    pub ghost few_cores: { FewCores choices.now (length costs.now) },
}

// Of each phase its core, its words and the length of its window. There are as many as `core` has; the other columns may be
// longer.
#[derive(Clone, Copy)]
pub struct PhaseLoads<'a> {
    pub core: &'a [u32],
    pub words: &'a [u32],
    pub lengths: &'a [u32],
    pub ghost loads_all: { length core.now ≤ length words.now },
    pub ghost lengths_all: { length core.now ≤ length lengths.now },
}
