// The rounds of a candidate of the list rule, from its choices to its settled windows. Columns are by phase as everywhere: phase
// 2a is place a's read, 2a + 1 its write.
#![tactic(auto)]

ghost use Rattle.std.specs.Prelude.{◌≡◌, ◌++◌, ℕ, ◌+◌, ◌*◌, ◌-◌, ◌/◌, ◌≤◌, ◌<◌, max, ltb, length, drop};
ghost use Rattle.model.specs.Below.{at, max_below, any_below, list_below};
ghost use Rattle.model.specs.Counts.{delay as delay_of, most_words, Settings};
ghost use Rattle.model.specs.Rules.{delay_at};
ghost use Rattle.model.specs.ListRule.{core_in, first_lengths, settled, finished, makespan_of};
ghost use Rattle.contention.specs.Columns.{core_column, start_column, end_column};
ghost use Rattle.contention.specs.Views.{as_phases};
ghost use Rattle.placing.specs.Starts.{Prepared};
ghost use Rattle.placing.specs.Views.{as_candidate};
ghost use Rattle.rounds.specs.Standing.{Standing};

use contention::PhaseColumns;
use model::{Bus, Words};
use placing::{Candidate, PhaseLoads};

// The core of each place. By index, as in all loops here that fill a column: of `iter_mut().zip(..)` the proof keeps no value that
// was written.
#[tactic(auto, using(contention::proofs::Columns::filling))]
fn fill_cores(choices: &[u32], cores: &mut [u32])
    requires { length choices.now ≤ length cores.old }
    ensures { cores.new ≡ list_below (core_in choices.now) (length choices.now) ++ drop (length choices.now) cores.old }
{
    for a in 0..choices.len() {
        cores[a] = choices[a] / 2;
    }
}

// The core of each phase.
#[tactic(auto, using(contention::proofs::Columns::filling))]
fn fill_phases(choices: &[u32], core: &mut [u32])
    requires { 2 * length choices.now ≤ length core.old }
    ensures { core.new ≡ list_below (λ x. core_in choices.now (x / 2)) (2 * length choices.now) ++ drop (2 * length choices.now) core.old }
{
    for x in 0..2 * choices.len() {
        core[x] = choices[x / 2] / 2;
    }
}

// Step 1: window lengths start at the delay with no rivals.
#[tactic(auto, using(contention::proofs::Columns::filling))]
fn first_lengths(bus: Bus, words: &[u32], lengths: &mut [u32])
    requires settings { Settings bus }
    requires loads { (x : ℕ) → x < length words.now → at words.now x ≤ most_words }
    requires room { length words.now ≤ length lengths.old }
    ensures { lengths.new ≡ list_below (λ x. delay_of bus (at words.now x) 0) (length words.now) ++ drop (length words.now) lengths.old }
{
    for x in 0..words.len() {
        lengths[x] = model::delay(bus, Words(words[x]), 0).0;
    }
}

// All windows shorter than their delays take them. Answers whether one grew.
#[tactic(auto, using(contention::proofs::Columns::filling))]
fn grow_all(due: &[u32], lengths: &mut [u32]) -> bool
    requires { length due.now ≤ length lengths.old }
    ensures grew { result ≡ any_below (λ x. ltb (at lengths.old x) (at due.now x)) (length due.now) }
    ensures grown { lengths.new ≡ list_below (λ x. max (at lengths.old x) (at due.now x)) (length due.now) ++ drop (length due.now) lengths.old }
{
    let mut grew = false;
    for x in 0..due.len() {
        grew |= lengths[x] < due[x];
        lengths[x] = lengths[x].max(due[x]);
    }
    grew
}

// Step 3: rivals are counted on the windows as they stand, and all short windows grow. Answers whether one grew.
fn grow(bus: Bus, phases: PhaseColumns<'_>, lengths: &mut [u32]) -> bool
    requires settings { Settings bus }
    requires loads { (x : ℕ) → x < length phases.core.now → at phases.words.now x ≤ most_words }
    requires room { length phases.core.now ≤ length lengths.old }
    ensures grew { result ≡ any_below (λ x. ltb (at lengths.old x) (delay_at bus (as_phases phases.entry) x)) (length phases.entry.core.now) }
    ensures grown { lengths.new ≡ list_below (λ x. max (at lengths.old x) (delay_at bus (as_phases phases.entry) x)) (length phases.entry.core.now) ++ drop (length phases.entry.core.now) lengths.old }
{
    let mut due = [0u32; 128];
    contention::delays_of_phases(bus, phases, &mut due);
    grow_all(&due[..phases.core.len()], lengths)
}

// So many rounds settle a candidate: each that grows a window charges it for a rival more.
fn most_rounds(tasks: usize, cores: u32) -> usize
    requires few { tasks ≤ 64 }
    requires some { 1 ≤ cores }
    requires most { cores ≤ 8 }
    ensures { result ≡ 2 * tasks * (cores - 1) }
{
    2 * tasks * (cores as usize - 1)
}

// The rounds: if one window grew, all are placed anew, until none grows. `n` is named for the invariant: no code reads it. The
// columns come each by itself, as `settle` has them.
#[tactic(auto, unfolding(model::specs::ListRule::rounds, model::specs::ListRule::settled))]
fn run_rounds(
    candidate: Candidate<'_>,
    core: &[u32],
    words: &[u32],
    lengths: &mut [u32],
    start: &mut [u32],
    end: &mut [u32],
)
    requires prepared { Prepared (as_candidate candidate) core.now words.now lengths.old }
    requires standing { Standing (as_candidate candidate) (first_lengths (as_candidate candidate)) lengths.old start.old end.old lengths.old start.old end.old }
    requires starts_room { 2 * length candidate.costs.now ≤ length start.old }
    requires ends_room { 2 * length candidate.costs.now ≤ length end.old }
    ensures { Standing (as_candidate candidate.entry) (settled (as_candidate candidate.entry)) lengths.old start.old end.old lengths.new start.new end.new }
{
    let tasks = candidate.costs.len();
    let front = &core[..2 * tasks];
    for n in 0..most_rounds(tasks, candidate.bus.cores) {
        let phases = PhaseColumns {
            core: front,
            start,
            end,
            words,
        };
        if !grow(candidate.bus, phases, lengths) {
            return;
        }
        let loads = PhaseLoads {
            core: front,
            words,
            lengths,
        };
        placing::place_phases(candidate, loads, start, end);
    }
}

// The greatest F. It shares no code with the verifier's `makespan`, which reads a table's numbers, five a task.
#[tactic(auto, using(contention::proofs::Columns::filling))]
fn greatest_end(end: &[u32]) -> u32
    ensures { result ≡ max_below (λ a. at end.now (2 * a + 1)) (length end.now / 2) }
{
    let mut most = 0;
    for a in 0..end.len() / 2 {
        most = end[2 * a + 1].max(most);
    }
    most
}

// What is fixed while the rounds run, cores and words, and the first lengths.
fn prepare(
    candidate: Candidate<'_>,
    cores: &mut [u32],
    core: &mut [u32],
    words: &mut [u32],
    lengths: &mut [u32],
)
    requires cores_room { length candidate.costs.now ≤ length cores.old }
    requires core_room { 2 * length candidate.costs.now ≤ length core.old }
    requires words_room { 2 * length candidate.costs.now ≤ length words.old }
    requires lengths_room { 2 * length candidate.costs.now ≤ length lengths.old }
    ensures prepared { Prepared (as_candidate candidate.entry) core.new words.new lengths.new }
    ensures cores { cores.new ≡ list_below (core_in candidate.entry.choices.now) (length candidate.entry.costs.now) ++ drop (length candidate.entry.costs.now) cores.old }
    ensures core { core.new ≡ list_below (λ x. core_in candidate.entry.choices.now (x / 2)) (2 * length candidate.entry.costs.now) ++ drop (2 * length candidate.entry.costs.now) core.old }
    ensures words { words.new ≡ (as_candidate candidate.entry).words ++ drop (2 * length candidate.entry.costs.now) words.old }
    ensures lengths { lengths.new ≡ first_lengths (as_candidate candidate.entry) ++ drop (2 * length candidate.entry.costs.now) lengths.old }
{
    let tasks = candidate.costs.len();
    fill_cores(candidate.choices, cores);
    fill_phases(candidate.choices, core);
    contention::phase_words(candidate.edges, &cores[..tasks], words);
    first_lengths(candidate.bus, &words[..2 * tasks], lengths);
}

// A candidate settled: its makespan, and its cores, words, lengths and windows in the lent columns. These come each by itself: a
// caller lends them of any length that has room, so a struct would have no fact to hold.
#[tactic(auto, unfolding(model::specs::ListRule::finished, model::specs::ListRule::placed))]
pub fn settle(
    candidate: Candidate<'_>,
    cores: &mut [u32],
    core: &mut [u32],
    words: &mut [u32],
    lengths: &mut [u32],
    start: &mut [u32],
    end: &mut [u32],
) -> u32
    requires cores_room { length candidate.costs.now ≤ length cores.old }
    requires core_room { 2 * length candidate.costs.now ≤ length core.old }
    requires words_room { 2 * length candidate.costs.now ≤ length words.old }
    requires lengths_room { 2 * length candidate.costs.now ≤ length lengths.old }
    requires starts_room { 2 * length candidate.costs.now ≤ length start.old }
    requires ends_room { 2 * length candidate.costs.now ≤ length end.old }
    ensures span { result ≡ makespan_of (as_candidate candidate.entry) }
    ensures cores { cores.new ≡ list_below (core_in candidate.entry.choices.now) (length candidate.entry.costs.now) ++ drop (length candidate.entry.costs.now) cores.old }
    ensures core { core.new ≡ core_column (length candidate.entry.costs.now) (finished (as_candidate candidate.entry)) ++ drop (2 * length candidate.entry.costs.now) core.old }
    ensures words { words.new ≡ (as_candidate candidate.entry).words ++ drop (2 * length candidate.entry.costs.now) words.old }
    ensures lengths { lengths.new ≡ settled (as_candidate candidate.entry) ++ drop (2 * length candidate.entry.costs.now) lengths.old }
    ensures starts { start.new ≡ start_column (length candidate.entry.costs.now) (finished (as_candidate candidate.entry)) ++ drop (2 * length candidate.entry.costs.now) start.old }
    ensures ends { end.new ≡ end_column (length candidate.entry.costs.now) (finished (as_candidate candidate.entry)) ++ drop (2 * length candidate.entry.costs.now) end.old }
{
    prepare(candidate, cores, core, words, lengths);
    let loads = PhaseLoads {
        core: &core[..2 * candidate.costs.len()],
        words,
        lengths,
    };
    placing::place_phases(candidate, loads, start, end);
    run_rounds(candidate, core, words, lengths, start, end);
    greatest_end(&end[..2 * candidate.costs.len()])
}
