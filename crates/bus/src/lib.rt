// The bus run: a table's phases played grant by grant, with each phase's end and waits as the answer. Beside the phases stand the
// words that each has left, and each core's head: of its phases with words left the one that starts first.
#![tactic(auto)]

ghost use Rattle.std.specs.Prelude.{◌≡◌, ◌++◌, ℕ, ◌+◌, ◌*◌, ◌^◌, ◌<◌, ◌≤◌, min, true, Bool, length, drop};
ghost use Rattle.model.specs.Below.{at, list_below};
ghost use Rattle.model.specs.Counts.{D, Settings};
ghost use Rattle.model.specs.BusRule.{answers, held};
ghost use Rattle.contention.specs.Columns.{phases_by, Sized};
ghost use Rattle.contention.specs.Views.{as_phases};
ghost use Rattle.bus.specs.Playing.{use_of, Playable};
ghost use Rattle.bus.specs.Heads.{Gives, soonest_below, after_of};
ghost use Rattle.bus.specs.OneGrant.{opened};
ghost use Rattle.bus.specs.Runs.{waits_in, head_in, headed_in, start_in, lead_in, asks_in, turn_in, sits_in, waits_added, RaisableIn, GrantingIn, GrantedIn, OpenedIn};

use crate::run::Run;
use contention::PhaseColumns;
use model::{Bus, Time, Words};

mod run;

// Of the numbers below `count` that pass, the first of the least value.
fn soonest<P: Fn(usize) -> bool, V: Fn(usize) -> u32>(
    count: usize,
    passes: P,
    value: V,
) -> Option<usize>
    requires asks { (i : ℕ) → i < count → P.pre passes i }
    requires reads { (i : ℕ) → i < count → P.post passes i true → V.pre value i }
    ensures { (number : ℕ → ℕ) (test : ℕ → Bool) → Gives (V.post value) number count → Gives (P.post passes) test count → result ≡ soonest_below number test count }
{
    // The first that passes: among the numbers from 0 its place is the number.
    let mut best = (0..count).position(&passes)?;
    for i in best + 1..count {
        if passes(i) && value(i) < value(best) {
            best = i;
        }
    }
    Some(best)
}

// The i-th core after the last served, going round.
#[tactic(auto, unfolding(crate::specs::Heads::after_of))]
fn after(cores: usize, last: usize, i: usize) -> usize
    requires served { last < cores }
    requires turn { i ≤ cores }
    requires few { cores ≤ 8 }
    ensures { result ≡ after_of cores last i }
{
    let c = last + 1 + i;
    if c < cores { c } else { c - cores }
}

// What a phase sends of the words that it has left: D of them, or all.
fn part_of_slot(bus: Bus, left: Words) -> Words
    ensures { result.0 ≡ min (D bus) left.0 }
{
    Words(bus.d.0.min(left.0))
}

// The time for which words hold the bus: T/D each.
#[tactic(auto, unfolding(model::specs::BusRule::held, model::specs::Counts::word_time))]
fn holding(bus: Bus, words: Words) -> Time
    requires settings { Settings bus }
    requires fits { held bus words.0 < 2 ^ 32 }
    ensures { result.0 ≡ held bus words.0 }
{
    Time(bus.t.0 / bus.d.0 * words.0)
}

// No code: of a slice it is known that its numbers have 32 bits, of one in a struct only where a contract says so. A ghost field of
// `PhaseColumns` cannot say it, since callers that fill `end` in a loop or a call could not show it.
fn ends_fit(end: &[u32])
    ensures { (z : ℕ) → at end.now z < 2 ^ 32 }
{}

impl Run<'_> {
    // Phase y is on core c and has words left.
    #[tactic(auto, unfolding(crate::specs::Heads::waiting))]
    fn waits(&self, c: usize, y: usize) -> bool
        requires { y < length self.now.left.now }
        ensures { result ≡ waits_in self.now c y }
    {
        self.left[y] != 0 && self.phases.core[y] as usize == c
    }

    // Of core c's phases with words left the one that starts first; the number of phases if there is none.
    #[tactic(auto, unfolding(crate::specs::Heads::head_of))]
    fn head_of(&self, c: usize) -> usize
        ensures { result ≡ head_in self.now c }
    {
        let count = self.left.len();
        soonest(count, |y| self.waits(c, y), |y| self.phases.start[y]).unwrap_or(count)
    }

    #[tactic(auto, using(contention::proofs::Columns::filling))]
    fn fill_heads(&mut self)
        ensures phases { self.new.phases ≡ self.old.phases }
        ensures left { self.new.left.now ≡ self.old.left.now }
        ensures heads { self.new.head.now ≡ list_below (head_in self.old) (length self.old.head.now) }
    {
        for c in 0..self.head.len() {
            self.head[c] = self.head_of(c);
        }
    }

    // Before the first grant each phase ends at its start, with no waits. `out` is the caller's and may be longer than the answers:
    // so each function that fills it asks for the room.
    fn open_answers(&self, out: &mut [u32])
        requires { 2 * length self.now.left.now ≤ length out.old }
        ensures { out.new ≡ opened self.now.phases.start.now (length self.now.left.now) ++ drop (2 * length self.now.left.now) out.old }
    {
        for x in 0..self.left.len() {
            let i = 2 * x;
            out[i] = self.phases.start[x];
            out[i + 1] = 0;
        }
    }

    // Core d has a head.
    #[tactic(auto, unfolding(crate::specs::Heads::headed))]
    fn headed(&self, d: usize) -> bool
        requires { d < length self.now.head.now }
        ensures { result ≡ headed_in self.now d }
    {
        self.head[d] < self.left.len()
    }

    // When the head of core d, which has one, starts.
    #[tactic(auto, unfolding(crate::specs::Heads::head_start))]
    fn head_start(&self, d: usize) -> u32
        requires known { d < length self.now.head.now }
        requires headed { at self.now.head.now d < length self.now.left.now }
        ensures { result ≡ start_in self.now d }
    {
        self.phases.start[self.head[d]]
    }

    // The core whose head starts first.
    #[tactic(auto, unfolding(crate::specs::Heads::lead_of, crate::specs::Heads::headed))]
    fn lead(&self) -> Option<usize>
        ensures { result ≡ lead_in self.now }
    {
        soonest(self.head.len(), |d| self.headed(d), |d| self.head_start(d))
    }

    // Core d asks at a time: its head has started.
    #[tactic(auto, unfolding(crate::specs::Heads::asking_at, crate::specs::Heads::headed))]
    fn asks(&self, time: u32, d: usize) -> bool
        requires { d < length self.now.head.now }
        ensures { result ≡ asks_in self.now time d }
    {
        self.headed(d) && self.head_start(d) <= time
    }

    // The first core after the last served, going round, that asks. Where none asks, no caller reads the answer.
    #[tactic(auto, using(crate::proofs::Heads::turning))]
    fn turn(&self, last: usize, time: u32) -> usize
        requires { last < length self.now.head.now }
        ensures { result ≡ turn_in self.now last time }
    {
        let cores = self.head.len();
        for i in 0..cores {
            let d = after(cores, last, i);
            if self.asks(time, d) {
                return d;
            }
        }
        after(cores, last, cores)
    }

    // The head of core d sits through a grant to core c that ends at `ends`.
    #[tactic(auto, unfolding(crate::specs::OneGrant::sits_at, crate::specs::Heads::headed))]
    fn sits(&self, c: usize, ends: u32, d: usize) -> bool
        requires { d < length self.now.head.now }
        ensures { result ≡ sits_in self.now c ends d }
    {
        d != c && self.headed(d) && self.head_start(d) < ends
    }

    // One wait more for each core's head that sits through a grant to core c that ends at `ends`.
    #[tactic(auto, using(crate::proofs::OneGrant::raising))]
    fn add_waits(&self, c: usize, ends: u32, out: &mut [u32])
        requires { RaisableIn self.now out.old }
        ensures { out.new ≡ waits_added self.now c ends out.old }
    {
        for d in 0..self.head.len() {
            if self.sits(c, ends, d) {
                out[2 * self.head[d] + 1] += 1;
            }
        }
    }

    // A grant to core c's head at `time`: the waits of the others, its end, its words, and the next head; the end is given back.
    #[tactic(auto, unfolding(crate::specs::OneGrant::size_of, crate::specs::OneGrant::sent_by, crate::specs::OneGrant::heads_after,))]
    fn grant(&mut self, bus: Bus, time: u32, c: usize, out: &mut [u32]) -> u32
        requires { GrantingIn self.old bus time c out.old }
        ensures phases { self.new.phases ≡ self.old.phases }
        ensures granted { GrantedIn self.old bus time c out.old result self.new out.new }
    {
        let x = self.head[c];
        let size = part_of_slot(bus, Words(self.left[x]));
        let ends = time + holding(bus, size).0;
        self.add_waits(c, ends, out);
        out[2 * x] = ends;
        self.left[x] -= size.0;
        if self.left[x] == 0 {
            self.head[c] = self.head_of(c);
        }
        ends
    }

    // Grant by grant, until no phase has words left.
    fn grants(&mut self, bus: Bus, served: u32, out: &mut [u32])
        requires playable { Playable bus (as_phases self.old.phases) served self.old.left.now }
        requires room { 2 * length self.old.left.now ≤ length out.old }
        requires opened { OpenedIn self.old bus out.old }
        ensures { out.new ≡ answers bus (as_phases self.old.phases) (use_of served self.old.left.now) ++ drop (2 * length self.old.left.now) out.old }
    {
        let mut free = 0;
        let mut last = served as usize;
        let mut next = self.lead();
        // What a grant leaves decides whether there is another, so no `for` fits. The next lead is sought at the end of a turn:
        // so T/D, the same at each turn, is found once before the loop.
        while let Some(lead) = next {
            let time = free.max(self.head_start(lead));
            let c = self.turn(last, time);
            free = self.grant(bus, time, c, out);
            last = c;
            next = self.lead();
        }
    }
}

// The run of a table's phases: end and waits of each, in the order of the phases, at the front of `out`. Choosing a grant takes
// time in the order of the cores; the phases of a core are searched when its head has sent its words.
pub fn play_phases(bus: Bus, phases: PhaseColumns<'_>, actual: &[u32], served: u32, out: &mut [u32])
    requires playable { Playable bus (as_phases phases) served actual.now }
    requires room { 2 * length actual.now ≤ length out.old }
    ensures { out.new ≡ answers bus (as_phases phases.entry) (use_of served actual.now) ++ drop (2 * length actual.now) out.old }
{
    let mut left = [0u32; 128];
    let mut head = [0usize; 8];
    let left = &mut left[..actual.len()];
    let head = &mut head[..bus.cores as usize];
    left.copy_from_slice(actual);
    ends_fit(phases.end);
    let mut run = Run { phases, left, head };
    run.open_answers(out);
    run.fill_heads();
    run.grants(bus, served, out);
}

// The same of columns that may all be longer than there are actual counts. A `PhaseColumns` has as many phases as cores, so it takes
// the front of these.
#[tactic(auto, using(contention::proofs::Rivalry::front_count, crate::proofs::Fronts::playable_front, crate::proofs::Fronts::answers_front))]
pub fn play(
    bus: Bus,
    core: &[u32],
    start: &[u32],
    end: &[u32],
    words: &[u32],
    actual: &[u32],
    served: u32,
    out: &mut [u32],
)
    requires sized { Sized core.now start.now end.now words.now (length actual.now) }
    requires playable { Playable bus (phases_by core.now start.now end.now words.now (length actual.now)) served actual.now }
    requires room { 2 * length actual.now ≤ length out.old }
    ensures { out.new ≡ answers bus (phases_by core.now start.now end.now words.now (length actual.now)) (use_of served actual.now) ++ drop (2 * length actual.now) out.old }
{
    let phases = PhaseColumns {
        core: &core[..actual.len()],
        start,
        end,
        words,
    };
    play_phases(bus, phases, actual, served, out);
}
