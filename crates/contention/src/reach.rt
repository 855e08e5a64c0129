// Where the rivals of a phase can lie, and how many there are.
ghost use Rattle.std.specs.Prelude.{◌≡◌, ◌+◌, ◌<◌, ◌≤◌, min, length};
ghost use Rattle.model.specs.Below.{at, count_below};
ghost use Rattle.model.specs.Counts.{most_words, Settings};
ghost use Rattle.model.specs.Contention.{rival};
ghost use Rattle.model.specs.Rules.{delay_at};
ghost use Rattle.contention.specs.Columns.{Spread};
ghost use Rattle.contention.specs.Views.{as_phases, near_to};

use crate::PhaseColumns;
use model::{Bus, Time, Words};

// Phases with what bounds where their rivals lie: where each closes, the greatest close before each, and the least start
// from each on.
#[derive(Clone, Copy)]
pub struct Reach<'a> {
    pub phases: PhaseColumns<'a>,
    pub closes: &'a [u32],
    pub tops: &'a [u32],
    pub lows: &'a [u32],
    pub ghost spread: { Spread phases.start.now phases.end.now phases.words.now (length phases.core.now) closes.now tops.now lows.now },
    pub ghost closes_all: { length closes.now ≡ length phases.core.now },
    pub ghost tops_all: { length tops.now ≡ length phases.core.now },
    pub ghost lows_all: { length lows.now ≡ length phases.core.now },
}

impl Reach<'_> {
    // Phase y is on another core than phase x and overlaps its window.
    #[tactic(auto, unfolding(crate::specs::Columns::near_by))]
    fn near(&self, x: usize, y: usize) -> bool
        requires phase { x < length self.now.phases.core.now }
        requires other { y < length self.now.phases.core.now }
        ensures { result ≡ near_to self.now.phases self.now.closes.now x y }
    {
        let PhaseColumns {
            core,
            start,
            end,
            ..
        } = self.phases;
        crate::near(core[x], start[x], end[x], core[y], start[y], self.closes[y])
    }

    // How many phases from lo on and before hi are near phase x.
    fn near_between(&self, x: usize, lo: usize, hi: usize) -> u32
        requires phase { x < length self.now.phases.core.now }
        requires ordered { lo ≤ hi }
        requires within { hi ≤ length self.now.phases.core.now }
        ensures { result + count_below (near_to self.now.phases self.now.closes.now x) lo ≡ count_below (near_to self.now.phases self.now.closes.now x) hi }
    {
        // Added up in a `for`: it is hot, and what `filter` and `count` give is not proved by the check alone.
        let mut n = 0;
        for y in lo..hi {
            n += u32::from(self.near(x, y));
        }
        n
    }

    // The rivals of phase x, which has words, `most` at most: counted where what overlaps its window can lie.
    fn rivals(&self, x: usize, most: u32) -> u32
        requires phase { x < length self.now.phases.core.now }
        requires loaded { 0 < at self.now.phases.words.now x }
        ensures { result ≡ min (count_below (rival (as_phases self.now.phases) x) (length self.now.phases.core.now)) most }
    {
        let lo = crate::back_to(self.tops, x, self.phases.start[x]);
        let hi = crate::ahead_to(self.lows, x, self.phases.end[x]);
        let n = self.near_between(x, lo, hi);
        n.min(most)
    }

    // The delay of phase x with its counted rivals: one on each other core at most.
    #[tactic(auto, using(crate::proofs::Rivalry::delays))]
    pub fn delay(&self, bus: Bus, x: usize) -> Time
        requires settings { Settings bus }
        requires phase { x < length self.now.phases.core.now }
        requires load { at self.now.phases.words.now x ≤ most_words }
        ensures { result.0 ≡ delay_at bus (as_phases self.now.phases) x }
    {
        let own = self.phases.words[x];
        if own == 0 {
            return Time(0);
        }
        model::delay(bus, Words(own), self.rivals(x, bus.cores - 1))
    }
}
