// What is kept of the places that stand, so that the next one is placed fast.
ghost use Rattle.std.specs.Prelude.{◌≡◌, ◌+◌, ◌*◌, ◌≤◌, ◌<◌, length};
ghost use Rattle.model.specs.Below.{at};
ghost use Rattle.placing.specs.Starts.{with_free, with_closes, with_tops};

use crate::PhaseLoads;

// From when each core is free, where each phase closes, and the greatest close before each phase: arrays of the greatest size,
// since there is no heap.
#[derive(Drop)]
pub struct Board {
    pub free: [u32; 8],
    pub closes: [u32; 128],
    pub tops: [u32; 129],
}

impl Board {
    // Place a stands: its phases close, and its core is free from its F on.
    pub fn stand(&mut self, phases: &PhaseLoads<'_>, end: &[u32], a: usize)
        requires few { a < 64 }
        requires phases_all { 2 * a + 2 ≤ length phases.now.core.now }
        requires ends_all { 2 * a + 2 ≤ length end.now }
        requires few_cores { at phases.now.core.now (2 * a) < 8 }
        ensures free { self.new.free ≡ with_free self.old.free phases.now.core.now end.now a }
        ensures closes { self.new.closes ≡ with_closes self.old.closes phases.now.words.now end.now a }
        ensures tops { self.new.tops ≡ with_tops self.old.tops phases.now.words.now end.now a }
    {
        let x = 2 * a;
        let f = end[x + 1];
        let read = contention::close_of(phases.words[x], end[x]);
        let write = contention::close_of(phases.words[x + 1], f);
        let top = self.tops[x].max(read);
        self.closes[x] = read;
        self.closes[x + 1] = write;
        self.tops[x + 1] = top;
        self.tops[x + 2] = top.max(write);
        let mine = phases.core[x] as usize;
        self.free[mine] = self.free[mine].max(f);
    }
}
