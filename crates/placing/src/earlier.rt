// The search for an exclusive start, among the phases of the earlier places.
ghost use Rattle.std.specs.Prelude.{◌≡◌, ◌+◌, ◌^◌, ◌≤◌, ◌<◌, length};
ghost use Rattle.model.specs.Below.{at, max_below};
ghost use Rattle.model.specs.ListRule.{LeastFree};
ghost use Rattle.contention.specs.Columns.{Sized};

// A task to be placed: its core, the words of its phases, and the lengths of its three windows.
#[derive(Clone, Copy)]
pub struct Task {
    pub mine: u32,
    pub reads: u32,
    pub writes: u32,
    pub read: u32,
    pub cost: u32,
    pub write: u32,
}

// The window [from, to) of `own` words on core `mine`.
#[derive(Clone, Copy)]
pub struct Window {
    pub mine: u32,
    pub own: u32,
    pub from: u32,
    pub to: u32,
}

// The phases of earlier places: core, start, and where each closes. Those below `low` close before any window asked about.
#[derive(Clone, Copy)]
pub struct Earlier<'a> {
    pub core: &'a [u32],
    pub start: &'a [u32],
    pub closes: &'a [u32],
    pub low: usize,
    pub ghost sized: { Sized core.now start.now closes.now closes.now (length core.now) },
    pub ghost low_in: { low ≤ length core.now },
}

impl Earlier<'_> {
    ghost use Rattle.placing.specs.Views.{end_met_in, met_in, next_in, clash_in, AreOver};

    // The end of phase y where the window meets it, 0 where not: the greatest of all is sought, and 0 changes no greatest.
    #[tactic(auto, using(crate::proofs::Places::meeting))]
    fn end_met(&self, window: Window, y: usize) -> u32
        requires phase { y < length self.now.core.now }
        requires loaded { 0 < window.own }
        ensures { result ≡ end_met_in self.now window y }
    {
        let end = self.closes[y];
        if contention::near(
            window.mine,
            window.from,
            window.to,
            self.core[y],
            self.start[y],
            end,
        ) {
            end
        } else {
            0
        }
    }

    // The greatest end that the window meets, 0 of none: the start is then moved to it, and 0 moves no start.
    #[tactic(auto, using(crate::proofs::Exclusive::untils))]
    fn met_until(&self, window: Window) -> u32
        requires { AreOver self.now window.from }
        ensures { result ≡ met_in self.now window }
    {
        if window.own == 0 {
            return 0;
        }
        let mut until = 0;
        for y in self.low..self.core.len() {
            until = until.max(self.end_met(window, y));
        }
        until
    }

    // The next start to try: past all phases that the task meets when started at r. A window goes on meeting a phase until it
    // starts at the phase's end, so no free start is passed over.
    #[tactic(auto, unfolding(crate::specs::Starts::next_by))]
    fn next_start(&self, task: Task, r: u32) -> u32
        requires fits { r + task.read + task.cost + task.write < 2 ^ 32 }
        requires passed { AreOver self.now r }
        ensures { result ≡ next_in self.now task r }
    {
        let Task {
            mine,
            reads,
            writes,
            read,
            cost,
            write,
        } = task;
        let e = r + read;
        let w = e + cost;
        let x = self.met_until(Window {
            mine,
            own: reads,
            from: r,
            to: e,
        });
        let y = self.met_until(Window {
            mine,
            own: writes,
            from: w,
            to: w + write,
        });
        r.max(x).max(y.saturating_sub(read + cost))
    }

    // The least start from `from` on at which the task meets none of the phases. A `loop`, since each start says which is next.
    #[tactic(auto, using(crate::proofs::Exclusive::passing))]
    pub fn exclusive_start(&self, task: Task, from: u32) -> u32
        requires fits { from + task.read + task.cost + task.write < 2 ^ 32 }
        requires ends_fit { max_below (at self.now.closes.now) (length self.now.core.now) + task.read + task.cost + task.write < 2 ^ 32 }
        requires passed { AreOver self.now from }
        ensures { LeastFree (clash_in self.now task) from result }
    {
        let mut r = from;
        loop {
            let next = self.next_start(task, r);
            if next == r {
                return r;
            }
            r = next;
        }
    }
}
