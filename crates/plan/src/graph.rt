// The tasks and edges of a plan that was read, and the list order of the tasks.
ghost use Rattle.std.specs.Prelude.{◌≡◌, ◌≤◌, ◌<◌, ℕ, length, replicate, MatchOption};
ghost use Rattle.model.specs.Below.{at};
ghost use Rattle.plan.specs.Order.{graph_of, Edges, Parts, Passed, Raised, Released, edges_to, edges_between, next_by};

// The number of tasks, and each edge's source and target.
#[derive(Clone, Copy)]
pub struct Graph<'a> {
    pub tasks: usize,
    pub sources: &'a [u8],
    pub targets: &'a [u8],
    pub ghost edges: { Edges tasks sources.now targets.now },
    pub ghost paired: { length targets.now ≡ length sources.now },
}

impl<'a> Graph<'a> {
    ghost use Rattle.model.specs.Graph.{list_order};
    ghost use Rattle.plan.specs.Planned.{filled};

    // For each task 1, and 1 more for each edge that ends there.
    fn waiting(self) -> [u8; 64]
        ensures { Raised (edges_to (length self.entry.sources.now) self.entry.targets.now) (replicate 64 1) result }
    {
        let mut left = [1; 64];
        for target in self.targets {
            left[usize::from(*target)] += 1;
        }
        left
    }

    // The first edge from task i or from a task above it: edges rise by source.
    fn first_edge(self, i: usize) -> usize
        ensures { Parts self.entry.sources.now i result }
    {
        self.sources
            .partition_point(|source| usize::from(*source) < i)
    }

    // One less for a task, for each edge to it from task i; these edges follow one another. The result is the lowest of i and
    // these tasks.
    fn release(self, i: usize, left: &mut [u8; 64]) -> usize
        requires { (j : ℕ) → edges_between (length self.sources.now) self.sources.now self.targets.now i j ≤ at left.old j }
        ensures { Released (length self.entry.sources.now) self.entry.sources.now self.entry.targets.now i left.old left.new result }
    {
        let mut low = i;
        for e in self.first_edge(i)..self.sources.len() {
            if i < usize::from(self.sources[e]) {
                return low;
            }
            let target = usize::from(self.targets[e]);
            left[target] -= 1;
            low = low.min(target);
        }
        low
    }

    // The list order of the tasks, into a lent list, and how many tasks it has: all of them exactly where no task reaches itself.
    // Two bytes are kept for each task: its entry in the list, and in `left` 0 once it is taken, else one more than the edges that
    // keep it waiting. No task below `from` is ready, so none is looked at there.
    pub fn list_order(self, order: &mut [u8; 64]) -> usize
        ensures count { result ≡ length (list_order (graph_of self.entry.tasks self.entry.sources.now self.entry.targets.now)) }
        ensures order { order.new ≡ filled (list_order (graph_of self.entry.tasks self.entry.sources.now self.entry.targets.now)) order.old }
    {
        let mut left = self.waiting();
        let mut from = 0;
        for taken in 0..self.tasks {
            let Some(i) = next_ready(&left[..self.tasks], from) else {
                return taken;
            };
            order[taken] = i as u8;
            from = self.release(i, &mut left);
            left[i] = 0;
        }
        self.tasks
    }
}

// The lowest task that is not taken and that no edge keeps waiting. None is below `from`.
fn next_ready(left: &[u8], from: usize) -> Option<usize>
    requires { Passed (length left.now) left.now from }
    ensures { MatchOption result (next_by (length left.now) left.now ≡ length left.now) (λ i. (i ≡ next_by (length left.now) left.now) × (i < length left.now)) }
{
    for i in from..left.len() {
        if left[i] == 1 {
            return Some(i);
        }
    }
    None
}
