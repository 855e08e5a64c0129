// A plan in list order.
ghost use Rattle.std.specs.Prelude.{◌≡◌, ◌++◌, ◌≤◌, ◌<◌, length, drop};
ghost use Rattle.placing.specs.Candidates.{plan_by};
ghost use Rattle.maker.specs.Renumbering.{masked_at, masked_by};
ghost use Rattle.maker.specs.Choosing.{Listed, Ordered};

use contention::EdgeColumns;
use model::Bus;

// A plan by list place: execute times, edges between places and the chains of the edges to each place; and the list order, in
// which each task has a place.
#[derive(Clone, Copy)]
pub struct ByPlace<'a> {
    pub bus: Bus,
    pub costs: &'a [u32],
    pub edges: EdgeColumns<'a>,
    pub links: &'a [u16],
    pub order: &'a [u8],
    pub ghost listed: { Listed (plan_by bus costs.now edges.sources.now edges.targets.now edges.amounts.now) links.now },
    pub ghost ordered: { Ordered (length costs.now) order.now },
}

impl ByPlace<'_> {
    // The words of edge e if it stands between the first k places, else 0.
    fn masked(&self, k: usize, e: usize) -> u16
        requires { e < length self.now.edges.sources.now }
        ensures { result ≡ masked_at self.now.edges.sources.now self.now.edges.targets.now self.now.edges.amounts.now k e }
    {
        let EdgeColumns {
            sources,
            targets,
            amounts,
        } = self.edges;
        let within = usize::from(sources[e]) < k && usize::from(targets[e]) < k;
        if within { amounts[e] } else { 0 }
    }

    // The words of the edges between the first k places.
    #[tactic(auto, using(contention::proofs::Columns::filling))]
    pub fn mask(&self, k: usize, column: &mut [u16])
        requires { length self.now.edges.sources.now ≤ length column.old }
        ensures { column.new ≡ masked_by self.now.edges.sources.now self.now.edges.targets.now self.now.edges.amounts.now k ++ drop (length self.now.edges.sources.now) column.old }
    {
        for e in 0..self.edges.sources.len() {
            column[e] = self.masked(k, e);
        }
    }
}
