// The plan reader: one step over the fields, the parser over it, the list order and the cycle test.
#![tactic(auto)]

ghost use Rattle.std.specs.Prelude.{◌≡◌, ℕ, ◌+◌, ◌<◌, ◌≤◌, ◌≢◌, length, replicate, MatchOption, MatchResult};
ghost use Rattle.model.specs.Below.{at};
ghost use Rattle.model.specs.Field.{two, plan_body, body_of, step_in, plan_step, place_after};
ghost use Rattle.model.specs.Plan.{no_plan, key_of, settings_good, in_order, header_in, task_in, edge_in, tagged, field_by, field_of, reading_of};
ghost use Rattle.model.specs.Refusals.{refusal, refuse_if};
ghost use Rattle.model.specs.Graph.{left_over, list_order, plan_of};
ghost use Rattle.plan.specs.Planned.{filled, columns_of, plan_read, after, kept, Room, Holds, graph_in, EdgesIn};

mod graph;

use graph::Graph;
use model::{Bus, Fault, Field, Refusal, Seen, Side, Taken, Time, Words, refuse_if};

// The byte at i.
pub fn byte_at(s: &[u8], i: usize) -> u8
    requires { i < length s.now }
    ensures { result ≡ at s.now i }
{
    s[i]
}

// Two bytes at i, high byte first.
pub fn two_at(s: &[u8], i: usize) -> u16
    requires { i + 1 < length s.now }
    ensures { result ≡ two s.now i }
{
    u16::from_be_bytes([s[i], s[i + 1]])
}

// The body's length of a tag that the bytes of a side may hold.
#[tactic(auto, unfolding(model::specs::Field::plan_body, model::specs::Field::table_body))]
fn body_of(side: Side, tag: u8) -> Option<usize>
    ensures { MatchOption result (body_of side tag ≡ 0) (λ body. (body ≡ body_of side tag) × (0 < body) × (body ≤ 17)) }
{
    match (side, tag) {
        (Side::OfPlan, 1) => Some(3),
        (Side::OfPlan, 2) => Some(2),
        (Side::OfPlan, 3) => Some(4),
        (Side::OfTable, 4) => Some(17),
        _ => None,
    }
}

// What stands at a place in the bytes of a side: header cut, tag, length, body cut, in that order.
#[tactic(auto, unfolding(model::specs::Field::step_in))]
pub fn step_in(side: Side, s: &[u8], place: usize) -> Result<Option<Field>, Refusal>
    ensures { result ≡ step_in side s.now place }
{
    if s.len() <= place {
        return Ok(None);
    }
    let rest = s.len() - place;
    if rest < 3 {
        return Err(Refusal::new(Fault::FieldCut, side, place));
    }
    let tag = s[place];
    let Some(body) = body_of(side, tag) else {
        return Err(Refusal::new(Fault::TagUnknown, side, place));
    };
    if usize::from(two_at(s, place + 1)) != body {
        return Err(Refusal::new(Fault::LengthWrong, side, place));
    }
    if rest < 3 + body {
        return Err(Refusal::new(Fault::FieldCut, side, place));
    }
    Ok(Some(Field {
        tag,
        at: place,
        body,
    }))
}

// The settings that tag 1 takes.
#[tactic(auto, unfolding(model::specs::Plan::settings_good))]
fn settings_good(cores: u8, t: u8, d: u8) -> bool
    ensures { result ≡ settings_good cores t d }
{
    (1..=8).contains(&cores) && (1..=64).contains(&t) && (1..=64).contains(&d) && t % d == 0
}

// A tag may come next: one tag 1 first, tags 2 before tags 3.
#[tactic(auto, unfolding(model::specs::Plan::in_order))]
fn in_order(seen: Seen, tag: u8) -> bool
    ensures { result ≡ in_order seen tag }
{
    if !seen.started {
        return tag == 1;
    }
    if tag == 2 { seen.edges == 0 } else { tag == 3 }
}

// The header in a whole field at a place: 4.
#[tactic(auto, unfolding(model::specs::Plan::header_in))]
fn header_in(plan: &[u8], place: usize) -> Result<Option<Taken>, Refusal>
    requires { place + 6 ≤ length plan.now }
    ensures { result ≡ header_in plan.now place }
{
    let cores = plan[place + 3];
    let t = plan[place + 4];
    let d = plan[place + 5];
    if !settings_good(cores, t, d) {
        return Err(Refusal::new(Fault::ValueOutOfRange, Side::OfPlan, place));
    }
    let bus = Bus {
        cores: u32::from(cores),
        t: Time(u32::from(t)),
        d: Words(u32::from(d)),
    };
    Ok(Some(Taken::Header {
        bus,
        next: place + 6,
    }))
}

// The task in a whole field: 6, 4.
#[tactic(auto, unfolding(model::specs::Plan::task_in))]
fn task_in(plan: &[u8], seen: Seen) -> Result<Option<Taken>, Refusal>
    requires { seen.at + 5 ≤ length plan.now }
    ensures { result ≡ task_in plan.now seen }
{
    let place = seen.at;
    if 64 <= seen.tasks {
        return Err(Refusal::new(Fault::TooMany, Side::OfPlan, place));
    }
    let cost = two_at(plan, place + 3);
    if cost == 0 {
        return Err(Refusal::new(Fault::ValueOutOfRange, Side::OfPlan, place));
    }
    Ok(Some(Taken::Task {
        cost,
        next: place + 5,
    }))
}

// The number by which edges rise.
fn key_of(source: u8, target: u8) -> usize
    ensures key { result ≡ key_of source target }
    ensures small { result < 65536 }
{
    256 * usize::from(source) + usize::from(target)
}

// The edge in a whole field: 6, 4, 5.
#[tactic(auto, unfolding(model::specs::Plan::edge_in))]
fn edge_in(plan: &[u8], seen: Seen) -> Result<Option<Taken>, Refusal>
    requires { seen.at + 7 ≤ length plan.now }
    ensures { result ≡ edge_in plan.now seen }
{
    let place = seen.at;
    if 256 <= seen.edges {
        return Err(Refusal::new(Fault::TooMany, Side::OfPlan, place));
    }
    let source = plan[place + 3];
    let target = plan[place + 4];
    let words = two_at(plan, place + 5);
    if seen.tasks <= usize::from(source) || seen.tasks <= usize::from(target) || 4095 < words {
        return Err(Refusal::new(Fault::ValueOutOfRange, Side::OfPlan, place));
    }
    if key_of(source, target) < seen.least {
        return Err(Refusal::new(Fault::EdgesNotRising, Side::OfPlan, place));
    }
    Ok(Some(Taken::Edge {
        source,
        target,
        words,
        next: place + 7,
    }))
}

// What stands at a place of a plan.
pub fn field_at(plan: &[u8], at: usize) -> Result<Option<Field>, Refusal>
    ensures { result ≡ plan_step plan.now at }
{
    step_in(Side::OfPlan, plan, at)
}

// The place after a step: behind the field; on a refusal, and at the end, it stays.
pub fn place_after(plan: &[u8], at: usize) -> usize
    ensures { result ≡ place_after (plan_step plan.now at) at }
{
    match field_at(plan, at) {
        Ok(Some(field)) => field.at + 3 + field.body,
        Ok(None) => at,
        Err(_) => at,
    }
}

// The reader: it holds the lent plan bytes and its position.
#[derive(Clone, Copy)]
pub struct Reader<'a> {
    pub plan: &'a [u8],
    pub at: usize,
}

impl<'a> Reader<'a> {
    pub fn new(plan: &'a [u8]) -> Self
        ensures plan { result.plan ≡ plan.entry }
        ensures at { result.at ≡ 0 }
    {
        Reader { plan, at: 0 }
    }

    // The field at the reader's position.
    pub fn next(self) -> Result<Option<Field>, Refusal>
        ensures { result ≡ plan_step self.entry.plan.now self.entry.at }
    {
        field_at(self.plan, self.at)
    }

    // The reader after that field; on a refusal, and at the end, its position stays.
    pub fn advanced(self) -> Self
        ensures plan { result.plan ≡ self.entry.plan }
        ensures at { result.at ≡ place_after (plan_step self.entry.plan.now self.entry.at) self.entry.at }
    {
        Reader {
            at: place_after(self.plan, self.at),
            ..self
        }
    }
}

// What a reader at a position gives: `field_at` and `Reader::next` with other parameters, and public as they are.
pub fn step_from(plan: &[u8], at: usize) -> Result<Option<Field>, Refusal>
    ensures { result ≡ plan_step plan.now at }
{
    Reader { plan, at }.next()
}

// A whole field by its tag.
#[tactic(auto, unfolding(model::specs::Field::plan_body))]
fn by_tag(plan: &[u8], seen: Seen, tag: u8) -> Result<Option<Taken>, Refusal>
    requires known { plan_body tag ≢ 0 }
    requires whole { seen.at + 3 + plan_body tag ≤ length plan.now }
    ensures { result ≡ tagged plan.now seen tag }
{
    match tag {
        1 => header_in(plan, seen.at),
        2 => task_in(plan, seen),
        _ => edge_in(plan, seen),
    }
}

// The next field, where its tag is in order: none left only behind a header.
fn field_by(plan: &[u8], seen: Seen) -> Result<Option<Taken>, Refusal>
    ensures { result ≡ field_by plan.now seen (plan_step plan.now seen.at) }
{
    match step_from(plan, seen.at)? {
        Some(field) => by_tag(plan, seen, field.tag),
        None if seen.started => Ok(None),
        None => Err(Refusal::new(Fault::FieldCut, Side::OfPlan, seen.at)),
    }
}

// The next field: a tag out of order is refused after a cut header and before the length.
#[tactic(auto, unfolding(model::specs::Plan::field_of))]
fn field_of(plan: &[u8], seen: Seen) -> Result<Option<Taken>, Refusal>
    requires { seen.at ≤ length plan.now }
    ensures { result ≡ field_of plan.now seen }
{
    let at = seen.at;
    if 3 <= plan.len() - at && !in_order(seen, plan[at]) {
        return Err(Refusal::new(Fault::TagUnknown, Side::OfPlan, at));
    }
    field_by(plan, seen)
}

// What is known behind a field.
fn after(seen: Seen, taken: Taken) -> Seen
    requires { Room seen.tasks seen.edges taken }
    ensures { result ≡ after seen taken }
{
    match taken {
        Taken::Header { next, .. } => Seen {
            at: next,
            started: true,
            ..seen
        },
        Taken::Task { next, .. } => Seen {
            at: next,
            tasks: seen.tasks + 1,
            ..seen
        },
        Taken::Edge {
            source,
            target,
            next,
            ..
        } => Seen {
            at: next,
            edges: seen.edges + 1,
            least: key_of(source, target) + 1,
            ..seen
        },
    }
}

// A decoded plan: its execute times and its list order by task, its sources, targets and words by edge, each from the
// front of its column.
#[derive(Clone, Copy)]
pub struct Columns {
    pub bus: Bus,
    pub tasks: usize,
    pub edges: usize,
    pub costs: [u16; 64],
    pub order: [u8; 64],
    pub sources: [u8; 256],
    pub targets: [u8; 256],
    pub amounts: [u16; 256],
}

// What reading a plan comes to: the first refusal, if there is one, and the plan; of a refused one, what was read before. A check
// beside the columns and no Result of them, since `read_plan` promises these of a refused plan too (`plan_read`).
#[derive(Clone, Copy)]
pub struct PlanRead {
    pub check: Result<(), Refusal>,
    pub columns: Columns,
}

impl Columns {
    // Of no plan.
    #[tactic(auto, unfolding(crate::specs::Planned::columns_of, crate::specs::Planned::filled))]
    pub fn new() -> Self
        ensures { result ≡ columns_of no_plan (replicate 64 0) }
    {
        Columns {
            bus: Bus {
                cores: 0,
                t: Time(0),
                d: Words(0),
            },
            tasks: 0,
            edges: 0,
            costs: [0; 64],
            order: [0; 64],
            sources: [0; 256],
            targets: [0; 256],
            amounts: [0; 256],
        }
    }

    // One field more, behind those before it.
    fn keep(&mut self, taken: Taken)
        requires { Room self.old.tasks self.old.edges taken }
        ensures { self.new ≡ kept self.old taken }
    {
        match taken {
            Taken::Header { bus, .. } => self.bus = bus,
            Taken::Task { cost, .. } => {
                self.costs[self.tasks] = cost;
                self.tasks += 1;
            }
            Taken::Edge {
                source,
                target,
                words,
                ..
            } => {
                self.sources[self.edges] = source;
                self.targets[self.edges] = target;
                self.amounts[self.edges] = words;
                self.edges += 1;
            }
        }
    }

    // All fields of a plan.
    fn parse(&mut self, plan: &[u8]) -> Result<(), Refusal>
        requires { self.old ≡ columns_of no_plan (replicate 64 0) }
        ensures check { result ≡ (reading_of plan.now).check }
        ensures columns { self.new ≡ columns_of (reading_of plan.now).plan (replicate 64 0) }
    {
        let mut seen = Seen {
            at: 0,
            started: false,
            tasks: 0,
            edges: 0,
            least: 0,
        };
        while let Some(taken) = field_of(plan, seen)? {
            self.keep(taken);
            seen = after(seen, taken);
        }
        Ok(())
    }

    // The list order of the fields that were read, and the cycle test: refusal 7, or all tasks are in it.
    #[tactic(auto, using(crate::proofs::Waiting::left_over_lem))]
    fn list(&mut self, place: usize) -> Result<(), Refusal>
        requires few { self.old.edges ≤ 256 }
        requires edges { EdgesIn self.old }
        ensures check { result ≡ refuse_if (left_over (graph_in self.old)) (refusal Fault.Cyclic Side.OfPlan place) }
        ensures order { self.new ≡ record self.old { order = filled (list_order (graph_in self.old)) self.old.order } }
    {
        let graph = Graph {
            tasks: self.tasks,
            sources: &self.sources[..self.edges],
            targets: &self.targets[..self.edges],
        };
        let taken = graph.list_order(&mut self.order);
        let cyclic = Refusal::new(Fault::Cyclic, Side::OfPlan, place);
        refuse_if(taken < self.tasks, cyclic)
    }

    // The plan that bytes are, into the columns of no plan; of a refused one, what was read before.
    pub fn read(&mut self, plan: &[u8]) -> Result<(), Refusal>
        requires { self.old ≡ columns_of no_plan (replicate 64 0) }
        ensures value { record { check = result; columns = self.new } ≡ plan_read plan.now }
        ensures planned { MatchResult result (λ _. Holds plan.now self.new (reading_of plan.now).plan) (λ refusal. plan_of plan.now ≡ Err refusal) }
    {
        self.parse(plan)?;
        self.list(plan.len())
    }
}

// The plan that bytes are.
pub fn read_plan(plan: &[u8]) -> PlanRead
    ensures { result ≡ plan_read plan.now }
{
    let mut columns = Columns::new();
    let check = columns.read(plan);
    PlanRead { check, columns }
}
