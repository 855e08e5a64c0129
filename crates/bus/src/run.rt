// What a run under way keeps.
ghost use Rattle.std.specs.Prelude.{◌≡◌, ℕ, ◌^◌, ◌<◌, ◌≤◌, length};
ghost use Rattle.model.specs.Below.{at};

use contention::PhaseColumns;

// A run under way: its phases, the words that each has left, and each core's head. A core without one has the number of phases
// in its place: with an Option the laws of heads (proofs/Heads.antt) would have two cases each.
#[derive(Drop)]
pub struct Run<'a> {
    pub phases: PhaseColumns<'a>,
    pub left: &'a mut [u32],
    pub head: &'a mut [usize],
    pub ghost counted: { length left.now ≡ length phases.core.now },
    pub ghost few: { length head.now ≤ 8 },
    pub ghost ends: { (z : ℕ) → at phases.end.now z < 2 ^ 32 },
}
