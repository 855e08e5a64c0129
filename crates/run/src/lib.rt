// The bus run: a table that the verifier accepts, played with a core served last and actual word counts.
#![tactic(auto)]

ghost use Rattle.std.specs.Prelude.{◌≡◌, ◌≤◌, ◌<◌, length};
ghost use Rattle.model.specs.Answers.{played_of, played_output};
ghost use Rattle.model.specs.Refusals.{refuse_if};
ghost use Rattle.run.specs.Checks.{over_check, words_by, run_by};

use contention::PhaseColumns;
use model::{Fault, Refusal, Side};

// Refuses where what a run is given is wrong: neither the plan nor the table is.
fn refuse_if(wrong: bool, fault: Fault, place: usize) -> Result<(), Refusal>
    ensures { result ≡ refuse_if wrong (record { fault = fault; side = Side.OfNeither; place = place }) }
{
    model::refuse_if(wrong, Refusal::new(fault, Side::OfNeither, place))
}

// 17: more words for phase x than are declared for it.
#[tactic(auto, unfolding(crate::specs::Checks::over_check, crate::specs::Checks::over_at))]
fn over_check(most: &[u32], words: &[u32], x: usize) -> Result<(), Refusal>
    requires declared { x < length most.now }
    requires given { x < length words.now }
    ensures { result ≡ over_check most.now words.now x }
{
    refuse_if(most[x] < words[x], Fault::WordsWrong, x)
}

// 17: another length than the declared words have, or the first count above the declared.
#[tactic(auto, unfolding(crate::specs::Checks::words_by))]
fn words_check(most: &[u32], words: &[u32]) -> Result<(), Refusal>
    ensures { result ≡ words_by most.now words.now }
{
    refuse_if(words.len() != most.len(), Fault::WordsWrong, words.len())?;
    model::first_bad(most.len(), |x| over_check(most, words, x))
}

// 16, 17, 8.
#[tactic(auto, unfolding(crate::specs::Checks::run_by))]
fn run_check(
    cores: u32,
    served: u32,
    most: &[u32],
    words: &[u32],
    room: usize,
) -> Result<(), Refusal>
    requires { length most.now ≤ 128 }
    ensures { result ≡ run_by cores served most.now words.now room }
{
    refuse_if(cores <= served, Fault::ServedUnknown, 0)?;
    words_check(most, words)?;
    refuse_if(room < 2 * most.len(), Fault::OutputShort, 0)
}

// The bus run: of every phase its end and its waits, 4n numbers at the front of a lent list.
pub fn run(
    plan: &[u8],
    table: &[u8],
    served: u32,
    words: &[u32],
    out: &mut [u32],
) -> Result<(), Refusal>
    ensures answer { result ≡ played_of plan.now table.now served words.now out.old }
    ensures output { out.new ≡ played_output plan.now table.now served words.now out.old }
{
    let mut core = [0; 128];
    let mut start = [0; 128];
    let mut end = [0; 128];
    let mut most = [0; 128];
    let obeyed = verifier::judge(plan, table, &mut core, &mut start, &mut end, &mut most)?;
    let count = 2 * obeyed.tasks;
    let most = &most[..count];
    run_check(obeyed.bus.cores, served, most, words, out.len())?;
    let phases = PhaseColumns {
        core: &core[..count],
        start: &start[..count],
        end: &end[..count],
        words: most,
    };
    bus::play_phases(obeyed.bus, phases, words, served, out);
    Ok(())
}
