// The C interface (include/nizumokage.h): the five entry points, with their answers by value. A slice is a pointer and a length.
#![tactic(auto)]

ghost use Rattle.std.specs.Prelude.{◌≡◌};
ghost use Rattle.model.specs.Answers.{says_no, time_says, check_says};
ghost use Rattle.model.specs.Answers.{verdict_of, made_of, made_output, written_of, written_output, decoded_of, decoded_output, played_of, played_output};
ghost use Rattle.nizumokage.specs.Interface.{answer_of};

use model::{Refusal, Time};

// `struct nz_answer`: numbers, as C takes them.
#[repr(C)]
#[derive(Clone, Copy)]
pub struct Answer {
    pub number: u32,
    pub side: u32,
    pub place: u64,
    pub value: u64,
}

impl From<Refusal> for Answer {
    ghost from_gives = { λ refusal answer. answer ≡ answer_of (says_no refusal) };

    fn from(refusal: Refusal) -> Answer {
        Answer {
            number: u32::from(refusal.fault),
            side: refusal.side as u32,
            place: refusal.place as u64,
            value: 0,
        }
    }
}

// Number 0 is success.
fn done(value: u64) -> Answer
    ensures { result ≡ record { number = 0; side = 0; place = 0; value = value } }
{
    Answer {
        number: 0,
        side: 0,
        place: 0,
        value,
    }
}

impl From<Result<Time, Refusal>> for Answer {
    ghost from_gives = { λ answered answer. answer ≡ answer_of (time_says answered) };

    fn from(answered: Result<Time, Refusal>) -> Answer {
        match answered {
            Ok(makespan) => done(u64::from(makespan.0)),
            Err(refusal) => Answer::from(refusal),
        }
    }
}

impl From<Result<(), Refusal>> for Answer {
    ghost from_gives = { λ answered answer. answer ≡ answer_of (check_says answered) };

    fn from(answered: Result<(), Refusal>) -> Answer {
        match answered {
            Ok(()) => done(0),
            Err(refusal) => Answer::from(refusal),
        }
    }
}

// The verifier.
#[unsafe(no_mangle)]
pub extern "C" fn nz_verify(plan: &[u8], table: &[u8]) -> Answer
    ensures { result ≡ answer_of (time_says (verdict_of plan.now table.now)) }
{
    Answer::from(verifier::verify(plan, table))
}

// The schedule maker.
#[unsafe(no_mangle)]
pub extern "C" fn nz_make(plan: &[u8], out: &mut [u8]) -> Answer
    ensures answer { result ≡ answer_of (time_says (made_of plan.now out.old)) }
    ensures output { out.new ≡ made_output plan.now out.old }
{
    Answer::from(maker::make(plan, out))
}

// The table reader.
#[unsafe(no_mangle)]
pub extern "C" fn nz_read(plan: &[u8], table: &[u8], out: &mut [u32]) -> Answer
    ensures answer { result ≡ answer_of (check_says (decoded_of plan.now table.now out.old)) }
    ensures output { out.new ≡ decoded_output plan.now table.now out.old }
{
    Answer::from(table::read(plan, table, out))
}

// The writer of given table values.
#[unsafe(no_mangle)]
pub extern "C" fn nz_write(plan: &[u8], numbers: &[u32], out: &mut [u8]) -> Answer
    ensures answer { result ≡ answer_of (check_says (written_of plan.now numbers.now out.old)) }
    ensures output { out.new ≡ written_output plan.now numbers.now out.old }
{
    Answer::from(table::write(plan, numbers, out))
}

// The bus run.
#[unsafe(no_mangle)]
pub extern "C" fn nz_run(
    plan: &[u8],
    table: &[u8],
    last: u32,
    words: &[u32],
    out: &mut [u32],
) -> Answer
    ensures answer { result ≡ answer_of (check_says (played_of plan.now table.now last words.now out.old)) }
    ensures output { out.new ≡ played_output plan.now table.now last words.now out.old }
{
    Answer::from(run::run(plan, table, last, words, out))
}
