// Printing answers.
use model::{Refusal, Time};
use std::fmt::Display;
use std::io;

// Number, side and place.
pub fn refusal(rt: &impl Print, r: Refusal) -> io::Result<()> {
    let number = u32::from(r.fault);
    let side = r.side as u32;
    let place = r.place;
    print!(rt; " refused {number} {side} {place}")
}

// A blank before each number of a list.
pub fn numbers<T: Display>(rt: &impl Print, list: &[T]) -> io::Result<()> {
    for x in list {
        print!(rt; " {x}")?;
    }
    Ok(())
}

// What a check answers: nothing of a success.
pub fn check(rt: &impl Print, answer: Result<(), Refusal>) -> io::Result<()> {
    match answer {
        Ok(()) => Ok(()),
        Err(r) => refusal(rt, r),
    }
}

// A makespan, or the refusal.
pub fn time(rt: &impl Print, answer: Result<Time, Refusal>) -> io::Result<()> {
    match answer {
        Ok(makespan) => print!(rt; " {}", makespan.0),
        Err(r) => refusal(rt, r),
    }
}
