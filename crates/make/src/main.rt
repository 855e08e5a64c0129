// Makes a table of the plan on standard input: prints `makespan` and the makespan, then a line for each task, its number, core,
// R, E, W and F; or `refused`, the number and the place.
#![tactic(auto)]

ghost use Rattle.std.specs.Prelude.{◌*◌, ◌≤◌, ◌<◌, length};

use std::io;

// The line of task i.
fn line(rt: &impl Print, numbers: &[u32], i: usize) -> io::Result<()>
    requires { (i < 64) × (320 ≤ length numbers.now) }
{
    let core = table::core_at(numbers, i);
    let r = table::read_start(numbers, i);
    let e = table::execute_start(numbers, i);
    let w = table::write_start(numbers, i);
    let f = table::end_at(numbers, i);
    println!(rt; "{i} {core} {r} {e} {w} {f}")
}

// The fields that were made, each of 20 bytes: the output held 0 where now their tags stand.
fn fields(made: &[u8]) -> usize
    requires { 1280 ≤ length made.now }
    ensures { result ≤ 64 }
{
    for i in 0..64 {
        if made[20 * i] == 0 {
            return i;
        }
    }
    64
}

fn lines(rt: &impl Print, made: &[u8]) -> io::Result<()>
    requires { 1280 ≤ length made.now }
{
    let mut numbers = [0u32; 320];
    let tasks = fields(made);
    table::take_rows(made, tasks, &mut numbers);
    for i in 0..tasks {
        line(rt, &numbers, i)?;
    }
    Ok(())
}

fn main(rt: HostRuntime) -> io::Result<()> {
    let mut plan = [0u8; 4096];
    let n = input::read_front(&mut rt.stdin(), &mut plan)?;
    let mut made = [0u8; 1280];
    match maker::make(&plan[..n], &mut made) {
        Ok(makespan) => {
            println!(rt; "makespan {}", makespan.0)?;
            lines(&rt, &made)
        }
        Err(refusal) => println!(rt; "{refusal}"),
    }
}
