// Judges table.bin by plan.bin, both in the current folder: prints `accepted` and the makespan, or `refused`, the number
// and the place.
#![tactic(auto)]

ghost use Rattle.std.specs.Prelude.{◌≡◌, ◌≤◌, length, take, IfOk};

use std::fs::File;
use std::io;

// At most as many bytes of a file as fit; none of one that can't be opened.
fn load(rt: &HostRuntime, path: &str, buf: &mut [u8]) -> io::Result<usize>
    ensures { IfOk result (λ n. (n ≤ length buf.new) × (n ≡ length (take n buf.new))) }
{
    match File::open(rt, path) {
        Ok(mut file) => input::read_front(&mut file, buf),
        Err(_) => Ok(0),
    }
}

fn main(rt: HostRuntime) -> io::Result<()> {
    let mut plan = [0u8; 4096];
    let mut table = [0u8; 4096];
    let p = load(&rt, "plan.bin", &mut plan)?;
    let t = load(&rt, "table.bin", &mut table)?;
    match verifier::verify(&plan[..p], &table[..t]) {
        Ok(makespan) => println!(rt; "accepted {}", makespan.0),
        Err(refusal) => println!(rt; "{refusal}"),
    }
}
