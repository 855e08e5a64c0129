// Runs cases from standard input and prints what the functions answer, a line for each. A case is a kind and three blocks; a block
// is a two-byte length and bytes. tests/vectors/gen.py writes the cases, and what an independent program says of them.
#![tactic(auto)]

ghost use Rattle.std.specs.Prelude.{◌<◌, ◌≤◌, length, IfOk};

use std::io;

mod plans;
mod runs;
mod tables;
mod text;

// What a case asks for.
#[derive(Clone, Copy)]
enum Kind {
    Plan,
    Step,
    Read,
    Write,
    Verify,
    Run,
    Make,
}

impl From<u8> for Kind {
    fn from(number: u8) -> Kind {
        match number {
            1 => Kind::Plan,
            2 => Kind::Step,
            3 => Kind::Read,
            4 => Kind::Write,
            5 => Kind::Verify,
            6 => Kind::Run,
            _ => Kind::Make,
        }
    }
}

// A block's bytes, and what is behind it. A block that is cut ends with the input; one whose length is cut has no bytes.
fn block(s: &[u8]) -> (&[u8], &[u8])
    ensures { length result.1.now ≤ length s.now }
{
    if s.len() < 2 {
        let (_, end) = s.split_at(s.len());
        return (end, end);
    }
    let size = usize::from(plan::two_at(s, 0));
    let rest = &s[2..];
    rest.split_at(size.min(rest.len()))
}

// A number of two bytes, 0 of any other block.
fn small(s: &[u8]) -> usize {
    if s.len() == 2 {
        usize::from(plan::two_at(s, 0))
    } else {
        0
    }
}

// What a case's function answers of its blocks.
fn show(rt: &impl Print, kind: Kind, first: &[u8], second: &[u8], third: &[u8]) -> io::Result<()> {
    match kind {
        Kind::Plan => plans::show_plan(rt, first),
        Kind::Step => plans::show_step(rt, first, small(third)),
        Kind::Read => tables::show_read(rt, first, second, small(third)),
        Kind::Write => tables::show_write(rt, first, second, small(third)),
        Kind::Verify => tables::show_verify(rt, first, second),
        Kind::Run => runs::show_run(rt, first, second, third),
        Kind::Make => tables::show_make(rt, first, small(third)),
    }
}

// The case at the front of the input's rest; the answer is what is behind it.
fn case<'a>(rt: &impl Print, kind: u8, blocks: &'a [u8]) -> io::Result<&'a [u8]>
    ensures { IfOk result (λ rest. length rest.now ≤ length blocks.now) }
{
    let (first, rest) = block(blocks);
    let (second, rest) = block(rest);
    let (third, rest) = block(rest);
    show(rt, Kind::from(kind), first, second, third)?;
    Ok(rest)
}

fn cases(rt: &impl Print, s: &[u8]) -> io::Result<()> {
    let mut rest = s;
    while let Some((kind, blocks)) = rest.split_first() {
        rest = case(rt, *kind, blocks)?;
    }
    Ok(())
}

fn main(rt: HostRuntime) -> io::Result<()> {
    let mut buf = [0u8; 65536];
    let n = input::read_front(&mut rt.stdin(), &mut buf)?;
    cases(&rt, &buf[..n])
}
