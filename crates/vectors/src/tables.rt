// Tables: read, written, judged and made. A lent list is printed whole, so that what stays as it was shows too.
ghost use Rattle.std.specs.Prelude.{◌≤◌, length};

use std::io;

// At most 2,048.
pub fn fitting(n: usize) -> usize
    ensures { result ≤ 2048 }
{
    n.min(2048)
}

// The numbers of four bytes each that bytes are, as many as there is room for.
pub fn take_numbers(s: &[u8], out: &mut [u32]) -> usize
    ensures { result ≤ length out.new }
{
    let count = (s.len() / 4).min(out.len());
    for i in 0..count {
        out[i] = table::four_at(s, 4 * i);
    }
    count
}

pub fn show_read(rt: &impl Print, plan: &[u8], table: &[u8], room: usize) -> io::Result<()> {
    let mut out = [9u32; 2048];
    let out = &mut out[..fitting(room)];
    let answer = table::read(plan, table, out);
    print!(rt; "read")?;
    crate::text::check(rt, answer)?;
    print!(rt; " list")?;
    crate::text::numbers(rt, out)?;
    println!(rt)
}

pub fn show_write(rt: &impl Print, plan: &[u8], numbers: &[u8], room: usize) -> io::Result<()> {
    let mut table = [0u32; 2048];
    let count = take_numbers(numbers, &mut table);
    let mut out = [9u8; 2048];
    let out = &mut out[..fitting(room)];
    let answer = table::write(plan, &table[..count], out);
    print!(rt; "write")?;
    crate::text::check(rt, answer)?;
    print!(rt; " bytes")?;
    crate::text::numbers(rt, out)?;
    println!(rt)
}

pub fn show_verify(rt: &impl Print, plan: &[u8], table: &[u8]) -> io::Result<()> {
    print!(rt; "verify")?;
    crate::text::time(rt, verifier::verify(plan, table))?;
    println!(rt)
}

pub fn show_make(rt: &impl Print, plan: &[u8], room: usize) -> io::Result<()> {
    let mut out = [9u8; 2048];
    let out = &mut out[..fitting(room)];
    let answer = maker::make(plan, out);
    print!(rt; "make")?;
    crate::text::time(rt, answer)?;
    print!(rt; " bytes")?;
    crate::text::numbers(rt, out)?;
    println!(rt)
}
