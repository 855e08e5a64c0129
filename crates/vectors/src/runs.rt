// Tables played on the bus. A lent list is printed whole, so that what stays as it was shows too.
use std::io;

// Of six bytes and more: the length of the list lent, two bytes; the core served last, four; the word counts, four each.
pub fn show_run(rt: &impl Print, plan: &[u8], table: &[u8], given: &[u8]) -> io::Result<()> {
    if given.len() < 6 {
        return Ok(());
    }
    let room = usize::from(plan::two_at(given, 0));
    let served = table::four_at(given, 2);
    let mut words = [0u32; 2048];
    let count = crate::tables::take_numbers(&given[6..], &mut words);
    let mut out = [9u32; 2048];
    let out = &mut out[..crate::tables::fitting(room)];
    let answer = run::run(plan, table, served, &words[..count], out);
    print!(rt; "run")?;
    crate::text::check(rt, answer)?;
    print!(rt; " list")?;
    crate::text::numbers(rt, out)?;
    println!(rt)
}
