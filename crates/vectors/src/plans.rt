// Plans and their fields.
ghost use Rattle.plan.specs.Planned.{Sized};

use plan::Columns;
use std::io;

// Cores, T, D, then the execute times, the list order and the edges' sources, targets and words.
fn show_columns(rt: &impl Print, columns: &Columns) -> io::Result<()>
    requires { Sized columns.now }
{
    let bus = columns.bus;
    let n = columns.tasks;
    let m = columns.edges;
    crate::text::numbers(rt, &[bus.cores, bus.t.0, bus.d.0])?;
    if 64 < n || 256 < m {
        return Ok(());
    }
    print!(rt; " tasks")?;
    crate::text::numbers(rt, &columns.costs[..n])?;
    print!(rt; " order")?;
    crate::text::numbers(rt, &columns.order[..n])?;
    print!(rt; " edges")?;
    crate::text::numbers(rt, &columns.sources[..m])?;
    crate::text::numbers(rt, &columns.targets[..m])?;
    crate::text::numbers(rt, &columns.amounts[..m])
}

pub fn show_plan(rt: &impl Print, s: &[u8]) -> io::Result<()> {
    let read = plan::read_plan(s);
    print!(rt; "plan")?;
    match read.check {
        Ok(()) => show_columns(rt, &read.columns)?,
        Err(refusal) => crate::text::refusal(rt, refusal)?,
    }
    println!(rt)
}

// The step at a place: the field's tag, offset and body length, or that none is left; then where the reader then stands.
pub fn show_step(rt: &impl Print, s: &[u8], at: usize) -> io::Result<()> {
    print!(rt; "step")?;
    match plan::step_from(s, at) {
        Ok(Some(field)) => {
            crate::text::numbers(rt, &[usize::from(field.tag), field.at, field.body])?;
        }
        Ok(None) => print!(rt; " none")?,
        Err(refusal) => crate::text::refusal(rt, refusal)?,
    }
    println!(rt; " then {}", plan::place_after(s, at))
}
