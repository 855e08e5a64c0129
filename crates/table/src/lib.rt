// A table's bytes, both ways, and its numbers in working memory: core, R, E, W, F of each task, one after the other.
#![tactic(auto)]

ghost use Rattle.std.specs.Prelude.{◌≡◌, ℕ, ◌+◌, ◌*◌, ◌/◌, ◌≤◌, ◌<◌, [], ◌∷◌, ◌++◌, length, drop};
ghost use Rattle.model.specs.Below.{stored};
ghost use Rattle.model.specs.Field.{four};
ghost use Rattle.model.specs.Refusals.{refusal, first_bad};
ghost use Rattle.model.specs.Contention.{of_phase};
ghost use Rattle.model.specs.Answers.{decoded_of, decoded_output, written_of, written_output};
ghost use Rattle.model.specs.Table.{of_numbers, of_bytes, numbers_at, numbers, four_bytes, field_bytes, bytes_at, bytes, values_of, values_at, row_at, rows_check, values_check};
ghost use Rattle.table.specs.Row.{row_of};

use model::{Fault, Refusal, Side};
use plan::Columns;

// ---- a table in working memory: these five know where a number stands. A plain slice, as C lends it, so each says of its length
// what it needs; five names and not one with an offset as its parameter, since the offsets are known here alone.
pub fn core_at(table: &[u32], i: usize) -> u32
    requires { 5 * i + 5 ≤ length table.now }
    ensures { result ≡ (of_numbers table.now).core i }
{
    table[5 * i]
}

pub fn read_start(table: &[u32], i: usize) -> u32
    requires { 5 * i + 5 ≤ length table.now }
    ensures { result ≡ (of_numbers table.now).R i }
{
    table[5 * i + 1]
}

pub fn execute_start(table: &[u32], i: usize) -> u32
    requires { 5 * i + 5 ≤ length table.now }
    ensures { result ≡ (of_numbers table.now).E i }
{
    table[5 * i + 2]
}

pub fn write_start(table: &[u32], i: usize) -> u32
    requires { 5 * i + 5 ≤ length table.now }
    ensures { result ≡ (of_numbers table.now).W i }
{
    table[5 * i + 3]
}

pub fn end_at(table: &[u32], i: usize) -> u32
    requires { 5 * i + 5 ≤ length table.now }
    ensures { result ≡ (of_numbers table.now).F i }
{
    table[5 * i + 4]
}

// Of phase x (2i the read of task i, 2i + 1 its write): its core, and its window. Start and end have a name each, as the marks have:
// one function over both would need a third to choose from.
pub fn phase_core(table: &[u32], x: usize) -> u32
    requires { 5 * (x / 2) + 5 ≤ length table.now }
    ensures { result ≡ (of_numbers table.now).core (x / 2) }
{
    core_at(table, x / 2)
}

#[tactic(auto, using(model::proofs::Contention::of_read, model::proofs::Contention::of_write))]
pub fn phase_start(table: &[u32], x: usize) -> u32
    requires { 5 * (x / 2) + 5 ≤ length table.now }
    ensures { result ≡ of_phase (of_numbers table.now).R (of_numbers table.now).W x }
{
    if x % 2 == 0 {
        read_start(table, x / 2)
    } else {
        write_start(table, x / 2)
    }
}

#[tactic(auto, using(model::proofs::Contention::of_read, model::proofs::Contention::of_write))]
pub fn phase_end(table: &[u32], x: usize) -> u32
    requires { 5 * (x / 2) + 5 ≤ length table.now }
    ensures { result ≡ of_phase (of_numbers table.now).E (of_numbers table.now).F x }
{
    if x % 2 == 0 {
        execute_start(table, x / 2)
    } else {
        end_at(table, x / 2)
    }
}

// ---- one task's numbers
// Its core, and its marks R, E, W, F.
#[derive(Clone, Copy, Debug, PartialEq, Eq)]
struct Row {
    core: u32,
    r: u32,
    e: u32,
    w: u32,
    f: u32,
}

// Task i's, of a table in working memory.
fn given_row(table: &[u32], i: usize) -> Row
    requires { 5 * i + 5 ≤ length table.now }
    ensures { result ≡ row_of (of_numbers table.now) i }
{
    Row {
        core: core_at(table, i),
        r: read_start(table, i),
        e: execute_start(table, i),
        w: write_start(table, i),
        f: end_at(table, i),
    }
}

// Four bytes as a number, high byte first.
pub fn four_at(s: &[u8], i: usize) -> u32
    requires { i + 4 ≤ length s.now }
    ensures { result ≡ four s.now i }
{
    u32::from_be_bytes([s[i], s[i + 1], s[i + 2], s[i + 3]])
}

// Task i's, of a whole field.
fn field_row(s: &[u8], i: usize) -> Row
    requires { 20 * i + 20 ≤ length s.now }
    ensures { result ≡ row_of (of_bytes s.now) i }
{
    let place = 20 * i;
    Row {
        core: u32::from(s[place + 3]),
        r: four_at(s, place + 4),
        e: four_at(s, place + 8),
        w: four_at(s, place + 12),
        f: four_at(s, place + 16),
    }
}

// ---- checks. The number of tasks stands beside a list of any length, since another one is refused; it is at most 64, so that
// offsets fit, and a plain number, as a plan has it.
fn refused(fault: Fault, place: usize) -> Refusal
    ensures { result ≡ record { fault = fault; side = Side.OfTable; place = place } }
{
    Refusal::new(fault, Side::OfTable, place)
}

// The values of a field: 10, 11.
#[tactic(auto, unfolding(model::specs::Table::values_of, model::specs::Table::non_falling))]
fn values_check(cores: u32, place: usize, row: Row) -> Result<(), Refusal>
    ensures { result ≡ values_of cores place row.core row.r row.e row.w row.f }
{
    let rising = row.r <= row.e && row.e <= row.w && row.w <= row.f;
    model::refuse_if(cores <= row.core, refused(Fault::CoreUnknown, place))?;
    model::refuse_if(!rising, refused(Fault::MarksFalling, place))
}

// Task i's field: 9 if none remains, 1, 2, 3, 1, then its values.
#[tactic(auto, using(crate::proofs::Checks::row_whole), unfolding(model::specs::Table::row_at))]
fn row_check(cores: u32, s: &[u8], i: usize) -> Result<(), Refusal>
    requires { i < 64 }
    ensures { result ≡ row_at cores s.now i }
{
    match plan::step_in(Side::OfTable, s, 20 * i)? {
        Some(_) => values_check(cores, 20 * i, field_row(s, i)),
        None => Err(refused(Fault::FieldCount, s.len())),
    }
}

// All fields in order, then 9 for bytes left over.
#[tactic(auto, unfolding(model::specs::Table::rows_check))]
pub fn table_check(cores: u32, tasks: usize, s: &[u8]) -> Result<(), Refusal>
    requires { tasks ≤ 64 }
    ensures { result ≡ rows_check cores tasks s.now }
{
    model::first_bad(tasks, |i| row_check(cores, s, i))?;
    model::refuse_if(20 * tasks < s.len(), refused(Fault::FieldCount, 20 * tasks))
}

// ---- storing numbers and bytes
// The five numbers of task i.
#[tactic(auto, using(model::proofs::Stores::part_stored))]
fn put_numbers(out: &mut [u32], i: usize, row: Row)
    requires { 5 * i + 5 ≤ length out.old }
    ensures { out.new ≡ stored out.old (5 * i) (row.core ∷ row.r ∷ row.e ∷ row.w ∷ row.f ∷ []) }
{
    let at = 5 * i;
    out[at..at + 5].copy_from_slice(&[row.core, row.r, row.e, row.w, row.f]);
}

// The numbers of a whole field.
#[tactic(auto, unfolding(model::specs::Table::numbers_at))]
fn take_row(s: &[u8], i: usize, out: &mut [u32])
    requires { (20 * i + 20 ≤ length s.now) × (5 * i + 5 ≤ length out.old) }
    ensures { out.new ≡ stored out.old (5 * i) (numbers_at (of_bytes s.now) i) }
{
    put_numbers(out, i, field_row(s, i));
}

// The numbers of all fields, at the front of a list. Both lists may be longer, so their number of tasks stands beside them.
#[tactic(auto, using(crate::proofs::Rows::number_blocks))]
pub fn take_rows(s: &[u8], tasks: usize, out: &mut [u32])
    requires { (tasks ≤ 64) × (20 * tasks ≤ length s.now) × (5 * tasks ≤ length out.old) }
    ensures { out.new ≡ numbers (of_bytes s.now) tasks ++ drop (5 * tasks) out.old }
{
    for i in 0..tasks {
        take_row(s, i, out);
    }
}

// Four bytes, high byte first.
#[tactic(auto, using(crate::proofs::Rows::four_stored))]
fn put_four(out: &mut [u8], at: usize, x: u32)
    requires { at + 4 ≤ length out.old }
    ensures { out.new ≡ stored out.old at (four_bytes x) }
{
    out[at..at + 4].copy_from_slice(&x.to_be_bytes());
}

// Tag, body length and core.
#[tactic(auto, using(model::proofs::Stores::part_stored))]
fn put_head(out: &mut [u8], at: usize, core: u8)
    requires { at + 4 ≤ length out.old }
    ensures { out.new ≡ stored out.old at (4 ∷ 0 ∷ 17 ∷ core ∷ []) }
{
    out[at..at + 4].copy_from_slice(&[4, 0, 17, core]);
}

// The field of task i.
#[tactic(auto, using(crate::proofs::Rows::field_stored))]
fn put_field(out: &mut [u8], i: usize, row: Row)
    requires { (20 * i + 20 ≤ length out.old) × (row.core < 256) }
    ensures { out.new ≡ stored out.old (20 * i) (field_bytes row.core row.r row.e row.w row.f) }
{
    let at = 20 * i;
    put_head(out, at, row.core as u8);
    put_four(out, at + 4, row.r);
    put_four(out, at + 8, row.e);
    put_four(out, at + 12, row.w);
    put_four(out, at + 16, row.f);
}

// The bytes of a table in working memory, at the front of a lent output.
#[tactic(auto, using(crate::proofs::Rows::byte_blocks))]
pub fn put_rows(table: &[u32], tasks: usize, out: &mut [u8])
    requires { (tasks ≤ 64) × (5 * tasks ≤ length table.now) × (20 * tasks ≤ length out.old) × ((i : ℕ) → i < tasks → (of_numbers table.now).core i < 256) }
    ensures { out.new ≡ bytes (of_numbers table.now) tasks ++ drop (20 * tasks) out.old }
{
    for i in 0..tasks {
        put_field(out, i, given_row(table, i));
    }
}

// ---- the writer's checks: another list length, then task by task its values
#[tactic(auto, unfolding(model::specs::Table::values_check))]
fn numbers_check(cores: u32, tasks: usize, table: &[u32]) -> Result<(), Refusal>
    requires { tasks ≤ 64 }
    ensures { result ≡ values_check cores tasks table.now }
{
    model::refuse_if(
        table.len() != 5 * tasks,
        refused(Fault::FieldCount, 20 * tasks),
    )?;
    model::first_bad(tasks, |i| {
        values_check(cores, 20 * i, given_row(table, i))
    })
}

// 8: a lent output that is too short.
pub fn short_output() -> Refusal
    ensures { result ≡ refusal Fault.OutputShort Side.OfNeither 0 }
{
    Refusal::new(Fault::OutputShort, Side::OfNeither, 0)
}

// The table reader: plan and table bytes to 5n numbers at the front of a lent list.
#[tactic(auto, using(model::proofs::ReadBack::rows_length), unfolding(model::specs::Answers::decoded_of, model::specs::Answers::decoded_output, model::specs::Answers::decoding, model::specs::Answers::room, model::specs::Table::table_of))]
pub fn read(plan: &[u8], table: &[u8], out: &mut [u32]) -> Result<(), Refusal>
    ensures answer { result ≡ decoded_of plan.now table.now out.old }
    ensures output { out.new ≡ decoded_output plan.now table.now out.old }
{
    let mut columns = Columns::new();
    columns.read(plan)?;
    let tasks = columns.tasks;
    table_check(columns.bus.cores, tasks, table)?;
    model::refuse_if(out.len() < 5 * tasks, short_output())?;
    take_rows(table, tasks, out);
    Ok(())
}

// The writer of given table values: plan bytes and 5n numbers to 20n bytes at the front of a lent output.
#[tactic(auto, unfolding(model::specs::Answers::written_of, model::specs::Answers::written_output, model::specs::Answers::writing, model::specs::Answers::room))]
pub fn write(plan: &[u8], table: &[u32], out: &mut [u8]) -> Result<(), Refusal>
    ensures answer { result ≡ written_of plan.now table.now out.old }
    ensures output { out.new ≡ written_output plan.now table.now out.old }
{
    let mut columns = Columns::new();
    columns.read(plan)?;
    let tasks = columns.tasks;
    numbers_check(columns.bus.cores, tasks, table)?;
    model::refuse_if(out.len() < 20 * tasks, short_output())?;
    put_rows(table, tasks, out);
    Ok(())
}
