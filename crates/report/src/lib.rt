// The asking: its refusals, its answer, and what is left in the lent room and work area.
#![tactic(auto)]

ghost use Rattle.std.specs.Prelude.{◌≡◌, List, ◌++◌, ℕ, ◌+◌, ◌-◌, ◌≤◌, ◌<◌, length, slice_index, ℤ};
ghost use Rattle.lists.specs.Parts.{gather, written};
ghost use Rattle.timing.specs.Limits.{most_pins, most_k, work_length};
ghost use Rattle.timing.specs.Refusals.{checked_of};
ghost use Rattle.timing.specs.Asked.{asking_bad, room_bad, asking_fault};
ghost use Rattle.timing.specs.Allows.{AskAllows};
ghost use Rattle.report.specs.Rowed.{row_in, Rowed};
ghost use Rattle.report.specs.Writing.{Writes, rows_in};
ghost use Rattle.report.specs.Answered.{Granted, Answers};
ghost use Rattle.report.specs.Row.{signed, head_length, arc_places};

use timing::{Answer, Candidate, Design, Refusal};
use winners::Best;

// The k worst paths of a table in a mode (0 setup, 1 hold), as rows at the front of the room: rows given and total, or the refusal, with which nothing is written.
// After an answer the work area is zero over the length that is named for it. Places beyond stay, in both.
pub fn ask(
    table: &[u32],
    mode: u32,
    k: usize,
    room: &mut [i64],
    work: &mut [u64],
) -> Result<Answer, Refusal>
    ensures { AskAllows table.now mode k room.old work.old result room.new work.new }
{
    asking_fine(table, mode, k, room.len(), work.len())?;
    Ok(given(table, mode, k, room, &mut work[..Design::WORK]))
}

// The answer to an asking that is not refused. The work area has exactly the length that is named for it.
fn given(table: &[u32], mode: u32, k: usize, room: &mut [i64], work: &mut [u64]) -> Answer
    requires { Granted table.now k (length room.old) (length work.old) × (length work.old ≡ work_length) }
    ensures { Answers table.now mode k room.old room.new work.new result }
{
    laying::prepare(table, mode, work);
    let total = laying::total(table, mode, work);
    let won = winners::first(table, mode, work, k);
    write_rows(table, work, &won, room);
    work.fill(0);
    Answer {
        rows: won.count,
        total,
    }
}

// ---- 14 and 15

// 14: the mode over 1, or k outside its limits.
fn asking_bad(mode: u32, k: usize) -> bool
    ensures { result ≡ asking_bad mode k }
{
    1 < mode || !(1..=Design::K).contains(&k)
}

// 15: the room shorter than k rows, or the work area short.
fn room_bad(pins: usize, k: usize, room: usize, work: usize) -> bool
    requires { (pins ≤ most_pins) × (k ≤ most_k) }
    ensures { result ≡ room_bad pins k room work }
{
    room < k * (pins + Design::HEAD) || work < Design::WORK
}

// Fine, or the refusal of an asking: those of its table, then 14, then 15. Of the room and the work area the lengths are given.
fn asking_fine(table: &[u32], mode: u32, k: usize, room: usize, work: usize) -> Result<(), Refusal>
    ensures { result ≡ checked_of (asking_fault table.now mode k room work) }
{
    tables::check(table)?;
    if asking_bad(mode, k) {
        return Err(Refusal::ModeOrK);
    }
    if room_bad(tables::pin_count(table), k, room, work) {
        return Err(Refusal::RowRoom);
    }
    Ok(())
}

// ---- the rows

// A row for each record of the list that is won, one behind another at the front of the room. The walk of each stands in its slot of the work area.
fn write_rows(table: &[u32], work: &[u64], won: &Best, room: &mut [i64])
    requires { Writes table.now work.now won.now.list won.now.slots won.now.count (length room.old) }
    ensures { room.new ≡ written (gather (λ (r : List ℤ). r) (rows_in table.now work.now won.now.list won.now.slots won.now.count)) room.old }
{
    let size = tables::pin_count(table) + Design::HEAD;
    // Stays: by index. Of what is written through the parts that `chunks_exact_mut` lends, only the lengths are known afterwards.
    for i in 0..won.count {
        let at = i * size;
        let slot = won.slots[i] as usize;
        row_of(table, work, won.list[i], slot, &mut room[at..at + size]);
    }
}

// The row of a record whose walk stands in a slot of the work area. The start is the pin that the walk's last arc leaves; start and clock pin give the credit.
fn row_of(table: &[u32], work: &[u64], c: Candidate, slot: usize, row: &mut [i64])
    requires { Rowed table.now work.now c slot (length row.old) }
    ensures { row.new ≡ row_in table.now work.now c slot }
{
    let base = slot * area::SLOT;
    let n = work[base] as usize;
    let start = tables::arc_from(table, work[base + n] as usize);
    let clock = tables::test_clock(table, c.test as usize);
    let credit = clocks::credit_from(table, work, clock, start);
    let head = [
        c.slack,
        credit as i64,
        c.test as i64,
        start as i64,
        n as i64,
    ];
    let walk = &work[base + 1..base + 1 + n];
    put_row(&head, walk, row);
}

// The whole of `row` becomes one row: the head, then the arcs of a walk read backwards, from the start to the data pin, then zeros.
fn put_row(head: &[i64; Design::HEAD], walk: &[u64], row: &mut [i64])
    requires room { length walk.now + head_length ≤ length row.old }
    requires small { (i : ℕ) → i < length walk.now → slice_index walk.now i < signed }
    ensures { row.new ≡ head.now ++ arc_places (length row.old - head_length) walk.now }
{
    row[..Design::HEAD].copy_from_slice(head);
    row[Design::HEAD..].fill(0);
    for (i, arc) in walk.iter().rev().enumerate() {
        row[Design::HEAD + i] = *arc as i64;
    }
}
