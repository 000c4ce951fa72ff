// The check of a table, refusals 6 to 13 in the order of document 01; and the table's numbers, for whoever reads it.
#![tactic(auto)]

ghost use Rattle.std.specs.Prelude.{◌≡◌, ◌<◌, ◌≤◌, ◌+◌, ◌*◌, get_or, MatchOption};
ghost use Rattle.lists.specs.Choice.{first_met};
ghost use Rattle.lists.specs.Laws.Scan.{tally};
ghost use Rattle.timing.specs.Kinds.{kind_number};
ghost use Rattle.timing.specs.Table.{pin_count, arc_count, test_count, period_of, of_pin, of_arc, of_test, early, late, pin_kind, pin_time, arc_from, arc_to, arc_time, test_clock, test_data, test_setup, test_hold};
ghost use Rattle.timing.specs.Check.{limits_bad, header_bad, range_bad, pin_bad, is_root, ends_bad, kinds_bad, delay_bad, into_bad, is_of, test_bad, pin_grounds, arc_ground, arc_grounds, into_grounds, test_grounds};
ghost use Rattle.timing.specs.Refusals.{checked_of};
ghost use Rattle.timing.specs.Laws.Accepted.{HeaderFits};
ghost use Rattle.timing.specs.Allows.{CheckAllows};
ghost use Rattle.tables.specs.Parts.{refused, Counted};

use timing::{Design, Kind, Refusal};

// Fine, or the refusal of the table with its place: 6, all pins 7, 8, then arc by arc 9, 10, 11, all pins 12, all tests 13.
#[tactic(auto, using(crate::proofs::Order::in_order), unfolding(crate::specs::Parts::then_check))]
pub fn check(table: &[u32]) -> Result<(), Refusal>
    ensures { CheckAllows table.now result }
{
    refuse(header_bad(table), Refusal::TableHeader)?;
    check_pins(table)?;
    refuse(root_count(table) != 1, Refusal::RootCount)?;
    check_arcs(table)?;
    check_arcs_into(table)?;
    check_tests(table)
}

// The refusal, where the test says that it is due.
// Stays: for this crate alone, which has eight refusals; the two of `report` are an `if` each, no longer than a call.
#[tactic(auto, unfolding(lists::specs::Choice::first_met))]
fn refuse(due: bool, refusal: Refusal) -> Result<(), Refusal>
    ensures { result ≡ refused due refusal }
{
    if due { Err(refusal) } else { Ok(()) }
}

// All pins 7.
fn check_pins(table: &[u32]) -> Result<(), Refusal>
    ensures { result ≡ checked_of (first_met (pin_grounds table.now)) }
{
    (0..pin_count(table)).try_for_each(|p| refuse(pin_bad(table, p), Refusal::PinNumbers(p)))
}

// Arc by arc 9, 10, 11.
fn check_arcs(table: &[u32]) -> Result<(), Refusal>
    ensures { result ≡ checked_of (first_met (arc_grounds table.now)) }
{
    (0..arc_count(table)).try_for_each(|a| check_arc(table, a))
}

// 9, 10, 11 for arc a.
#[tactic(auto, unfolding(timing::specs::Check::arc_ground, lists::specs::Choice::first_met))]
fn check_arc(table: &[u32], a: usize) -> Result<(), Refusal>
    ensures { result ≡ checked_of (first_met (arc_ground table.now a)) }
{
    refuse(ends_bad(table, a), Refusal::ArcEnds(a))?;
    refuse(kinds_bad(table, a), Refusal::ArcKinds(a))?;
    refuse(delay_bad(table, a), Refusal::ArcRange(a))
}

// All pins 12, by the counts of all arcs. A routine of its own: `check` would clear the counts before it looks at the header.
#[inline(never)]
fn check_arcs_into(table: &[u32]) -> Result<(), Refusal>
    requires { HeaderFits table.now }
    ensures { result ≡ checked_of (first_met (into_grounds table.now)) }
{
    let counts = arcs_into(table);
    (0..pin_count(table)).try_for_each(|p| refuse(
        into_bad(table, &counts, p),
        Refusal::ArcsInto(p),
    ))
}

// All tests 13.
fn check_tests(table: &[u32]) -> Result<(), Refusal>
    ensures { result ≡ checked_of (first_met (test_grounds table.now)) }
{
    (0..test_count(table)).try_for_each(|j| refuse(test_bad(table, j), Refusal::TestNumbers(j)))
}

// ---- the table's numbers; what is not there reads as 0

// The number at place i of the table.
// Stays: 0 where there is none, as the definitions read a table; docs/DECISIONS.md names it.
pub fn at(table: &[u32], i: usize) -> u32
    ensures { result ≡ get_or table.now i 0 }
{
    if i < table.len() { table[i] } else { 0 }
}

// P, the number of pins.
pub fn pin_count(table: &[u32]) -> usize
    ensures { result ≡ pin_count table.now }
{
    at(table, 0) as usize
}

// A, the number of arcs.
pub fn arc_count(table: &[u32]) -> usize
    ensures { result ≡ arc_count table.now }
{
    at(table, 1) as usize
}

// T, the number of tests.
pub fn test_count(table: &[u32]) -> usize
    ensures { result ≡ test_count table.now }
{
    at(table, 2) as usize
}

// The period, in picoseconds.
pub fn period_of(table: &[u32]) -> usize
    ensures { result ≡ period_of table.now }
{
    at(table, 3) as usize
}

// Stays: numbers of a pin, an arc or a test by their place, for any place, and 0 where there is none; docs/DECISIONS.md names these three.

// Number n of pin p: 0 kind, 1 early, 2 late.
pub fn of_pin(table: &[u32], n: u32, p: usize) -> usize
    ensures { result ≡ of_pin table.now n p }
{
    number_at(table, 4, 3, n, p)
}

// Number n of arc a: 0 from, 1 to, 2 early, 3 late.
pub fn of_arc(table: &[u32], n: u32, a: usize) -> usize
    ensures { result ≡ of_arc table.now n a }
{
    number_at(table, 4 + 3 * pin_count(table), 4, n, a)
}

// Number n of test j: 0 clock, 1 data, 2 setup, 3 hold.
pub fn of_test(table: &[u32], n: u32, j: usize) -> usize
    ensures { result ≡ of_test table.now n j }
{
    number_at(
        table,
        4 + 3 * pin_count(table) + 4 * arc_count(table),
        4,
        n,
        j,
    )
}

// Number n of the thing i of those that have `size` numbers each and stand from place `first` on.
fn number_at(table: &[u32], first: usize, size: usize, n: u32, i: usize) -> usize
    requires { (first < 68719476736) × ((1 ≤ size) × (size ≤ 4)) }
    ensures { result ≡ get_or table.now (first + size * i + n) 0 }
{
    if i < table.len() {
        at(table, first + size * i + n as usize) as usize
    } else {
        0
    }
}

// The kind of pin p, if its number is that of a kind.
pub fn pin_kind(table: &[u32], p: usize) -> Option<Kind>
    ensures { MatchOption result (4 < pin_kind table.now p) (λ k. kind_number k ≡ pin_kind table.now p) }
{
    Kind::try_from(of_pin(table, 0, p)).ok()
}

// The early arrival at pin p, in picoseconds.
pub fn pin_early(table: &[u32], p: usize) -> usize
    ensures { result ≡ pin_time table.now early p }
{
    of_pin(table, 1, p)
}

// The late arrival at pin p, in picoseconds.
pub fn pin_late(table: &[u32], p: usize) -> usize
    ensures { result ≡ pin_time table.now late p }
{
    of_pin(table, 2, p)
}

// The pin that arc a leaves.
pub fn arc_from(table: &[u32], a: usize) -> usize
    ensures { result ≡ arc_from table.now a }
{
    of_arc(table, 0, a)
}

// The pin that arc a goes into.
pub fn arc_to(table: &[u32], a: usize) -> usize
    ensures { result ≡ arc_to table.now a }
{
    of_arc(table, 1, a)
}

// The early delay of arc a, in picoseconds.
pub fn arc_early(table: &[u32], a: usize) -> usize
    ensures { result ≡ arc_time table.now early a }
{
    of_arc(table, 2, a)
}

// The late delay of arc a, in picoseconds.
pub fn arc_late(table: &[u32], a: usize) -> usize
    ensures { result ≡ arc_time table.now late a }
{
    of_arc(table, 3, a)
}

// The clock pin of test j.
pub fn test_clock(table: &[u32], j: usize) -> usize
    ensures { result ≡ test_clock table.now j }
{
    of_test(table, 0, j)
}

// The data pin of test j.
pub fn test_data(table: &[u32], j: usize) -> usize
    ensures { result ≡ test_data table.now j }
{
    of_test(table, 1, j)
}

// The setup of test j, in picoseconds.
pub fn test_setup(table: &[u32], j: usize) -> usize
    ensures { result ≡ test_setup table.now j }
{
    of_test(table, 2, j)
}

// The hold of test j, in picoseconds.
pub fn test_hold(table: &[u32], j: usize) -> usize
    ensures { result ≡ test_hold table.now j }
{
    of_test(table, 3, j)
}

// ---- 6

// Whether P, A, T or the period is outside its limits.
fn limits_bad(design: Design, period: usize) -> bool
    ensures { result ≡ limits_bad design.pins design.arcs design.tests period }
{
    !design.is_within() || !(1..=Design::DELAY).contains(&period)
}

// 6. P, A and T are 32-bit numbers: whatever they are, the length that they ask for does not wrap.
#[tactic(auto, unfolding(timing::specs::Check::header_bad))]
fn header_bad(table: &[u32]) -> bool
    ensures { result ≡ header_bad table.now }
{
    let design = Design {
        pins: pin_count(table),
        arcs: arc_count(table),
        tests: test_count(table),
    };
    limits_bad(design, period_of(table)) || table.len() != design.table_length()
}

// ---- 7 and 8

// Whether a range in picoseconds is bad: early above late, or late above its limit.
fn range_bad(early: usize, late: usize) -> bool
    ensures { result ≡ range_bad early late }
{
    late < early || Design::DELAY < late
}

// 7 for pin p.
#[tactic(auto, unfolding(timing::specs::Check::pin_bad))]
fn pin_bad(table: &[u32], p: usize) -> bool
    ensures { result ≡ pin_bad table.now p }
{
    let early = pin_early(table, p);
    let late = pin_late(table, p);
    match pin_kind(table, p) {
        None => true,
        Some(kind) => if kind.has_times() {
            range_bad(early, late)
        } else {
            early != 0 || late != 0
        },
    }
}

// How many pins are R.
fn root_count(table: &[u32]) -> usize
    ensures { result ≡ tally (is_root table.now) (pin_count table.now) }
{
    (0..pin_count(table))
        .filter(|p| pin_kind(table, *p) == Some(Kind::R))
        .count()
}

// ---- 9, 10 and 11

// 9 for arc a.
#[tactic(auto, unfolding(timing::specs::Check::ends_bad))]
fn ends_bad(table: &[u32], a: usize) -> bool
    ensures { result ≡ ends_bad table.now a }
{
    let pins = pin_count(table);
    let from = arc_from(table, a);
    let to = arc_to(table, a);
    !(from < pins && to < pins && from < to)
}

// 10 for arc a.
#[tactic(auto, unfolding(timing::specs::Check::kinds_bad))]
fn kinds_bad(table: &[u32], a: usize) -> bool
    ensures { result ≡ kinds_bad table.now a }
{
    let from = arc_from(table, a);
    let to = arc_to(table, a);
    // Stays: may_drive takes the kinds as numbers, also such as no kind has.
    !timing::may_drive(of_pin(table, 0, from), of_pin(table, 0, to))
}

// 11 for arc a.
#[tactic(auto, unfolding(timing::specs::Check::delay_bad))]
fn delay_bad(table: &[u32], a: usize) -> bool
    ensures { result ≡ delay_bad table.now a }
{
    range_bad(arc_early(table, a), arc_late(table, a))
}

// ---- 12

// For each pin, how many arcs go into it; an arc into no pin counts nowhere.
fn arcs_into(table: &[u32]) -> [u16; Design::PINS]
    requires { HeaderFits table.now }
    ensures { Counted table.now (arc_count table.now) result }
{
    let mut counts = [0u16; Design::PINS];
    for a in 0..arc_count(table) {
        let to = arc_to(table, a);
        if to < Design::PINS {
            counts[to] += 1;
        }
    }
    counts
}

// 12 for pin p, by the counts of all arcs.
#[tactic(auto, unfolding(timing::specs::Check::into_bad, timing::specs::Check::arcs_into, lists::specs::Laws::Scan::tally))]
fn into_bad(table: &[u32], counts: &[u16; Design::PINS], p: usize) -> bool
    requires { HeaderFits table.now × (Counted table.now (arc_count table.now) counts.now × (p < pin_count table.now)) }
    ensures { result ≡ into_bad table.now p }
{
    match pin_kind(table, p) {
        Some(Kind::B | Kind::K) => counts[p] != 1,
        Some(Kind::D) => counts[p] == 0,
        _ => false,
    }
}

// ---- 13

// Whether p is a pin of that kind; a number not below P is none.
#[tactic(auto, unfolding(timing::specs::Check::is_of))]
fn is_of(table: &[u32], kind: Kind, p: usize) -> bool
    ensures { result ≡ is_of table.now (kind_number kind) p }
{
    p < pin_count(table) && pin_kind(table, p) == Some(kind)
}

// 13 for test j.
#[tactic(auto, unfolding(timing::specs::Check::test_bad))]
fn test_bad(table: &[u32], j: usize) -> bool
    ensures { result ≡ test_bad table.now j }
{
    !(is_of(table, Kind::K, test_clock(table, j))
        && is_of(table, Kind::D, test_data(table, j))
        && test_setup(table, j) <= Design::DELAY
        && test_hold(table, j) <= Design::DELAY)
}
