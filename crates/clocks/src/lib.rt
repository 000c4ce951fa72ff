// The clock side of a checked table, in a lent work area: arrivals, parents, depths and drivers of the clock tree; the common pin and its credit; what each
// start brings to a test. All times are in picoseconds.
#![tactic(auto)]

ghost use Rattle.std.specs.Prelude.{◌≡◌, ◌+◌, ◌<◌, length, get_or};
ghost use Rattle.std.specs.Option.{unwrap_or};
ghost use Rattle.timing.specs.Table.{pin_count, arc_from};
ghost use Rattle.timing.specs.Structure.{structure, times};
ghost use Rattle.timing.specs.Slack.{Mode, start_arrival};
ghost use Rattle.timing.specs.Rows.{mode_of};
ghost use Rattle.timing.specs.Value.{raise, lower};
ghost use Rattle.area.specs.Area.{Kept, seeds_at, credits_at, clocks_at, parents_at, depths_at, drivers_at, bases_at, turns_at, none, given};
ghost use Rattle.clocks.specs.Clocked.{Ready, ClockPin, Parented, Clocked, Two, Asks, Starts, Tested, Common, Spans, Credited, credit_in, launched, base_for, Based, seed_with, Seeded};
ghost use Rattle.clocks.specs.Route.{Unmarked, Marked, NextSeed, driver_in, credit_down, with_seed};
ghost use Rattle.clocks.specs.Turn.{Next, NextDriven, Arrives, with_clocking};

use timing::{Design, Kind};

// No clock arrival is later.
const BASE: u64 = 256000000;

// ---- the clock tree

// At each clock pin's place the arc that comes into it. A pin of the data side gets one of its arcs, which nothing asks for.
pub fn parents(table: &[u32], work: &mut [u64])
    requires { Ready table.now work.old }
    ensures { Parented table.now work.new × Kept parents_at depths_at work.old work.new }
{
    for a in 0..tables::arc_count(table) {
        work[area::PARENTS + tables::arc_to(table, a)] = a as u64;
    }
}

// The pin that drives clock pin p.
fn parent(table: &[u32], work: &[u64], p: usize) -> usize
    requires { parents_at + p < length work.now }
    ensures { result ≡ arc_from table.now (get_or work.now (parents_at + p) 0) }
{
    tables::arc_from(table, work[area::PARENTS + p] as usize)
}

// When the clock comes to a pin, over how many arcs, and from which pin where one drives it.
#[derive(Clone, Copy, Default)]
struct Clocking {
    early: u64,
    late: u64,
    depth: u64,
    driver: Option<usize>,
}

impl Clocking {
    // That of a B or a K: the arrivals of the pin that drives it and the delay of the arc between.
    fn driven(table: &[u32], work: &[u64], p: usize) -> Clocking
        requires { NextDriven table.now p work.now }
        ensures { Arrives table.now p result }
    {
        let a = work[area::PARENTS + p] as usize;
        let from = tables::arc_from(table, a);
        Clocking {
            early: work[area::EARLY + from] + tables::arc_early(table, a) as u64,
            late: work[area::LATE + from] + tables::arc_late(table, a) as u64,
            depth: work[area::DEPTHS + from] + 1,
            driver: Some(from),
        }
    }

    // That of pin p, next in ascending order: R has its own arrivals and no driver. A pin of the data side has neither; nothing asks for its zeros.
    fn of(table: &[u32], work: &[u64], p: usize) -> Clocking
        requires { Next table.now p work.now }
        ensures { Arrives table.now p result }
    {
        match tables::pin_kind(table, p) {
            Some(Kind::R) => Clocking {
                early: tables::pin_early(table, p) as u64,
                late: tables::pin_late(table, p) as u64,
                ..Clocking::default()
            },
            Some(Kind::B | Kind::K) => Clocking::driven(table, work, p),
            _ => Clocking::default(),
        }
    }

    // Its numbers go to the four places of pin p.
    fn put(self, work: &mut [u64], p: usize)
        requires { drivers_at + p < length work.old }
        ensures { work.new ≡ with_clocking work.old p self }
    {
        work[area::EARLY + p] = self.early;
        work[area::LATE + p] = self.late;
        work[area::DEPTHS + p] = self.depth;
        work[area::DRIVERS + p] = self.driver.map_or(area::NONE, |driver| driver as u64);
    }
}

// Arrivals, depth and driver of each clock pin, the pins ascending: every arc rises, so a pin comes after the pin that drives it.
pub fn arrivals(table: &[u32], work: &mut [u64])
    requires { Ready table.now work.old × Parented table.now work.old }
    ensures { Clocked table.now work.new × Kept clocks_at turns_at work.old work.new }
{
    for p in 0..tables::pin_count(table) {
        Clocking::of(table, work, p).put(work, p);
    }
}

// The clock side of a table: parents, arrivals, depths and drivers. What stands in the area before and behind them stays.
pub fn clocks(table: &[u32], work: &mut [u64])
    requires { Ready table.now work.old }
    ensures { Clocked table.now work.new × Kept clocks_at turns_at work.old work.new }
{
    parents(table, work);
    arrivals(table, work);
}

// ---- the common pin and its credit

// The lowest common ancestor of two clock pins, from parents and depths alone: the deeper of the two is raised, either if they are equally deep, until they
// meet.
pub fn common_pin(table: &[u32], work: &[u64], mut p: usize, mut q: usize) -> usize
    requires { Two table.now work.now p q }
    ensures { Common table.now p q result }
{
    while p != q {
        if work[area::DEPTHS + p] < work[area::DEPTHS + q] {
            q = parent(table, work, q);
        } else {
            p = parent(table, work, p);
        }
    }
    p
}

// The credit of clock pin p: its late arrival minus its early.
pub fn credit_at(work: &[u64], p: usize) -> u64
    requires { Spans work.now p }
    ensures { result ≡ credit_in work.now p }
{
    work[area::LATE + p] - work[area::EARLY + p]
}

// The credit of a path from pin p to a test with the clock pin c: from a K that of their common pin, else 0.
pub fn credit_from(table: &[u32], work: &[u64], c: usize, p: usize) -> u64
    requires { Asks table.now work.now c p }
    ensures { Credited table.now c p result }
{
    match tables::pin_kind(table, p) {
        Some(Kind::K) => credit_at(work, common_pin(table, work, p, c)),
        _ => 0,
    }
}

// ---- what a start brings before credit

// The arrival of start p that counts in the mode (0 setup: late; else hold: early): a K's clock arrival, an I's own.
// Stays: the mode is a number beside the table and the work area, since `laying::total` and `report::ask`, named in docs/, take the three so.
fn start_arrival(table: &[u32], mode: u32, work: &[u64], p: usize) -> u64
    requires { Starts table.now work.now p }
    ensures { result ≡ start_arrival (launched (mode_of mode)) (structure table.now) (times table.now) p }
{
    if tables::pin_kind(table, p) == Some(Kind::K) {
        if mode == 0 {
            work[area::LATE + p]
        } else {
            work[area::EARLY + p]
        }
    } else if mode == 0 {
        tables::pin_late(table, p) as u64
    } else {
        tables::pin_early(table, p) as u64
    }
}

// What pin p brings before credit, where it is a start, a K or an I: in hold its arrival; in setup values count down from a height that grows with the pin's
// number.
fn base_of(table: &[u32], mode: u32, work: &[u64], p: usize) -> Option<u64>
    requires { Starts table.now work.now p }
    ensures { unwrap_or result none ≡ base_for (mode_of mode) table.now p }
{
    match tables::pin_kind(table, p) {
        Some(Kind::K | Kind::I) => {
            let arrival = start_arrival(table, mode, work, p);
            if mode == 0 {
                Some((p * Design::DELAY) as u64 + (BASE - arrival))
            } else {
                Some(arrival)
            }
        }
        _ => None,
    }
}

// The bases of a mode, one for each pin. They serve the seeds of every test.
pub fn bases(table: &[u32], mode: u32, work: &mut [u64])
    requires { Clocked table.now work.old }
    ensures { Based (mode_of mode) table.now work.new × Kept bases_at turns_at work.old work.new }
{
    for p in 0..tables::pin_count(table) {
        work[area::BASES + p] = base_of(table, mode, work, p).unwrap_or(area::NONE);
    }
}

// ---- the seeds of a test, by the route of its clock

// The pin that drives pin p, where one does.
fn driver_of(work: &[u64], p: usize) -> Option<usize>
    requires { drivers_at + p < length work.now }
    ensures { result ≡ given (driver_in work.now p) }
{
    area::given(work[area::DRIVERS + p]).map(|driver| driver as usize)
}

// No pin has a credit against the test's clock yet.
fn no_credits(table: &[u32], work: &mut [u64])
    requires { Ready table.now work.old }
    ensures { Unmarked table.now work.new × Kept credits_at clocks_at work.old work.new }
{
    work[area::CREDITS..area::CREDITS + tables::pin_count(table)].fill(area::NONE);
}

// Each pin on the way from clock pin c up to R has its own credit, any other pin none.
fn mark_route(table: &[u32], work: &mut [u64], c: usize)
    requires { Clocked table.now work.old × ClockPin table.now c }
    ensures { Marked table.now c work.new × Kept credits_at clocks_at work.old work.new }
{
    no_credits(table, work);
    let mut pin = Some(c);
    while let Some(v) = pin {
        work[area::CREDITS + v] = credit_at(work, v);
        pin = driver_of(work, v);
    }
}

// The credit of clock pin p against the test's clock: its own if it is on the route, else that of the pin that drives it.
fn credit_down(work: &[u64], p: usize, driver: usize) -> u64
    requires { (credits_at + p < length work.now) × (credits_at + driver < length work.now) }
    ensures { result ≡ credit_down work.now p driver }
{
    area::given(work[area::CREDITS + p]).unwrap_or(work[area::CREDITS + driver])
}

// The seed of a base and a credit: NONE where there is no base.
fn seed_with(base: u64, credit: u64) -> u64
    requires { credit < none }
    ensures { result ≡ seed_with base credit }
{
    area::given(base).map_or(area::NONE, |base| base + credit)
}

// The seed of pin p, next in ascending order, and where a pin drives it its credit. The credit of a start that nothing drives, an I, is 0.
fn lay_seed(work: &mut [u64], p: usize)
    requires { NextSeed work.old p }
    ensures { work.new ≡ with_seed work.old p }
{
    let base = work[area::BASES + p];
    if let Some(driver) = driver_of(work, p) {
        let credit = credit_down(work, p, driver);
        work[area::CREDITS + p] = credit;
        work[area::SEEDS + p] = seed_with(base, credit);
    } else {
        work[area::SEEDS + p] = base;
    }
}

// The seeds of a test with the clock pin c, one for each pin, in the mode of the bases.
pub fn seeds(table: &[u32], work: &mut [u64], c: usize)
    requires { Clocked table.now work.old × ClockPin table.now c }
    ensures { ((m : Mode) → Based m table.now work.old → Seeded m table.now c (pin_count table.now) work.new) × Kept seeds_at clocks_at work.old work.new }
{
    mark_route(table, work, c);
    for p in 0..tables::pin_count(table) {
        lay_seed(work, p);
    }
}

// ---- what is common to the paths of a test

// What is added to the value of a path of test j: in setup the early arrival of its clock and the period.
pub fn raise_of(table: &[u32], mode: u32, work: &[u64], j: usize) -> u64
    requires { Tested table.now work.now j }
    ensures { result ≡ raise (mode_of mode) (structure table.now) (times table.now) j }
{
    if mode == 0 {
        work[area::EARLY + tables::test_clock(table, j)] + tables::period_of(table) as u64
    } else {
        0
    }
}

// What is taken from it to give the slack: in setup the setup time and the height of the data pin; in hold the late arrival of the clock and the hold time.
pub fn lower_of(table: &[u32], mode: u32, work: &[u64], j: usize) -> u64
    requires { Tested table.now work.now j }
    ensures { result ≡ lower (mode_of mode) (λ q. q) (structure table.now) (times table.now) j }
{
    if mode == 0 {
        let height = tables::test_data(table, j) * Design::DELAY;
        (tables::test_setup(table, j) + height) as u64 + BASE
    } else {
        work[area::LATE + tables::test_clock(table, j)] + tables::test_hold(table, j) as u64
    }
}
