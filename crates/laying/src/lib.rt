// The work area prepared for a table that passed its check, and laid for a test: the sorted arcs and the clock side for all tests, the seeds and the least values
// of one. The total, and a bound for each test that costs one pass for all of them.
#![tactic(auto)]

ghost use Rattle.std.specs.Prelude.{◌≡◌, ◌<◌, length};
ghost use Rattle.lists.specs.Laws.Count.{count_to};
ghost use Rattle.timing.specs.Limits.{most_total};
ghost use Rattle.timing.specs.Table.{test_count};
ghost use Rattle.timing.specs.Structure.{structure};
ghost use Rattle.timing.specs.Rows.{total};
ghost use Rattle.clocks.specs.Clocked.{Clocked, Tested};
ghost use Rattle.clocks.specs.Clocked as clocked;
ghost use Rattle.area.specs.Area.{Kept, seeds_at, clocks_at};
ghost use Rattle.laying.specs.Standing.{Prepared, Sown, Lay};
ghost use Rattle.laying.specs.Bounds.{count_at, record_of, slack_of, Above, Shared, AllBounds};

use timing::{Candidate, Design};

// Above every slack.
pub const ABOVE: i64 = 1099511627776;

// The sorted arcs and the clock side of a table, for all tests.
pub fn prepare(table: &[u32], mode: u32, work: &mut [u64])
    requires { clocked.Ready table.now work.old }
    ensures { Prepared table.now mode work.new × (length work.new ≡ length work.old) }
{
    arcs::sort(table, mode, work);
    clocks::clocks(table, work);
    clocks::bases(table, mode, work);
}

// Stays, here and below: where the code does not read the mode, the clauses do; `total`, which docs/DECISIONS.md names, takes it as a number.

// The seeds of test j.
fn seed(table: &[u32], mode: u32, work: &mut [u64], j: usize)
    requires { Prepared table.now mode work.old × (j < test_count table.now) }
    ensures { Sown table.now mode j work.new × Kept seeds_at clocks_at work.old work.new }
{
    clocks::seeds(table, work, tables::test_clock(table, j));
}

// The seeds and the least values of test j.
pub fn lay(table: &[u32], mode: u32, work: &mut [u64], j: usize)
    requires { Prepared table.now mode work.old × (j < test_count table.now) }
    ensures { Lay table.now mode j work.old work.new }
{
    seed(table, mode, work, j);
    walker::least_values(work, tables::pin_count(table));
}

// ---- the total

// The counts of the tests' data pins, added up.
fn add_counts(table: &[u32], work: &[u64]) -> u64
    requires { clocked.Ready table.now work.now }
    ensures { result ≡ count_to most_total (count_at table.now work.now) (test_count table.now) }
{
    let mut sum = 0;
    for test in 0..tables::test_count(table) {
        let data = tables::test_data(table, test);
        sum = lists::add_capped(Design::TOTAL, sum, work[area::COUNTS + data]);
    }
    sum
}

// The number of paths over all tests, or the most that a total tells if there are more. It is the same whatever the mode, and whatever test's seeds are laid.
pub fn total(table: &[u32], mode: u32, work: &mut [u64]) -> u64
    requires { Prepared table.now mode work.old }
    ensures { (result ≡ total (structure table.now)) × Prepared table.now mode work.new }
{
    if tables::test_count(table) == 0 {
        return 0;
    }
    seed(table, mode, work, 0);
    arcs::counts(work, tables::pin_count(table));
    add_counts(table, work)
}

// ---- a value as a slack

// The value of a walk of test j as a slack: raised and lowered by what the test alone decides.
pub fn slack_of(table: &[u32], mode: u32, work: &[u64], j: usize, value: u64) -> i64
    requires { Tested table.now work.now j × (value < 1073741824) }
    ensures { result ≡ slack_of table.now mode j value }
{
    let raise = clocks::raise_of(table, mode, work, j);
    let lower = clocks::lower_of(table, mode, work, j);
    (value + raise) as i64 - lower as i64
}

// The record of test j for a value and a serial.
pub fn record_of(
    table: &[u32],
    mode: u32,
    work: &[u64],
    j: usize,
    value: u64,
    i: usize,
) -> Candidate
    requires { Tested table.now work.now j × (value < 1073741824) }
    ensures { result ≡ record_of table.now mode j value i }
{
    Candidate {
        slack: slack_of(table, mode, work, j, value),
        test: j as u64,
        serial: i as u64,
    }
}

// ---- a bound for each test

// A pin on the clock routes of all tests: the common pin of their clock pins.
fn shared_clock(table: &[u32], work: &[u64]) -> usize
    requires { Clocked table.now work.now × (0 < test_count table.now) }
    ensures { Above table.now (test_count table.now) result }
{
    let mut clock = tables::test_clock(table, 0);
    for test in 1..tables::test_count(table) {
        let other = tables::test_clock(table, test);
        clock = clocks::common_pin(table, work, clock, other);
    }
    clock
}

// The least values against the shared clock pin: they are at most those of each test.
fn lay_shared(table: &[u32], mode: u32, work: &mut [u64])
    requires { Prepared table.now mode work.old × (0 < test_count table.now) }
    ensures { Shared table.now mode work.new }
{
    let clock = shared_clock(table, work);
    clocks::seeds(table, work, clock);
    walker::least_values(work, tables::pin_count(table));
}

// A bound for each test: the least value at its data pin against the shared clock pin.
pub fn bounds_of(table: &[u32], mode: u32, work: &mut [u64]) -> [u32; Design::TESTS]
    requires { Prepared table.now mode work.old }
    ensures { AllBounds table.now mode result × Prepared table.now mode work.new × (length result ≡ 64) }
{
    let n = tables::test_count(table);
    let mut bounds = [0u32; Design::TESTS];
    if n == 0 {
        return bounds;
    }
    lay_shared(table, mode, work);
    // Stays: by index. By `array::from_fn` what its closure asks and what is returned stayed open.
    for test in 0..n {
        let data = tables::test_data(table, test);
        bounds[test] = work[area::LEASTS + data] as u32;
    }
    bounds
}
