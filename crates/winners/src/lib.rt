// The first k paths of all tests, found walk by walk: the walks of a test that can come among them enter a ranked list.
#![tactic(auto)]

ghost use Rattle.std.specs.Prelude.{◌≡◌, ℕ, ◌+◌, ◌≤◌, ◌<◌, true, pos};
ghost use Rattle.lists.specs.Laws.Integer.{Within, Less};
ghost use Rattle.timing.specs.Limits.{most_k};
ghost use Rattle.clocks.specs.Clocked.{Tested};
ghost use Rattle.walker.specs.Slots.{Still};
ghost use Rattle.winners.specs.Stored.{Shelf, Moved, Entered};
ghost use Rattle.timing.specs.Table.{test_count};
ghost use Rattle.laying.specs.Standing.{Prepared, Walks};
ghost use Rattle.laying.specs.Bounds.{slack_of, AllBounds};
ghost use Rattle.winners.specs.Finding.{hint_at, OneApart, Searching, Tries, Complete, Rounds, Won, Nothing, Numbered};
ghost use Rattle.winners.specs.Walking.{At, Under, Nexts, Takes, Took, Added};
ghost use Rattle.winners.specs.Held.{kept, Sized, Limit, Reach};

use laying::ABOVE;
use std::array;
use timing::{Candidate, Design};
use walker::{Cursor, State};

// No value of a walk is as large as this.
const VALUES: u64 = 1073741824;

// Every slack is below this. `ABOVE` is further above.
const SLACKS: i64 = 257000001;

// The ranked list of the best so far, how many of its places are counted, how many records were entered, as far as that is told, and the slot of each record's
// walk; those behind the count are free.
// Stays: `first`, which docs/PROMISES.md names, gives the list with its count, and `ranked::enter` takes them so.
#[derive(Clone, Copy)]
pub struct Best {
    pub list: [Candidate; Design::K],
    pub count: usize,
    pub serial: usize,
    // Stays: `ranked::enter` takes a list of records alone, so the slots stand beside it.
    pub slots: [u8; Design::K],
}

// The list after the walks of a test, and the least value that was passed over.
#[derive(Clone, Copy)]
pub struct Walked {
    pub best: Best,
    // Stays: as `Cursor::out`, which it is.
    pub out: u64,
}

// The list, and the least slack that was passed over.
#[derive(Clone, Copy)]
pub struct Found {
    pub best: Best,
    // Stays: above every slack while none was passed over, so that the next slack is taken in by one `min`, and a round asks by one `<=` whether it can be a slack.
    pub out: i64,
}

// The hints of a round: the tests up to `last` take paths below `high`, those behind it paths below `low`. They are one apart at the most: `low` drops the ties of
// the k-th path that come later than wanted.
#[derive(Clone, Copy)]
pub struct Hints {
    pub high: i64,
    pub low: i64,
    pub last: usize,
}

// ---- the list

// The slots, as they are numbered.
fn numbered() -> [u8; Design::K]
    ensures { Numbered 16 result }
{
    array::from_fn(|i| i as u8)
}

// The slot at place n goes to place at; those between go one on.
// Stays: no `rotate_right`, which wants `memmove` of the C library; the archive for C has only `memcpy` and `memset` to ask for.
fn turn(slots: &mut [u8; Design::K], at: usize, n: usize)
    requires { (at ≤ n) × (n < most_k) }
    ensures { Moved slots.old at n slots.new }
{
    let slot = slots[n];
    slots.copy_within(at..n, at + 1);
    slots[at] = slot;
}

impl Best {
    // Nothing is found yet.
    fn none() -> Best
        ensures { Nothing result }
    {
        Best {
            list: [Candidate::default(); Design::K],
            count: 0,
            serial: 0,
            slots: numbered(),
        }
    }

    // What a slack must be below to enter: the hint, and the last slack of a full list.
    fn limit(&self, k: usize, hint: i64) -> i64
        requires { Sized k self.now }
        ensures { Limit k hint self.now result }
    {
        if self.count < k {
            hint
        } else {
            hint.min(self.list[k - 1].slack)
        }
    }

    // How many records stay when one more enters.
    fn stay(&self, k: usize) -> usize
        requires { Sized k self.now }
        ensures { result ≡ kept k self.now.count }
    {
        self.count.min(k - 1)
    }

    // c enters the list, behind the records that stay, and the slot behind them with it.
    #[inline(never)]
    fn enter(&mut self, k: usize, c: Candidate)
        requires { Sized k self.old }
        ensures { Entered k c self.old self.new }
    {
        let stay = self.stay(k);
        let at = ranked::place_of(&self.list[..stay], c);
        turn(&mut self.slots, at, stay);
        // Never refused: `stay` is below the list's length.
        self.count = ranked::enter(&mut self.list, stay, c).unwrap_or(0);
        self.serial = self.serial.saturating_add(1);
    }
}

// ---- the walks of a test

// Stays: table, mode and k go beside each other, as `walk_test` and `first`, which docs/PROMISES.md names, take them; and k beside the list, as `walk_test` does.

// What a value must be below for its slack to be below the limit.
fn reach(limit: i64, raise: u64, lower: u64) -> u64
    requires { (raise < 1073741824) × (lower < 1073741824) }
    ensures { Reach raise lower limit result }
{
    let over = lists::above(limit) + lower;
    let under = lists::below(limit) + raise;
    over.saturating_sub(under).min(area::NONE)
}

// What the value of a walk of test j must be below for it to enter.
fn under_of(
    table: &[u32],
    mode: u32,
    work: &[u64],
    j: usize,
    k: usize,
    hint: i64,
    best: &Best,
) -> u64
    requires { Tested table.now work.now j × Sized k best.now }
    ensures { Under table.now mode j k hint best.now result }
{
    let raise = clocks::raise_of(table, mode, work, j);
    let lower = clocks::lower_of(table, mode, work, j);
    reach(best.limit(k, hint), raise, lower)
}

// To the next walk of test j that enters, or to the end.
fn next(
    table: &[u32],
    mode: u32,
    work: &mut [u64],
    j: usize,
    k: usize,
    hint: i64,
    best: &Best,
    c: Cursor,
) -> Cursor
    requires { Tested table.now work.old j × At table.now mode j work.old c × Sized k best.now }
    ensures { Nexts table.now mode j k hint best.now work.old c work.new result }
{
    let under = under_of(table, mode, work, j, k, hint, best);
    c.next_walk(work, under)
}

// The walk that was found goes to the free slot, and its record enters the list.
fn take_walk(
    table: &[u32],
    mode: u32,
    work: &mut [u64],
    j: usize,
    k: usize,
    best: &mut Best,
    c: Cursor,
    value: u64,
)
    requires { Takes table.now mode j k work.old best.old c value }
    ensures { Took table.now mode j k work.old best.old c value work.new best.new }
{
    let free = best.slots[best.stay(k)] as usize;
    let record = laying::record_of(table, mode, work, j, value, best.serial);
    c.keep_walk(work, free);
    best.enter(k, record);
}

// The walks of test j, whose seeds and least values are laid, enter the list where their slacks are below the hint.
pub fn walk_test(
    table: &[u32],
    mode: u32,
    work: &mut [u64],
    j: usize,
    k: usize,
    hint: i64,
    mut best: Best,
) -> Walked
    requires { Walks table.now mode j work.old × Sized k best × Shelf best.slots }
    ensures { Added table.now mode j k hint work.old best work.new result.best result.out × Still work.old work.new }
{
    let mut c = Cursor::begin(work, tables::test_data(table, j));
    c = next(table, mode, work, j, k, hint, &best, c);
    while let State::Found(value) = c.state {
        take_walk(table, mode, work, j, k, &mut best, c, value);
        c = next(table, mode, work, j, k, hint, &best, c);
    }
    Walked { best, out: c.out }
}

// ---- all tests

// What a value that was passed over is as a slack; above every slack if it is above every value.
fn slack_at(table: &[u32], mode: u32, work: &[u64], j: usize, value: u64) -> i64
    requires { Tested table.now work.now j }
    ensures { (v : ℕ) → v < 1073741824 → value ≤ v → Within 0 result (slack_of table.now mode j v) }
{
    if value < VALUES {
        laying::slack_of(table, mode, work, j, value)
    } else {
        ABOVE
    }
}

// Test j, laid and walked.
fn walk_more(
    table: &[u32],
    mode: u32,
    work: &mut [u64],
    j: usize,
    k: usize,
    hints: Hints,
    found: &mut Found,
)
    requires { Searching table.now mode k (hint_at hints) j work.old found.old × (j < test_count table.now) }
    ensures { Searching table.now mode k (hint_at hints) (j + 1) work.new found.new }
{
    laying::lay(table, mode, work, j);
    let walked = walk_test(table, mode, work, j, k, hints.of(j), found.best);
    found.best = walked.best;
    found.out = found.out.min(slack_at(table, mode, work, j, walked.out));
}

// One test more. It is left out where the slack that its bound allows does not come below the limit: no path of it would.
fn find_test(
    table: &[u32],
    mode: u32,
    work: &mut [u64],
    j: usize,
    k: usize,
    hints: Hints,
    bound: u64,
    found: &mut Found,
)
    requires { Tries table.now mode k (hint_at hints) j bound work.old found.old }
    ensures { Searching table.now mode k (hint_at hints) (j + 1) work.new found.new }
{
    let limit = found.best.limit(k, hints.of(j));
    let first = laying::slack_of(table, mode, work, j, bound);
    if first < limit {
        walk_more(table, mode, work, j, k, hints, found);
    } else {
        found.out = found.out.min(first);
    }
}

// The first k of the paths below the hints, of all tests.
fn find(
    table: &[u32],
    mode: u32,
    work: &mut [u64],
    k: usize,
    hints: Hints,
    bounds: &[u32; Design::TESTS],
) -> Found
    requires { Prepared table.now mode work.old × (0 < k) × (k ≤ most_k) × AllBounds table.now mode bounds.now }
    ensures { Searching table.now mode k (hint_at hints) (test_count table.now) work.new result }
{
    let mut found = Found {
        best: Best::none(),
        out: ABOVE,
    };
    let n = tables::test_count(table);
    // Stays: by index, since j is the test's number, by which the clauses count.
    for j in 0..n {
        find_test(
            table,
            mode,
            work,
            j,
            k,
            hints,
            u64::from(bounds[j]),
            &mut found,
        );
    }
    found
}

// ---- raising the hint

// One more, if it can be a slack.
fn after(x: i64) -> i64
    ensures { Within 0 x result × Within 1 result x }
{
    if x < SLACKS { x + 1 } else { x }
}

impl Hints {
    // The hint of test j.
    #[tactic(auto, unfolding(crate::specs::Finding::hint_at, lists::specs::Choice::pick))]
    fn of(&self, j: usize) -> i64
        ensures { result ≡ hint_at self.now j }
    {
        if self.last < j { self.low } else { self.high }
    }

    // Hints that take the paths below a slack, and of those that have it the ones of the tests up to `last`.
    fn with_ties(slack: i64, last: usize) -> Hints
        ensures { OneApart result }
    {
        Hints {
            high: after(slack),
            low: slack,
            last,
        }
    }

    // One hint for all tests, just above the least slack that was passed over. In the last round it is above every slack.
    fn raised(out: i64, last_round: bool) -> Hints
        ensures near { OneApart result }
        ensures alike { result.high ≡ result.low }
        ensures ends { last_round ≡ true → Less (pos 257000000) result.low }
    {
        let hint = if last_round { ABOVE } else { after(out) };
        Hints {
            high: hint,
            low: hint,
            last: 0,
        }
    }
}

impl Found {
    // Whether the list is full, or nothing was passed over that can be a slack.
    fn is_answer(&self, k: usize) -> bool
        ensures { result ≡ true → Complete k self.now }
    {
        k <= self.best.count || SLACKS <= self.out
    }
}

// The first k paths of all tests. A round that finds fewer than k, having passed over some, is done again with a higher hint: the least value that a round passes
// over is the slack of some path, so each round finds one more at the least, and k rounds are enough.
#[inline(never)]
fn by_rounds(
    table: &[u32],
    mode: u32,
    work: &mut [u64],
    k: usize,
    hints: Hints,
    bounds: &[u32; Design::TESTS],
) -> Best
    requires { Rounds table.now mode k hints work.old bounds.now }
    ensures { Won table.now mode k work.new result.list result.count result.slots }
{
    let mut found = find(table, mode, work, k, hints, bounds);
    for round in 0..k {
        if found.is_answer(k) {
            break;
        }
        let higher = Hints::raised(found.out, round + 1 == k);
        found = find(table, mode, work, k, higher, bounds);
    }
    found.best
}

// The first k paths of all tests: the list tells them, and their walks stand in their slots. Any hint leads to them.
#[inline(never)]
pub fn first(table: &[u32], mode: u32, work: &mut [u64], k: usize) -> Best
    requires { Prepared table.now mode work.old × (0 < k) × (k ≤ most_k) }
    ensures { Won table.now mode k work.new result.list result.count result.slots }
{
    let mut bounds = laying::bounds_of(table, mode, work);
    let kth = hints::hint(table, mode, work, k, &mut bounds);
    by_rounds(
        table,
        mode,
        work,
        k,
        Hints::with_ties(kth.slack, kth.last),
        &bounds,
    )
}
