// The work area, part by part: where each part begins, and how a word of it is read. Each part begins where the one before it ends.
// Stays: places in one slice, since the caller lends the whole area as 64-bit words (no heap, fixed memory).
#![tactic(auto)]

ghost use Rattle.std.specs.Prelude.{◌≡◌, ◌<◌};
ghost use Rattle.area.specs.Area.{given, packed, weight_in, from_in, arc_in};

use timing::Design;

// The walks of the ranked list, a slot for each record: how many arcs, and then the arcs, read backwards from the data pin.
pub const SLOTS: usize = 0;

pub const SLOT: usize = Design::PINS;

// A word for each arc, sorted by the pin that the arc enters.
pub const ARCS: usize = SLOTS + Design::K * SLOT;

// Where the arcs into each pin begin, and behind the last pin where they end.
pub const FIRSTS: usize = ARCS + Design::ARCS;

// What each start brings to the test at hand; NONE at any other pin.
pub const SEEDS: usize = FIRSTS + Design::PINS + 1;

// A number for each pin, one after the other: while the seeds are laid its credit against the test's clock, then the number of walks from it, or the least value
// of a walk from it.
pub const CREDITS: usize = SEEDS + Design::PINS;

pub const COUNTS: usize = CREDITS;

pub const LEASTS: usize = CREDITS;

// The early and the late clock arrivals.
pub const EARLY: usize = COUNTS + Design::PINS;

pub const LATE: usize = EARLY + Design::PINS;

// The arc that comes into each pin of the clock tree.
pub const PARENTS: usize = LATE + Design::PINS;

// How many arcs lead from R to it.
pub const DEPTHS: usize = PARENTS + Design::PINS;

// The pin that drives it; NONE at R and on the data side.
pub const DRIVERS: usize = DEPTHS + Design::PINS;

// What each start brings before credit; NONE at any other pin.
pub const BASES: usize = DRIVERS + Design::PINS;

// The turns of the walk at hand.
pub const TURNS: usize = BASES + Design::PINS;

// Behind the last part.
pub const END: usize = TURNS + Design::PINS;

// No start, no driver, no walk: above every value.
// Stays: a number, since a lent word has no room for an Option.
pub const NONE: u64 = 1152921504606846976;

// A word of the area, where it is not NONE.
pub fn given(word: u64) -> Option<u64>
    ensures { result ≡ given word }
{
    (word < NONE).then_some(word)
}

// An arc in one word: what it adds to a value, the pin that it leaves, and its number.
// Stays: packed into a lent word, with a reader for each part; docs/DECISIONS.md names them.
pub fn word_of(weight: u64, from: u64, arc: u64) -> u64
    requires { (weight < 4294967296) × (from < 256) × (arc < 1024) }
    ensures { result ≡ packed weight from arc }
{
    weight * 262144 + arc * 256 + from
}

// What the arc in a word adds to a value.
pub fn weight_in(word: u64) -> u64
    ensures { result ≡ weight_in word }
{
    word / 262144
}

// The pin that it leaves.
pub fn from_in(word: u64) -> usize
    ensures { result ≡ from_in word }
{
    (word % 256) as usize
}

// Its number.
pub fn arc_in(word: u64) -> u64
    ensures { result ≡ arc_in word }
{
    word / 256 % 1024
}
