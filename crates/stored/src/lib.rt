// What the test programs share: the cases of a file, the numbers of a case, a sum over what is left in lent memory, printing.
#![tactic(auto)]

ghost use Rattle.std.specs.Prelude.{◌≡◌, ◌<◌, drop, min, slice_index};
ghost use Rattle.stored.specs.Numbers.{size, first, behind};
ghost use Rattle.std.specs.List.{FoldsTo};
ghost use Rattle.stored.specs.Sums.{mixed, mixed_signed, mixes};

use std::fs::File;
use std::io::{self, Read, Stdout};
use timing::Refusal;

// The longest stored case, in bytes.
const CASE: usize = 66000;

// Room for the table of a stored text or asking.
pub const TABLE: usize = 5200;

// The numbers of a stored case, in order. What is not there counts as 0.
#[derive(Clone, Copy)]
pub struct Numbers<'a> {
    // The bytes that are not read yet.
    pub rest: &'a [u8],
}

impl<'a> Numbers<'a> {
    // The next byte.
    // Stays: the stored output of `cases_list` counts what is absent as 0: a stored list ends before its last places.
    fn byte(&mut self) -> u8
        ensures value { result ≡ slice_index self.old.rest.now 0 }
        ensures rest { self.new.rest.now ≡ drop 1 self.old.rest.now }
    {
        let Some((first, rest)) = self.rest.split_first() else {
            return 0;
        };
        self.rest = rest;
        *first
    }

    // The next number: one byte to 250; else 251 and two bytes, or 252 and four, the lowest first.
    #[tactic(auto, unfolding(lists::specs::Choice::pick))]
    pub fn number(&mut self) -> u32
        ensures value { result ≡ first self.old.rest.now }
        ensures rest { self.new.rest.now ≡ drop (size self.old.rest.now) self.old.rest.now }
    {
        match self.byte() {
            251 => u32::from_le_bytes([self.byte(), self.byte(), 0, 0]),
            252.. => u32::from_le_bytes([self.byte(), self.byte(), self.byte(), self.byte()]),
            first => u32::from(first),
        }
    }

    // The next number as a length, cut to the most.
    pub fn length(&mut self, most: usize) -> usize
        ensures value { result ≡ min most (first self.old.rest.now) }
        ensures rest { self.new.rest.now ≡ drop (size self.old.rest.now) self.old.rest.now }
    {
        most.min(self.number() as usize)
    }

    // Passes over some numbers.
    pub fn skip(&mut self, count: usize)
        ensures { self.new.rest.now ≡ behind count self.old.rest.now }
    {
        for _ in 0..count {
            self.number();
        }
    }
}

// The next length in the file: four bytes, the lowest first. What is not there counts as 0.
// Stays: no error comes of it, here and in `each_case`, since docs/PORT.md says that a read that fails counts as the end of the data.
pub fn next_length(input: &mut File) -> usize
    ensures { result < 4294967296 }
{
    let mut four = [0; 4];
    let _ = input.read_exact(&mut four);
    u32::from_le_bytes(four) as usize
}

// Runs each case stored in the file, in turn. One that the file ends in is passed over, and those behind it are empty.
pub fn each_case<F: FnMut(Numbers) -> io::Result<()>>(
    input: &mut File,
    mut case: F,
) -> io::Result<()>
    requires { F.IsAlwaysCallable case }
{
    let mut space = [0; CASE];
    for _ in 0..next_length(input) {
        let n = CASE.min(next_length(input));
        if input.read_exact(&mut space[..n]).is_ok() {
            case(Numbers { rest: &space[..n] })?;
        }
    }
    Ok(())
}

// One number more in a sum that depends on order and on every place.
pub fn mix(total: u64, value: u64) -> u64
    ensures { result ≡ mixed total value }
{
    ((total % 1000003) * 131 + value % 1000003 + 1) % 1000003
}

// A signed number more: its parts above and below zero.
pub fn mix_signed(total: u64, value: i64) -> u64
    ensures { result ≡ mixed_signed total value }
{
    mix(mix(total, lists::above(value)), lists::below(value))
}

// All of some numbers more.
pub fn mix_all<T: Copy + Into<u64>>(before: u64, values: &[T]) -> u64
    ensures { FoldsTo (mixes T.converts) before values.now result }
{
    values
        .iter()
        .fold(before, |total, x| mix(total, (*x).into()))
}

// A tab and a number.
pub fn print_number(out: &Stdout, n: u64) -> io::Result<()> {
    print!(out; "\t{n}")
}

// A refusal with its number and place.
// Stays: Display of Refusal would serve this line alone, since `printing` puts bytes into lent memory and counts those that do not fit too.
pub fn print_refusal(out: &Stdout, refusal: Refusal) -> io::Result<()> {
    print!(out; "refused\t{}\t{}", refusal.number(), refusal.place())
}
