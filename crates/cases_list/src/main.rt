// Enters a record into each list stored in data/lists and prints what comes of it. What it must print is stored in `stdout`, made by
// reference/stored_list.py from the second implementation.
#![tactic(auto)]

ghost use Rattle.std.specs.Prelude.{◌≡◌, ◌++◌, ◌≤◌, take, drop, length};
ghost use Rattle.timing.specs.Ranked.{enter_answer, list_after};

use std::array;
use std::fs::File;
use std::io::{self, Stdout};
use stored::{Numbers, mix, mix_signed, print_number};
use timing::{Candidate, Design, Refusal};

// Places for the records of a stored list; the first of them are lent.
const PLACES: usize = 24;

// Lends the first len places and enters c there; the places behind are not lent, and stay.
fn enter_front(
    list: &mut [Candidate],
    len: usize,
    count: usize,
    c: Candidate,
) -> Result<usize, Refusal>
    requires { len ≤ length list.old }
    ensures answer { result ≡ enter_answer count len }
    ensures list { list.new ≡ list_after (take len list.old) count c ++ drop len list.old }
{
    ranked::enter(&mut list[..len], count, c)
}

// ---- what is stored

// A number of 64 bits: two stored numbers, the higher half first.
fn word(numbers: &mut Numbers) -> u64 {
    let high = u64::from(numbers.number());
    let low = u64::from(numbers.number());
    high << 32 | low
}

// A slack from its sign and its size: with a sign other than 0 it is below zero by one more than the size.
// Stays: the program does what it did on every input, so a size above every i64, which no stored list has, makes 0.
fn slack(numbers: &mut Numbers) -> i64 {
    let sign = numbers.number();
    match i64::try_from(word(numbers)) {
        Ok(size) if sign == 0 => size,
        Ok(size) => -1 - size,
        Err(_) => 0,
    }
}

// A record: slack, test and serial.
fn record(numbers: &mut Numbers) -> Candidate {
    Candidate {
        slack: slack(numbers),
        test: word(numbers),
        serial: word(numbers),
    }
}

// ---- what is printed

// One record more in a sum.
fn mix_record(total: u64, c: &Candidate) -> u64 {
    mix(mix(mix_signed(total, c.slack), c.test), c.serial)
}

// Prints what entering answers, and the sum over the list afterwards.
fn show(out: &Stdout, answer: Result<usize, Refusal>, list: &[Candidate]) -> io::Result<()> {
    match answer {
        Ok(count) => print!(out; "count\t{count}")?,
        Err(refusal) => stored::print_refusal(out, refusal)?,
    }
    print_number(out, list.iter().fold(0, mix_record))
}

// One stored list: the places lent, the count, the newcomer, the records; where none is stored any more, one of zeros.
// Enters the newcomer into the lent places, and into the first places by value, in both forms.
fn one_case(out: &Stdout, mut numbers: Numbers) -> io::Result<()> {
    let len = numbers.length(PLACES);
    let count = word(&mut numbers) as usize;
    let c = record(&mut numbers);
    let mut list: [Candidate; PLACES] = array::from_fn(|_| record(&mut numbers));
    let first: [Candidate; Design::K] = array::from_fn(|i| list[i]);
    let answer = enter_front(&mut list, len, count, c);
    show(out, answer, &list)?;
    for by_value in [
        ranked::enter_array(first, count, c),
        ranked::enter_in(first, count, c),
    ] {
        print!(out; "\t")?;
        show(out, by_value.answer, &by_value.list)?;
    }
    print!(out; "\n")
}

fn main(rt: HostRuntime) -> io::Result<()> {
    let mut input = File::open(&rt, "lists")?;
    let out = rt.stdout();
    stored::each_case(&mut input, |numbers| one_case(&out, numbers))
}
