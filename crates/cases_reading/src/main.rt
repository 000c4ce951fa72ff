// Gives each text stored in data/texts to the reader and prints what it answers. What it must print is stored in `stdout`, made by
// reference/stored_reading.py from the second implementation.
#![tactic(auto)]

use std::fs::File;
use std::io::{self, Stdout};
use stored::{Numbers, TABLE, mix, mix_all, print_number};

// What stands in the room before a text is read.
const FILL: u32 = 4000000007;

// The most lines that a stored text asks back.
const LINES: usize = 100;

// The sum over the lines whose numbers are stored, each its length and its bytes.
fn sum_lines(mut numbers: Numbers, count: usize, text: &[u8]) -> u64 {
    let mut total = 0;
    for _ in 0..count {
        let line = reader::line(text, numbers.number() as usize);
        total = mix_all(mix(total, line.len() as u64), line);
    }
    total
}

// Reads a text into a room and prints the answer and the room afterwards.
fn read_into(out: &Stdout, text: &[u8], room: &mut [u32]) -> io::Result<()> {
    room.fill(FILL);
    match reader::read(text, room) {
        Ok(r) => print!(out; "read\t{}\t{}\t{}", r.length, r.mode, r.k)?,
        Err(refusal) => stored::print_refusal(out, refusal)?,
    }
    print_number(out, mix_all(0, room))
}

// One stored text: the answer, the room afterwards, the lines given back.
fn one_case(out: &Stdout, mut numbers: Numbers, room: &mut [u32]) -> io::Result<()> {
    let size = numbers.length(room.len());
    let count = numbers.length(LINES);
    let lines = numbers;
    numbers.skip(count);
    let text = numbers.rest;
    read_into(out, text, &mut room[..size])?;
    print_number(out, sum_lines(lines, count, text))?;
    print!(out; "\n")
}

fn main(rt: HostRuntime) -> io::Result<()> {
    let mut input = File::open(&rt, "texts")?;
    let out = rt.stdout();
    let mut room = [0; TABLE];
    stored::each_case(&mut input, |numbers| one_case(&out, numbers, &mut room))
}
