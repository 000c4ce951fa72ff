// Puts each asking stored in data/askings to the library and prints what it answers. What it must print is stored in `stdout`, made by
// reference/stored_asking.py from the second implementation.
#![tactic(auto)]

use std::fs::File;
use std::io::{self, Stdout};
use stored::{Numbers, TABLE, mix_all, mix_signed, print_number};

// Room for the rows and the work area of a stored asking.
const ROOM: usize = 4500;

const WORK: usize = 8200;

// What stands in the room and in the work area before an asking.
const ROOM_FILL: i64 = -7;

const WORK_FILL: u64 = 5;

// One stored asking: the answer, the room and the work area afterwards.
// Stays: three lent arrays. Tried as fields of one lent struct: the borrow checker does not cover lending two of those at once.
fn one_case(
    out: &Stdout,
    mut numbers: Numbers,
    table: &mut [u32; TABLE],
    room: &mut [i64; ROOM],
    work: &mut [u64; WORK],
) -> io::Result<()> {
    let table = &mut table[..numbers.length(TABLE)];
    let mode = numbers.number();
    let k = numbers.number() as usize;
    let room = &mut room[..numbers.length(ROOM)];
    let work = &mut work[..numbers.length(WORK)];
    table.fill_with(|| numbers.number());
    room.fill(ROOM_FILL);
    work.fill(WORK_FILL);
    match report::ask(table, mode, k, room, work) {
        Ok(a) => print!(out; "rows\t{}\t{}", a.rows, a.total)?,
        Err(refusal) => stored::print_refusal(out, refusal)?,
    }
    print_number(out, room.iter().fold(0, |total, x| mix_signed(total, *x)))?;
    print_number(out, mix_all(0, work))?;
    print!(out; "\n")
}

fn main(rt: HostRuntime) -> io::Result<()> {
    let mut input = File::open(&rt, "askings")?;
    let out = rt.stdout();
    let mut table = [0; TABLE];
    let mut room = [0; ROOM];
    let mut work = [0; WORK];
    stored::each_case(&mut input, |numbers| {
        one_case(&out, numbers, &mut table, &mut room, &mut work)
    })
}
