// The library for C and Rust callers: the operations under names of C. A slice crosses as a pointer and a length; an answer, which is a `Result` inside,
// crosses as a struct of numbers in which refusal 0 means that the operation answered.
#![tactic(auto)]

ghost use Rattle.std.specs.Prelude.{◌≡◌, length};
ghost use Rattle.timing.specs.Refusals.{checked_of};
ghost use Rattle.timing.specs.Check.{table_fault};
ghost use Rattle.timing.specs.Text.{reading, room_filled};
ghost use Rattle.timing.specs.Asked.{answer, room_after, work_after};
ghost use Rattle.timing.specs.Ranked.{enter_answer, list_after};
ghost use Rattle.chthonyra.specs.Told.{reading_told, line_told, checked_told, answer_told, entered_told};

use timing::{Answer, Candidate, Reading, Refusal};

// What a reading tells: the refusal's number and place, or the table's length, the mode and k. Here and below, a number without a meaning is 0.
// Stays: C callers see refusal and place as fields of each of the four structs, at these offsets.
#[repr(C)]
#[derive(Clone, Copy, Default)]
pub struct ReadingTold {
    pub refusal: u32,
    pub mode: u32,
    pub place: usize,
    pub length: usize,
    pub k: usize,
}

impl From<Result<Reading, Refusal>> for ReadingTold {
    ghost from_gives = { λ answer told. told ≡ reading_told answer };

    fn from(answer: Result<Reading, Refusal>) -> Self {
        match answer {
            Ok(Reading { length, mode, k }) => Self {
                length,
                mode,
                k,
                ..Self::default()
            },
            Err(r) => Self {
                refusal: r.number(),
                place: r.place(),
                ..Self::default()
            },
        }
    }
}

// Where a line stands in its text: the offset of its first byte, and its length without byte 10.
#[repr(C)]
#[derive(Clone, Copy)]
pub struct LineTold {
    pub start: usize,
    pub length: usize,
}

// What a check tells: the refusal's number and place.
#[repr(C)]
#[derive(Clone, Copy, Default)]
pub struct CheckedTold {
    pub refusal: u32,
    pub place: usize,
}

impl From<Result<(), Refusal>> for CheckedTold {
    ghost from_gives = { λ answer told. told ≡ checked_told answer };

    fn from(answer: Result<(), Refusal>) -> Self {
        match answer {
            Ok(()) => Self::default(),
            Err(r) => Self {
                refusal: r.number(),
                place: r.place(),
            },
        }
    }
}

// What an asking tells: the refusal's number and place, or rows given and total.
#[repr(C)]
#[derive(Clone, Copy, Default)]
pub struct AnswerTold {
    pub refusal: u32,
    pub place: usize,
    pub rows: usize,
    pub total: u64,
}

impl From<Result<Answer, Refusal>> for AnswerTold {
    ghost from_gives = { λ answer told. told ≡ answer_told answer };

    fn from(answer: Result<Answer, Refusal>) -> Self {
        match answer {
            Ok(Answer { rows, total }) => Self {
                rows,
                total,
                ..Self::default()
            },
            Err(r) => Self {
                refusal: r.number(),
                place: r.place(),
                ..Self::default()
            },
        }
    }
}

// What entering a record tells: the refusal's number and place, or the new count.
#[repr(C)]
#[derive(Clone, Copy, Default)]
pub struct EnteredTold {
    pub refusal: u32,
    pub place: usize,
    pub count: usize,
}

impl From<Result<usize, Refusal>> for EnteredTold {
    ghost from_gives = { λ answer told. told ≡ entered_told answer };

    fn from(answer: Result<usize, Refusal>) -> Self {
        match answer {
            Ok(count) => Self {
                count,
                ..Self::default()
            },
            Err(r) => Self {
                refusal: r.number(),
                place: r.place(),
                ..Self::default()
            },
        }
    }
}

// Reads a text into a table: refusals 1 to 5.
#[unsafe(no_mangle)]
pub extern "C" fn chthonyra_read(text: &[u8], table: &mut [u32]) -> ReadingTold
    ensures { (result ≡ reading_told (reading text.now (length table.old))) × (table.new ≡ room_filled text.now table.old) }
{
    reader::read(text, table).into()
}

// Where line n of a text stands, counted from 1; outside the lines the empty part at the text's end.
#[unsafe(no_mangle)]
pub extern "C" fn chthonyra_line(text: &[u8], n: usize) -> LineTold
    ensures { result ≡ line_told text.now n }
{
    LineTold {
        start: reader::line_start(text, n),
        length: reader::line(text, n).len(),
    }
}

// Checks a table: refusals 6 to 13.
#[unsafe(no_mangle)]
pub extern "C" fn chthonyra_check(table: &[u32]) -> CheckedTold
    ensures { result ≡ checked_told (checked_of (table_fault table.now)) }
{
    tables::check(table).into()
}

// The k worst paths of a table, as rows at the front of the room: refusals 6 to 15.
#[unsafe(no_mangle)]
pub extern "C" fn chthonyra_ask(
    table: &[u32],
    mode: u32,
    k: usize,
    room: &mut [i64],
    work: &mut [u64],
) -> AnswerTold
    ensures { (result ≡ answer_told (answer table.now mode k (length room.old) (length work.old))) × (room.new ≡ room_after table.now mode k room.old (length work.old)) × (work.new ≡ work_after table.now mode k (length room.old) work.old) }
{
    report::ask(table, mode, k, room, work).into()
}

// Enters a record among the first count of a lent list of records: refusal 16.
#[unsafe(no_mangle)]
pub extern "C" fn chthonyra_enter(list: &mut [Candidate], count: usize, c: Candidate) -> EnteredTold
    ensures { (result ≡ entered_told (enter_answer count (length list.old))) × (list.new ≡ list_after list.old count c) }
{
    ranked::enter(list, count, c).into()
}
