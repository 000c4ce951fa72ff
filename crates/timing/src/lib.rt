// The design's type with its limits, which kind of pin may drive which, the refusals, and what the operations answer.
#![tactic(auto)]

ghost use Rattle.std.specs.Prelude.{◌≡◌, ◌≤◌, not};
ghost use Rattle.timing.specs.Field.{Letters};
ghost use Rattle.timing.specs.Kinds.{kind_number, Decodes, has_times, may_drive};
ghost use Rattle.timing.specs.Line.{sizes_bad};
ghost use Rattle.timing.specs.Refusals.{number_of, place_of};
ghost use Rattle.timing.specs.Table.{length_for};

// The sizes of a design. The limits belong to this type.
#[derive(Clone, Copy)]
pub struct Design {
    pub pins: usize,
    pub arcs: usize,
    pub tests: usize,
}

impl Design {
    pub const PINS: usize = 256;

    pub const ARCS: usize = 1024;

    pub const TESTS: usize = 64;

    // The most rows that may be asked for.
    pub const K: usize = 16;

    // The longest delay, arrival, setup, hold and period, in picoseconds.
    pub const DELAY: usize = 1000000;

    // The longest text, in bytes.
    pub const TEXT: usize = 65536;

    // The total is never told higher.
    pub const TOTAL: u64 = 1000000000;

    // The length of the work area, in 64-bit numbers.
    pub const WORK: usize = 8192;

    // The numbers of a row before its arcs.
    pub const HEAD: usize = 5;

    pub const KINDS: usize = 5;

    // Which kind may drive which: a row for each kind that drives, R, B, K, I, D; in it a place for each kind driven.
    pub const DRIVES: [[bool; Self::KINDS]; Self::KINDS] = [
        // R drives B and K.
        [false, true, true, false, false],
        // B drives B and K.
        [false, true, true, false, false],
        // K drives D.
        [false, false, false, false, true],
        // I drives D.
        [false, false, false, false, true],
        // D drives D.
        [false, false, false, false, true],
    ];

    // Whether the sizes are within their limits, with one pin at least.
    pub fn is_within(self) -> bool
        ensures { result ≡ not (sizes_bad self.pins self.arcs self.tests) }
    {
        (1..=Self::PINS).contains(&self.pins)
            && self.arcs <= Self::ARCS
            && self.tests <= Self::TESTS
    }

    // The length of the table of a design of these sizes.
    pub fn table_length(self) -> usize
        requires few { (self.pins ≤ 4294967295) × ((self.arcs ≤ 4294967295) × (self.tests ≤ 4294967295)) }
        ensures { result ≡ length_for self.pins self.arcs self.tests }
    {
        4 + 3 * self.pins + 4 * self.arcs + 4 * self.tests
    }
}

// The kind of a pin. The table has it as a number, in this order from 0.
#[derive(Clone, Copy, Debug, PartialEq, Eq)]
pub enum Kind {
    // Clock root.
    R,
    // Clock buffer pin.
    B,
    // Flip-flop clock pin.
    K,
    // Primary input.
    I,
    // Data pin.
    D,
}

impl Kind {
    // Its number in the table.
    // Stays: `From<Kind> for u32` would be the same line; `TryFrom`, the way back, takes the number as it is read, as a usize.
    pub fn number(self) -> u32
        ensures { result ≡ kind_number self }
    {
        self as u32
    }

    // The kind that a letter names.
    // Stays: a method, since `Kind::try_from` of a u8 would read a letter and of a usize a number; by its name a call says which.
    pub fn of_letter(letter: u8) -> Option<Kind>
        ensures { Letters letter result }
    {
        match letter {
            b'R' => Some(Kind::R),
            b'B' => Some(Kind::B),
            b'K' => Some(Kind::K),
            b'I' => Some(Kind::I),
            b'D' => Some(Kind::D),
            _ => None,
        }
    }

    // Whether a pin of this kind has an early and a late arrival.
    pub fn has_times(self) -> bool
        ensures { result ≡ has_times (kind_number self) }
    {
        matches!(self, Kind::R | Kind::I)
    }
}

// A number that no kind has.
#[derive(Clone, Copy, Debug, PartialEq, Eq)]
pub struct NoKind(pub usize);

impl TryFrom<usize> for Kind {
    type Error = NoKind;

    ghost try_from_gives = { Decodes };

    fn try_from(number: usize) -> Result<Self, NoKind> {
        match number {
            0 => Ok(Kind::R),
            1 => Ok(Kind::B),
            2 => Ok(Kind::K),
            3 => Ok(Kind::I),
            4 => Ok(Kind::D),
            _ => Err(NoKind(number)),
        }
    }
}

// Whether an arc may run from a pin of one kind to a pin of the other; no kind but the five drives or is driven.
// Stays: kinds as numbers, also such as no kind has; docs/PROMISES.md names it so.
pub fn may_drive(from: usize, to: usize) -> bool
    ensures { result ≡ may_drive from to }
{
    from < Design::KINDS && (to < Design::KINDS && Design::DRIVES[from][to])
}

// Why an operation refuses; with it the line, pin, arc or test where it has one.
#[derive(Clone, Copy, Debug, PartialEq, Eq)]
pub enum Refusal {
    // 1: the text is over its limit.
    TextLong,
    // 2: the line due is absent, has no byte 10 or another word first, or a line follows the last.
    LineNotDue(usize),
    // 3: wrong number of fields.
    FieldCount(usize),
    // 4: malformed number, unknown kind letter or mode word; on `design` a size over its limit, or no pin.
    FieldForm(usize),
    // 5: the room lent for the table is short.
    TableRoom,
    // 6: the table's length is wrong, or its header outside the limits.
    TableHeader,
    // 7: a pin's kind, range or times.
    PinNumbers(usize),
    // 8: not exactly one R.
    RootCount,
    // 9: an arc's ends.
    ArcEnds(usize),
    // 10: an arc's pair of kinds.
    ArcKinds(usize),
    // 11: an arc's range.
    ArcRange(usize),
    // 12: wrong number of arcs into a pin.
    ArcsInto(usize),
    // 13: a test's pins or times.
    TestNumbers(usize),
    // 14: the mode or k.
    ModeOrK,
    // 15: the room lent for the rows, or the work area, is short.
    RowRoom,
    // 16: the ranked list's count is above its length.
    ListCount,
}

// Stays: document 01's number and place, with 0 where a refusal has no place; docs/PROMISES.md names both.
impl Refusal {
    // Its number in document 01.
    pub fn number(self) -> u32
        ensures { result ≡ number_of self }
    {
        match self {
            Refusal::TextLong => 1,
            Refusal::LineNotDue(_) => 2,
            Refusal::FieldCount(_) => 3,
            Refusal::FieldForm(_) => 4,
            Refusal::TableRoom => 5,
            Refusal::TableHeader => 6,
            Refusal::PinNumbers(_) => 7,
            Refusal::RootCount => 8,
            Refusal::ArcEnds(_) => 9,
            Refusal::ArcKinds(_) => 10,
            Refusal::ArcRange(_) => 11,
            Refusal::ArcsInto(_) => 12,
            Refusal::TestNumbers(_) => 13,
            Refusal::ModeOrK => 14,
            Refusal::RowRoom => 15,
            Refusal::ListCount => 16,
        }
    }

    // Its place: the line counted from 1, the pin, arc or test counted from 0; 0 where it has none.
    pub fn place(self) -> usize
        ensures { result ≡ place_of self }
    {
        match self {
            Refusal::LineNotDue(line) | Refusal::FieldCount(line) | Refusal::FieldForm(line) =>
                line,
            Refusal::PinNumbers(pin) | Refusal::ArcsInto(pin) => pin,
            Refusal::ArcEnds(arc) | Refusal::ArcKinds(arc) | Refusal::ArcRange(arc) => arc,
            Refusal::TestNumbers(test) => test,
            _ => 0,
        }
    }
}

// What an accepted text gives: the table's length, the mode and k.
// Stays: the mode is a number, here 0 setup and 1 hold, and so in all crates, as document 01, the C interface and `report::ask` have it.
#[derive(Clone, Copy, Debug, PartialEq, Eq)]
pub struct Reading {
    pub length: usize,
    pub mode: u32,
    pub k: usize,
}

// What an accepted asking gives: rows given and total.
#[derive(Clone, Copy, Debug, PartialEq, Eq)]
pub struct Answer {
    pub rows: usize,
    pub total: u64,
}

// A candidate record of the ranked list, ordered by slack, test and serial. It crosses to C as it is.
#[repr(C)]
#[derive(Clone, Copy, Debug, Default, PartialEq, Eq, PartialOrd, Ord)]
pub struct Candidate {
    pub slack: i64,
    pub test: u64,
    pub serial: u64,
}
