// The walks of one test, gone through backwards from its data pin in the order of the tie rule. Arcs that lead to no value below a bound are passed over.
#![tactic(auto)]

ghost use Rattle.std.specs.Prelude.{◌≡◌, ℕ, ◌+◌, ◌*◌, ◌≤◌, ◌<◌, length};
ghost use Rattle.area.specs.Area.{none, turns_end};
ghost use Rattle.walker.specs.Rest.{turn, pin_in, place_in};
ghost use Rattle.walker.specs.Leasts.{Into, Least, LeastAt, Laid, AllLeasts};
ghost use Rattle.walker.specs.Slots.{Keeps};
ghost use Rattle.walker.specs.Slots as slots;
ghost use Rattle.walker.specs.Cursors.{end_at, begin_at, Ready, Step, Next};

// Whether a cursor goes on, came to a walk with this value, or has no walk left.
#[derive(Clone, Copy)]
pub enum State {
    Going,
    Found(u64),
    Ended,
}

// A place in the walks of a test: how many turns were taken, the pin that they came to, the place of the next arc into it, what the turns weigh, and what was come to
// there. And the least bound of an arc that was passed over.
#[derive(Clone, Copy)]
pub struct Cursor {
    pub depth: usize,
    pub pin: usize,
    pub place: usize,
    pub sum: u64,
    pub state: State,
    // Stays: above every value while none was passed over, so that the next bound is taken in by one `min`, as NONE is in the least values.
    pub out: u64,
}

// ---- the least values

// The least value that the arcs into pin v bring. The numbers of the pins that they leave stand already, and none is above NONE, so no sum wraps.
// Stays: a loop beside that of `arcs::count`, which says why.
fn least_into(work: &[u64], v: usize) -> u64
    requires { Into work.now v }
    ensures { Least work.now v result }
{
    let first = work[area::FIRSTS + v] as usize;
    let end = work[area::FIRSTS + v + 1] as usize;
    let mut least = area::NONE;
    for i in first..end {
        let word = work[area::ARCS + i];
        let from = area::from_in(word);
        least = least.min(work[area::LEASTS + from] + area::weight_in(word));
    }
    least
}

// What a walk has at the least that goes on from pin v: at a start its seed.
fn least_at(work: &[u64], v: usize) -> u64
    requires { Into work.now v }
    ensures { LeastAt work.now v result }
{
    match area::given(work[area::SEEDS + v]) {
        Some(seed) => seed,
        None => least_into(work, v),
    }
}

// The least values of all pins, ascending: every arc rises, so a pin comes after those that its arcs leave.
pub fn least_values(work: &mut [u64], pins: usize)
    requires { Laid work.old pins }
    ensures { AllLeasts work.old work.new pins }
{
    for v in 0..pins {
        work[area::LEASTS + v] = least_at(work, v);
    }
}

// ---- the cursor

// A turn: the pin at which an arc was taken, and the arc's place. The work area has it in one word.
#[derive(Clone, Copy)]
struct Turn {
    pin: usize,
    place: usize,
}

impl Turn {
    // In one word.
    // Stays: a method, since it has a precondition, which From has not.
    fn word(self) -> u64
        requires { (self.pin < 256) × (self.place < 1024) }
        ensures { result ≡ turn self.pin self.place }
    {
        (self.pin * 1024 + self.place) as u64
    }
}

impl From<u64> for Turn {
    ghost from_gives = { λ word t. (t.pin ≡ pin_in word) × (t.place ≡ place_in word) };

    fn from(word: u64) -> Turn {
        Turn {
            pin: (word / 1024) as usize,
            place: (word % 1024) as usize,
        }
    }
}

impl Cursor {
    // Before the first walk from a pin.
    pub fn begin(work: &[u64], pin: usize) -> Cursor
        requires { (pin < 256) × (turns_end ≤ length work.now) }
        ensures { result ≡ begin_at work.now pin }
    {
        Cursor {
            depth: 0,
            pin,
            place: work[area::FIRSTS + pin] as usize,
            sum: 0,
            state: State::Going,
            out: area::NONE,
        }
    }

    // To the next walk with a value below the bound, or to the end.
    pub fn next_walk(self, work: &mut [u64], under: u64) -> Cursor
        requires { Ready work.old self × (under ≤ none) }
        ensures { Next under work.old self work.new result }
    {
        let mut c = Cursor {
            state: State::Going,
            ..self
        };
        while let State::Going = c.state {
            c = c.step(work, under);
        }
        c
    }

    // One step.
    fn step(self, work: &mut [u64], under: u64) -> Cursor
        requires { Ready work.old self × (under ≤ none) }
        ensures { Step under work.old self work.new result }
    {
        let end = work[area::FIRSTS + self.pin + 1] as usize;
        if self.place < end {
            self.over(work, under)
        } else {
            self.back(work)
        }
    }

    // Over the arc at the cursor: past it if its bound is not below the given one, else to the end of a walk, or deeper.
    fn over(self, work: &mut [u64], under: u64) -> Cursor
        requires { Ready work.old self × (under ≤ none) × (self.place < end_at work.old self) }
        ensures { Step under work.old self work.new result }
    {
        let word = work[area::ARCS + self.place];
        let from = area::from_in(word);
        let sum = self.sum + area::weight_in(word);
        let least = sum + work[area::LEASTS + from];
        let place = self.place + 1;
        if under <= least {
            return Cursor {
                place,
                state: State::Going,
                out: self.out.min(least),
                ..self
            };
        }
        if area::given(work[area::SEEDS + from]).is_some() {
            return Cursor {
                place,
                state: State::Found(least),
                ..self
            };
        }
        let turn = Turn {
            pin: self.pin,
            place: self.place,
        };
        work[area::TURNS + self.depth] = turn.word();
        Cursor {
            depth: self.depth + 1,
            pin: from,
            place: work[area::FIRSTS + from] as usize,
            sum,
            state: State::Going,
            ..self
        }
    }

    // No arc is left at the cursor: back to the turn before, or to the end.
    fn back(self, work: &[u64]) -> Cursor
        requires { Ready work.now self × (end_at work.now self ≤ self.place) }
        ensures { (under : ℕ) → Step under work.now self work.now result }
    {
        if self.depth == 0 {
            return Cursor {
                state: State::Ended,
                ..self
            };
        }
        let last = Turn::from(work[area::TURNS + (self.depth - 1)]);
        let weight = area::weight_in(work[area::ARCS + last.place]);
        Cursor {
            depth: self.depth - 1,
            pin: last.pin,
            place: last.place + 1,
            sum: self.sum - weight,
            state: State::Going,
            ..self
        }
    }

    // The walk that the cursor found goes to a slot: how many arcs it has, and the arcs, read backwards from the data pin.
    pub fn keep_walk(self, work: &mut [u64], slot: usize)
        requires { Keeps work.old self slot }
        ensures { slots.Kept slot work.old self.depth self.place work.new }
    {
        let base = slot * area::SLOT;
        for n in 0..self.depth {
            let turn = Turn::from(work[area::TURNS + n]);
            work[base + 1 + n] = area::arc_in(work[area::ARCS + turn.place]);
        }
        work[base + 1 + self.depth] = area::arc_in(work[area::ARCS + (self.place - 1)]);
        work[base] = (self.depth + 1) as u64;
    }
}
