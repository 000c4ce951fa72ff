// The reader: from a text to a table of numbers, with the refusals 1 to 5; line n of a text; the fields of a line and what they say.
#![tactic(auto)]

ghost use Rattle.std.specs.Prelude.{◌≡◌, ◌+◌, ◌-◌, ◌*◌, ◌<◌, ◌≤◌, ◌++◌, ◌∷◌, [], true, false, length, IfSome, MatchOption, MatchResult, Ok, ◌==◌, count_by};
ghost use Rattle.std.specs.List.{list_all};
ghost use Rattle.std.specs.Char.{is_ascii_digit};
ghost use Rattle.std.proofs.Math.Option.{none, some};
ghost use Rattle.lists.specs.Choice.{first_met};
ghost use Rattle.lists.specs.Parts.{below, gather, same};
ghost use Rattle.timing.specs.Kinds.{kind_number};
ghost use Rattle.timing.specs.Field.{digit, is_mode, mode_in, well_formed, number_or_0, no_kind, letter};
ghost use Rattle.timing.specs.Line.{field_of, field_count, is_number, four_numbers, number_in, design_line, pin_line, four_line, ask_line, four_of, pin_of};
ghost use Rattle.timing.specs.Text.{line_of, line_start, due_line, line_grounds, ask_grounds, due_of};
ghost use Rattle.timing.specs.Allows.{ReadAllows};
ghost use Rattle.lists.specs.Laws.Cut.{end_at};
ghost use Rattle.lists.specs.Laws.Member.{All};
ghost use Rattle.reader.specs.Cut.{start_of, next_at};
ghost use Rattle.lists.specs.Laws.Write.{sets};
ghost use Rattle.reader.specs.Scan.{last_byte, line_from, InField, NumberTo, WordTo, three_of, all_four, due_in, PlainTo};
ghost use Rattle.reader.specs.Answer.{told, sizes_of, asked_in, asked_at, due_at, DueTo, survey_of, table_to, Clean};

use timing::{Design, Kind, Reading, Refusal};

// What parts the fields of a line.
const TAB: u8 = b'\t';

// What ends a line: byte 10.
const LINE_END: u8 = b'\n';

// The most digits that a number has.
const DIGITS: usize = 7;

// The most that six digits say; a number that says more has seven, and no digit follows it.
const SIX_DIGITS: u32 = 999999;

// ---- bytes

// The place of the first byte b at or behind a, or the end.
// Stays: the end where there is none, which the slice in front needs as it is.
fn end_of(s: &[u8], b: u8, a: usize) -> usize
    requires { a ≤ length s.now }
    ensures { (result ≡ end_at b s.now a) × ((a ≤ result) × (result ≤ length s.now)) }
{
    let rest = &s[a..];
    a + rest.iter().position(|x| *x == b).unwrap_or(rest.len())
}

// How many bytes b there are.
// Stays: a loop that counts. `filter` and `count` go by a branch for each byte, and took almost five times as long over a line with tabs at random places.
fn count(s: &[u8], b: u8) -> usize
    ensures { result ≡ count_by (λ x. x == b) s.now }
{
    let mut n = 0;
    for x in s {
        if *x == b {
            n += 1;
        }
    }
    n
}

// The place behind the first n bytes b; the end where there are fewer.
// Stays: the end where there are fewer, which the slice behind needs as it is; and a count downwards, since the place behind is wanted, also for n = 0.
#[tactic(auto, using(crate::proofs::Places::starts))]
fn skip(s: &[u8], b: u8, n: usize) -> usize
    ensures { (result ≡ start_of b s.now n) × (result ≤ length s.now) }
{
    let mut left = n;
    for (i, x) in s.iter().enumerate() {
        if left == 0 {
            return i;
        }
        if *x == b {
            left -= 1;
        }
    }
    s.len()
}

// ---- fields

// Whether a field is the word, byte for byte.
// Stays: one place for the lemma that `==` is `same`; and a public function may not go.
#[tactic(auto, using(crate::proofs::Bytes::pointwise_same))]
pub fn alike(f: &[u8], word: &[u8]) -> bool
    ensures { result ≡ same f.now word.now }
{
    f == word
}

// Whether each byte is a digit.
fn all_digits(f: &[u8]) -> bool
    ensures { result ≡ list_all is_ascii_digit f.now }
{
    f.iter().all(|b| b.is_ascii_digit())
}

// Whether a field is a number: 1 to 7 digits, no leading zero but `0` itself.
#[tactic(auto, using(crate::proofs::Bytes::empty_formed, crate::proofs::Bytes::long_formed))]
pub fn well_formed(f: &[u8]) -> bool
    ensures { result ≡ well_formed f.now }
{
    if f.is_empty() || DIGITS < f.len() {
        return false;
    }
    all_digits(f) && (f[0] != b'0' || f.len() == 1)
}

// The number that a field says, if it is one.
#[tactic(auto, using(crate::proofs::Bytes::so_first, crate::proofs::Bytes::tens_six, crate::proofs::Bytes::value_end), unfolding(timing::specs::Field::number_or_0, lists::specs::Choice::pick))]
fn value_of(f: &[u8]) -> Option<u32>
    ensures { MatchOption result (well_formed f.now ≡ false) (λ v. (well_formed f.now ≡ true) × (v ≡ number_or_0 f.now)) }
{
    if !well_formed(f) {
        return None;
    }
    let mut value = 0;
    for b in f {
        value = value * 10 + u32::from(*b - b'0');
    }
    Some(value)
}

// The number that a field says; 0 where it is no number.
// Stays: a public function may not go, nor promise another number; `value_of` is what the reader asks.
#[tactic(auto, unfolding(timing::specs::Field::number_or_0, lists::specs::Choice::pick))]
pub fn number(f: &[u8]) -> u32
    ensures { result ≡ number_or_0 f.now }
{
    value_of(f).unwrap_or(0)
}

// The kind that a field's letter names.
#[tactic(auto, unfolding(timing::specs::Field::letter, lists::specs::Choice::pick))]
pub fn letter_of(f: &[u8]) -> Option<Kind>
    ensures { MatchOption result (letter f.now ≡ no_kind) (λ k. kind_number k ≡ letter f.now) }
{
    match f {
        [letter] => Kind::of_letter(*letter),
        _ => None,
    }
}

// Whether a field is `setup` or `hold`.
// Stays, and the next: two public functions, each with the definition of its name, which may not promise less.
#[tactic(auto, unfolding(timing::specs::Field::is_mode))]
pub fn is_mode(f: &[u8]) -> bool
    ensures { result ≡ is_mode f.now }
{
    alike(f, b"setup") || alike(f, b"hold")
}

// The mode that a field names: 1 for `hold`, else 0.
#[tactic(auto, unfolding(timing::specs::Field::mode_in, lists::specs::Choice::pick))]
pub fn mode_of(f: &[u8]) -> u32
    ensures { result ≡ mode_in f.now }
{
    u32::from(alike(f, b"hold"))
}

// ---- the fields of a line

// Field i of a line, the word being field 0; empty where there is none.
// Stays: with `split` and `nth` in place of the two searches the goal was left open; that the parts of a run are the definition's wants a law of its own.
#[tactic(auto, using(crate::proofs::Places::parts), unfolding(timing::specs::Line::field_of))]
pub fn field(l: &[u8], i: usize) -> &[u8]
    ensures { result.now ≡ field_of l.now i }
{
    let a = skip(l, TAB, i);
    let e = end_of(l, TAB, a);
    &l[a..e]
}

// How many fields a line has; an empty line has one.
#[tactic(auto, using(crate::proofs::Fields::split_count), unfolding(timing::specs::Line::field_count))]
pub fn field_count(l: &[u8]) -> usize
    ensures { result ≡ field_count l.now }
{
    count(l, TAB) + 1
}

// The number in field i of a line, if it is one.
#[tactic(auto, unfolding(timing::specs::Line::is_number, timing::specs::Line::number_in))]
fn number_in(l: &[u8], i: usize) -> Option<u32>
    ensures { MatchOption result (is_number l.now i ≡ false) (λ v. (is_number l.now i ≡ true) × (v ≡ number_in l.now i)) }
{
    value_of(field(l, i))
}

// The numbers in fields 1 to 4, if each is one.
#[tactic(auto, unfolding(timing::specs::Line::four_numbers, timing::specs::Line::four_of))]
fn four_numbers(l: &[u8]) -> Option<[u32; 4]>
    ensures { MatchOption result (four_numbers l.now ≡ false) (λ vs. (four_numbers l.now ≡ true) × (vs ≡ four_of l.now)) }
{
    let x = number_in(l, 1)?;
    let y = number_in(l, 2)?;
    let z = number_in(l, 3)?;
    let u = number_in(l, 4)?;
    Some([x, y, z, u])
}

// ---- what a line says, or what is wrong with it; n is its number
// Stays: a line and its number go beside each other, and each test has its refusal beside it, as the definitions of their grounds have it.

// An `arc` or a `test` line: the word and four numbers.
#[tactic(auto, unfolding(timing::specs::Line::four_line, timing::specs::Line::other_word, lists::specs::Choice::first_met))]
fn four_line(word: &[u8], l: &[u8], n: usize) -> Result<[u32; 4], Refusal>
    ensures { result ≡ told (first_met (four_line word.now l.now n)) (four_of l.now) }
{
    if !alike(field(l, 0), word) {
        return Err(Refusal::LineNotDue(n));
    }
    if field_count(l) != 5 {
        return Err(Refusal::FieldCount(n));
    }
    four_numbers(l).ok_or(Refusal::FieldForm(n))
}

// The sizes that the numbers of the first line are.
// Stays: a function, since how a line is written is the reader's own, and `From` would stand in `timing`.
fn sizes(numbers: [u32; 4]) -> Design
    ensures { result ≡ sizes_of numbers }
{
    let [pins, arcs, tests, _] = numbers;
    Design {
        pins: pins as usize,
        arcs: arcs as usize,
        tests: tests as usize,
    }
}

// The `design` line: the word, four numbers, and the sizes within their limits.
#[tactic(auto, using(crate::proofs::Grounds::design_late, crate::proofs::Grounds::design_early), unfolding(lists::specs::Choice::first_met, timing::specs::Line::four_of))]
fn design_line(l: &[u8], n: usize) -> Result<[u32; 4], Refusal>
    ensures { result ≡ told (first_met (design_line l.now n)) (four_of l.now) }
{
    let numbers = four_line(b"design", l, n)?;
    if !sizes(numbers).is_within() {
        return Err(Refusal::FieldForm(n));
    }
    Ok(numbers)
}

// A `pin` line: the word, the letter, then the count of fields, then the times. Of its four numbers the first three count: the kind, early and late.
#[tactic(auto, unfolding(timing::specs::Line::pin_line, timing::specs::Line::pin_of, timing::specs::Line::other_word, timing::specs::Line::line_kind, lists::specs::Choice::first_met, lists::specs::Choice::pick))]
fn pin_line(l: &[u8], n: usize) -> Result<[u32; 4], Refusal>
    ensures { result ≡ told (first_met (pin_line l.now n)) (pin_of l.now ++ (0 ∷ [])) }
{
    if !alike(field(l, 0), b"pin") {
        return Err(Refusal::LineNotDue(n));
    }
    let count = field_count(l);
    if count == 1 {
        return Err(Refusal::FieldCount(n));
    }
    let Some(kind) = letter_of(field(l, 1)) else {
        return Err(Refusal::FieldForm(n));
    };
    if !kind.has_times() {
        if count != 2 {
            return Err(Refusal::FieldCount(n));
        }
        return Ok([kind.number(), 0, 0, 0]);
    }
    if count != 4 {
        return Err(Refusal::FieldCount(n));
    }
    let early = number_in(l, 2).ok_or(Refusal::FieldForm(n))?;
    let late = number_in(l, 3).ok_or(Refusal::FieldForm(n))?;
    Ok([kind.number(), early, late, 0])
}

// What is asked.
#[derive(Clone, Copy)]
struct Asked {
    mode: u32,
    k: usize,
}

// The `ask` line: the word, the mode's word and k.
#[tactic(auto, unfolding(timing::specs::Line::ask_line, timing::specs::Line::other_word, lists::specs::Choice::first_met))]
fn ask_line(l: &[u8], n: usize) -> Result<Asked, Refusal>
    ensures { result ≡ told (first_met (ask_line l.now n)) (asked_in l.now) }
{
    if !alike(field(l, 0), b"ask") {
        return Err(Refusal::LineNotDue(n));
    }
    if field_count(l) != 3 {
        return Err(Refusal::FieldCount(n));
    }
    let mode = field(l, 1);
    if !is_mode(mode) {
        return Err(Refusal::FieldForm(n));
    }
    let k = number_in(l, 2).ok_or(Refusal::FieldForm(n))?;
    Ok(Asked {
        mode: mode_of(mode),
        k: k as usize,
    })
}

// The line due at i, counted from 0.
#[tactic(auto, unfolding(timing::specs::Text::due_line, timing::specs::Text::due_of, crate::specs::Scan::due_in, timing::specs::Line::pin_of, timing::specs::Line::four_of, lists::specs::Choice::pick))]
fn due_line(design: Design, i: usize, l: &[u8], n: usize) -> Result<[u32; 4], Refusal>
    ensures { MatchResult result
        (λ vs. (first_met (due_line design.pins design.arcs i l.now n) ≡ none) × (due_in design.pins i vs ≡ due_of design.pins i l.now))
        (λ r. first_met (due_line design.pins design.arcs i l.now n) ≡ some r) }
{
    if i < design.pins {
        pin_line(l, n)
    } else if i - design.pins < design.arcs {
        four_line(b"arc", l, n)
    } else {
        four_line(b"test", l, n)
    }
}

// ---- the lines of a text

// Line n, counted from 1, as the caller's own bytes without byte 10; outside the lines the empty part at the text's end.
pub fn line(text: &[u8], n: usize) -> &[u8]
    ensures { (result.now ≡ line_of text.now n) × ((result.ref_ptr.0 ≡ text.entry.ref_ptr.0) × (result.ref_ptr.1 ≡ line_start text.now n + text.entry.ref_ptr.1)) }
{
    let a = line_start(text, n);
    let e = end_of(text, LINE_END, a);
    &text[a..e]
}

// Where line n begins; outside the lines the end.
// Stays: docs/DECISIONS.md has `line` give the empty part at the end outside the lines, and this its place.
#[tactic(auto, using(crate::proofs::Lines::line_starts))]
pub fn line_start(text: &[u8], n: usize) -> usize
    ensures { (result ≡ line_start text.now n) × (result ≤ length text.now) }
{
    if n == 0 {
        return text.len();
    }
    skip(text, LINE_END, n - 1)
}

// The place of the line behind the one that begins at `at`; the end where there is none, and `at` itself beyond it.
// Stays: the end where there is none, since `next_line`, a public method that cannot fail, stands there then.
#[tactic(auto, unfolding(crate::specs::Cut::over, lists::specs::Choice::pick))]
pub fn next_at(text: &[u8], at: usize) -> usize
    ensures { result ≡ next_at 10 text.now at }
{
    if text.len() <= at {
        return at;
    }
    let e = end_of(text, LINE_END, at);
    if e < text.len() { e + 1 } else { e }
}

// What was taken from a text, and the place behind it.
#[derive(Clone, Copy)]
struct Taken<T> {
    value: T,
    next: usize,
}

// The reader over a text: the text itself and its place.
#[derive(Clone, Copy)]
pub struct Reader<'a> {
    pub text: &'a [u8],
    pub at: usize,
}

impl<'a> Reader<'a> {
    // A reader at a place of a text.
    pub fn open(text: &'a [u8], at: usize) -> Reader<'a>
        ensures { (result.text ≡ text.entry) × (result.at ≡ at) }
    {
        Reader { text, at }
    }

    // The reader at the next line; at the end where there is none.
    pub fn next_line(self) -> Reader<'a>
        ensures { (result.text ≡ self.entry.text) × (result.at ≡ next_at 10 self.entry.text.now self.entry.at) }
    {
        Reader::open(self.text, next_at(self.text, self.at))
    }

    // The reader's place.
    pub fn place(self) -> usize
        ensures { result ≡ self.entry.at }
    {
        self.at
    }

    // The line at the reader's place, without its byte 10, if it has one.
    fn whole_line(self) -> Option<Taken<&'a [u8]>>
        requires { self.at ≤ length self.text.now }
        ensures { let x = self.entry.text.now in let e = end_at 10 x self.entry.at in
            MatchOption result (length x ≤ e) (λ l. (e < length x) × ((l.value.now ≡ line_from x self.entry.at) × (l.next ≡ next_at 10 x self.entry.at))) }
    {
        let next = self.next_line().place();
        if self.at < next && self.text[next - 1] == LINE_END {
            let value = &self.text[self.at..next - 1];
            return Some(Taken { value, next });
        }
        None
    }
}

// ---- plain lines: a line due without a fault, taken by one scan of its bytes; any other goes field by field, which says what is wrong with it
// Stays: `number_at` takes a text and a place, and no reader: four numbers of a line would build four, and no line would be plainer.

// The digit that a byte is; a byte below `0` wraps round to far over 9.
fn digit_of(b: u8) -> Option<u32>
    ensures { MatchOption result (digit b ≡ false) (λ d. (d ≤ 9) × (b ≡ d + 48)) }
{
    let digit = u32::from(b).wrapping_sub(u32::from(b'0'));
    (digit <= 9).then_some(digit)
}

// The number at a, ended by the byte c, in a text that ends with byte 10. No digit follows a leading zero, nor a seventh digit.
// Stays: a loop that counts its place, which the caller wants; byte 10 ends it, so that no digit costs a test of the bound.
#[inline(always)]
fn number_at(s: &[u8], a: usize, c: u8) -> Option<Taken<u32>>
    requires { (a < length s.now) × (last_byte s.now ≡ 10) }
    ensures { IfSome result (λ t. NumberTo c s.now a t.next t.value) }
{
    let mut value = digit_of(s[a])?;
    let mut i = a + 1;
    while let Some(d) = digit_of(s[i]) {
        if value == 0 || SIX_DIGITS < value {
            return None;
        }
        value = value * 10 + d;
        i += 1;
    }
    if s[i] != c {
        return None;
    }
    Some(Taken { value, next: i + 1 })
}

impl Reader<'_> {
    // The place behind the word at the reader's place and the tab behind it, in a text that ends with byte 10.
    fn behind_word(self, word: &[u8]) -> Option<usize>
        requires { self.at ≤ length self.text.now }
        ensures { IfSome result (λ n. (n ≡ self.entry.at + length word.now + 1) × WordTo self.entry.text.now self.entry.at word.now) }
    {
        let Reader { text, at } = self;
        let n = text.len();
        if n - at <= word.len() {
            return None;
        }
        let e = at + word.len();
        if alike(&text[at..e], word) && text[e] == TAB && text[n - 1] == LINE_END {
            return Some(e + 1);
        }
        None
    }

    // The line at the reader's place, if it is the word and four numbers.
    fn four_at(self, word: &[u8]) -> Option<Taken<[u32; 4]>>
        requires { (self.at ≤ length self.text.now) × All InField word.now }
        ensures { IfSome result (λ d. PlainTo (four_line word.now) four_of self.entry.text.now self.entry.at d.next (all_four d.value)) }
    {
        let a = self.behind_word(word)?;
        let x = number_at(self.text, a, TAB)?;
        let y = number_at(self.text, x.next, TAB)?;
        let z = number_at(self.text, y.next, TAB)?;
        let u = number_at(self.text, z.next, LINE_END)?;
        let value = [x.value, y.value, z.value, u.value];
        Some(Taken {
            value,
            next: u.next,
        })
    }

    // The line at the reader's place, if it is a `pin` line.
    fn pin_at(self) -> Option<Taken<[u32; 4]>>
        requires { self.at ≤ length self.text.now }
        ensures { IfSome result (λ d. PlainTo pin_line pin_of self.entry.text.now self.entry.at d.next (three_of d.value)) }
    {
        let a = self.behind_word(b"pin")?;
        let kind = Kind::of_letter(self.text[a])?;
        let e = a + 1;
        let next = e + 1;
        if !kind.has_times() {
            if self.text[e] != LINE_END {
                return None;
            }
            let value = [kind.number(), 0, 0, 0];
            return Some(Taken { value, next });
        }
        if self.text[e] != TAB {
            return None;
        }
        let x = number_at(self.text, next, TAB)?;
        let y = number_at(self.text, x.next, LINE_END)?;
        let value = [kind.number(), x.value, y.value, 0];
        Some(Taken {
            value,
            next: y.next,
        })
    }

    // The line at the reader's place, if it is the one due at i, counted from 0.
    // Stays: the same choice as in `due_line`; an enum of the three kinds of line would be chosen by the same two tests and then matched twice.
    #[tactic(auto, unfolding(timing::specs::Text::due_line, timing::specs::Text::due_of, crate::specs::Scan::due_in, lists::specs::Choice::pick))]
    fn plain_at(self, design: Design, i: usize) -> Option<Taken<[u32; 4]>>
        requires { self.at ≤ length self.text.now }
        ensures { IfSome result (λ d. PlainTo (due_line design.pins design.arcs i) (due_of design.pins i) self.entry.text.now self.entry.at d.next (due_in design.pins i d.value)) }
    {
        if i < design.pins {
            self.pin_at()
        } else if i - design.pins < design.arcs {
            self.four_at(b"arc")
        } else {
            self.four_at(b"test")
        }
    }
}

// ---- the first pass: everything but the table's room

// The `design` line, which begins the text.
fn design_at(text: &[u8]) -> Result<Taken<[u32; 4]>, Refusal>
    ensures { MatchResult result
        (λ d. (first_met (line_grounds text.now 1 design_line) ≡ none) × ((d.next ≡ start_of 10 text.now 1) × (d.value ≡ four_of (line_of text.now 1))))
        (λ r. first_met (line_grounds text.now 1 design_line) ≡ some r) }
{
    let line = Reader::open(text, 0)
        .whole_line()
        .ok_or(Refusal::LineNotDue(1))?;
    let numbers = design_line(line.value, 1)?;
    Ok(Taken {
        value: numbers,
        next: line.next,
    })
}

// The line due at i, counted from 0, at which the reader stands.
fn due_at(reader: Reader, design: Design, i: usize) -> Result<Taken<[u32; 4]>, Refusal>
    requires here { reader.at ≡ start_of 10 reader.text.now (i + 1) }
    requires few { i < 100000000 }
    ensures { MatchResult result
        (λ d. DueTo reader.entry.text.now design.pins design.arcs i d)
        (λ r. first_met (due_at reader.entry.text.now design.pins design.arcs i) ≡ some r) }
{
    if let Some(due) = reader.plain_at(design, i) {
        return Ok(due);
    }
    let n = 2 + i;
    let line = reader.whole_line().ok_or(Refusal::LineNotDue(n))?;
    let numbers = due_line(design, i, line.value, n)?;
    Ok(Taken {
        value: numbers,
        next: line.next,
    })
}

// How many lines are due.
fn lines_due(design: Design) -> usize
    requires { (design.pins < 10000000) × ((design.arcs < 10000000) × (design.tests < 10000000)) }
    ensures { result ≡ design.pins + design.arcs + design.tests }
{
    design.pins + design.arcs + design.tests
}

// The n lines due, at whose first the reader stands; the place behind them.
// Stays: the walk of `fill` again, four lines long; with a closure for what is done at a line its clause would be longer than they are.
fn due_lines(mut reader: Reader, design: Design, n: usize) -> Result<usize, Refusal>
    requires here { reader.at ≡ start_of 10 reader.text.now 1 }
    requires few { n < 100000000 }
    ensures { result ≡ told (first_met (gather (due_at reader.entry.text.now design.pins design.arcs) (below n))) (start_of 10 reader.entry.text.now (n + 1)) }
{
    for i in 0..n {
        reader.at = due_at(reader, design, i)?.next;
    }
    Ok(reader.at)
}

// The `ask` line, line n, if bytes stand at the reader's place, where it begins; with none it is setup and 1.
fn ask_at(reader: Reader, n: usize) -> Result<Asked, Refusal>
    requires here { reader.at ≡ start_of 10 reader.text.now (n - 1) }
    requires counted { (1 ≤ n) × (n < 1000000000) }
    ensures { result ≡ told (first_met (ask_grounds reader.entry.text.now n)) (asked_at reader.entry.text.now n) }
{
    let end = reader.text.len();
    if reader.at == end {
        return Ok(Asked { mode: 0, k: 1 });
    }
    let line = reader.whole_line().ok_or(Refusal::LineNotDue(n))?;
    let asked = ask_line(line.value, n)?;
    if line.next < end {
        return Err(Refusal::LineNotDue(n + 1));
    }
    Ok(asked)
}

// What the first pass finds: the sizes and what is asked.
#[derive(Clone, Copy)]
struct Survey {
    design: Design,
    asked: Asked,
}

// Refusals 1 to 4, in the order of document 01.
fn first_pass(text: &[u8]) -> Result<Survey, Refusal>
    ensures { result ≡ survey_of text.now }
{
    if Design::TEXT < text.len() {
        return Err(Refusal::TextLong);
    }
    let first = design_at(text)?;
    let design = sizes(first.value);
    let n = lines_due(design);
    let at = due_lines(Reader::open(text, first.next), design, n)?;
    let asked = ask_at(Reader::open(text, at), 2 + n)?;
    Ok(Survey { design, asked })
}

// ---- the second pass: the table

// The numbers of the line due at i, written at w and behind it: three of a pin, else four; the place behind them.
// Stays: a pin's numbers have a 0 behind them, and i tells a pin, as it does in `due_in`; in an enum of three or four numbers both would be said twice.
// Stays: single stores, since a copy of three or four numbers is no plainer: its length would be chosen first, and its slices cut.
#[tactic(auto, unfolding(crate::specs::Scan::due_in, lists::specs::Laws::Write::sets, lists::specs::Choice::pick))]
fn put_due(table: &mut [u32], w: usize, numbers: [u32; 4], p: usize, i: usize) -> usize
    requires { w + length (due_in p i numbers) ≤ length table.old }
    ensures { (table.new ≡ sets table.old w (due_in p i numbers)) × (result ≡ w + length (due_in p i numbers)) }
{
    let x = w + 1;
    let y = x + 1;
    let z = y + 1;
    table[w] = numbers[0];
    table[x] = numbers[1];
    table[y] = numbers[2];
    if i < p {
        return z;
    }
    table[z] = numbers[3];
    z + 1
}

// The numbers of the first line and of the lines due. The first pass has refused none of them, and so none is refused here.
fn fill(text: &[u8], table: &mut [u32], design: Design) -> Result<(), Refusal>
    requires clean { Clean text.now design }
    requires room { 4 + 3 * design.pins + 4 * design.arcs + 4 * design.tests ≤ length table.old }
    ensures { (result ≡ Ok tt) × (table.new ≡ sets table.old 0 (table_to text.now design.pins (design.pins + design.arcs + design.tests))) }
{
    let first = design_at(text)?;
    let mut w = put_due(table, 0, first.value, 0, 0);
    let mut reader = Reader::open(text, first.next);
    for i in 0..lines_due(design) {
        let due = due_at(reader, design, i)?;
        w = put_due(table, w, due.value, design.pins, i);
        reader.at = due.next;
    }
    Ok(())
}

// Reads a text: refused, with the room as it was, or the table's length, the mode and k, with the table at the room's front.
// Nothing is written before the last line and the room are accepted.
pub fn read(text: &[u8], table: &mut [u32]) -> Result<Reading, Refusal>
    ensures { ReadAllows text.now table.old result table.new }
{
    let Survey { design, asked } = first_pass(text)?;
    let length = design.table_length();
    if table.len() < length {
        return Err(Refusal::TableRoom);
    }
    fill(text, table, design)?;
    Ok(Reading {
        length,
        mode: asked.mode,
        k: asked.k,
    })
}
