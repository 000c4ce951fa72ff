// From the answer of an asking, with the rows in its room, to the bytes that `toppaths` prints.
//
// `Out` takes bytes one behind the other into the lent bytes, as many as fit, and counts them all (`Puts`). So a line is made of its
// parts, and nothing here can fail: not for lent bytes that are too few, nor for a room that no asking filled.
#![tactic(auto)]

ghost use Rattle.std.specs.Prelude.{◌≡◌, [], ◌∷◌, length, pos};
ghost use Rattle.lists.specs.Parts.{gather};
ghost use Rattle.lists.specs.Laws.Write.{sets};
ghost use Rattle.timing.specs.Field.{bytes};
ghost use Rattle.timing.specs.Rows.{row_length};
ghost use Rattle.timing.specs.Printed.{tab, printed_line, row_arcs, row_numbers, row_lines};
ghost use Rattle.printing.specs.Room.{room_rows, printed_room};
ghost use Rattle.printing.specs.Put.{counted};
ghost use Rattle.printing.specs.Out.{Puts};

use itoa::{Buffer, Integer};
use timing::{Answer, Design, Refusal};

// Lent bytes, and how many bytes have been put: the place of the next, where there is one.
#[derive(Drop)]
struct Out<'a> {
    bytes: &'a mut [u8],
    at: usize,
}

impl Out<'_> {
    // One byte.
    fn byte(&mut self, byte: u8)
        ensures { Puts (byte ∷ []) self.old self.new }
    {
        if self.at < self.bytes.len() {
            self.bytes[self.at] = byte;
        }
        self.at = self.at.saturating_add(1);
    }

    // The bytes of a word, in order.
    fn word(&mut self, word: &[u8])
        ensures { Puts word.now self.old self.new }
    {
        for byte in word {
            self.byte(*byte);
        }
    }

    // A tab and a number.
    fn number<I: Integer>(&mut self, x: I)
        ensures { Puts (9 ∷ I.text x) self.old self.new }
    {
        self.byte(b'\t');
        let mut digits = Buffer::new();
        let text = digits.format(x).as_bytes();
        self.word(text);
    }

    // A tab and a number, for each number.
    fn numbers(&mut self, numbers: &[i64])
        ensures { Puts (gather tab numbers.now) self.old self.new }
    {
        for x in numbers {
            self.number(*x);
        }
    }

    // A line of a word and two numbers.
    fn pair(&mut self, word: &[u8], a: u64, b: u64)
        ensures { Puts (printed_line word.now (pos a ∷ pos b ∷ [])) self.old self.new }
    {
        self.word(word);
        self.number(a);
        self.number(b);
        self.byte(b'\n');
    }

    // The line of the row of a rank. Of its numbers before the arcs, the last, how many arcs there are, is not printed.
    fn row(&mut self, rank: usize, row: &[i64])
        ensures { Puts (printed_line (bytes "path") (row_numbers rank row.now)) self.old self.new }
    {
        self.word(b"path");
        self.number(rank);
        self.numbers(&row[..row.len().min(Design::HEAD - 1)]);
        self.numbers(arcs(row));
        self.byte(b'\n');
    }

    // The lines of the first rows of a room, from rank 1 on.
    fn rows(&mut self, rows: usize, pins: usize, room: &[i64])
        ensures { Puts (row_lines 1 (room_rows rows (row_length pins) room.now)) self.old self.new }
    {
        let size = pins.saturating_add(Design::HEAD);
        let mut rest = room;
        for rank in 0..rows {
            let (row, behind) = rest.split_at(size.min(rest.len()));
            self.row(rank + 1, row);
            rest = behind;
        }
    }

    // The lines of an answer, with the rows in its room: the rows and the last line, or the line of the refusal.
    fn answer(&mut self, answer: Result<Answer, Refusal>, pins: usize, room: &[i64])
        ensures { Puts (printed_room answer pins room.now) self.old self.new }
    {
        match answer {
            Ok(Answer { rows, total }) => {
                self.rows(rows, pins, room);
                self.pair(b"end", rows as u64, total);
            }
            Err(r) => self.pair(b"refused", u64::from(r.number()), r.place() as u64),
        }
    }
}

// The arcs of a row: as many as its arc count says, of those that are there.
fn arcs(row: &[i64]) -> &[i64]
    ensures { result.now ≡ row_arcs row.now }
{
    let [_, _, _, _, count, arcs @ ..] = row else {
        return &[];
    };
    let count = lists::above(*count) as usize;
    &arcs[..count.min(arcs.len())]
}

// Prints an answer, with the rows in its room, into `out`, as much as fits; answers how many bytes the whole is.
pub fn print(answer: Result<Answer, Refusal>, pins: usize, room: &[i64], out: &mut [u8]) -> usize
    ensures { (result ≡ counted (length (printed_room answer pins room.now)))
        × (out.new ≡ sets out.old 0 (printed_room answer pins room.now)) }
{
    let mut out = Out { bytes: out, at: 0 };
    out.answer(answer, pins, room);
    out.at
}
