// The program: reads a text on standard input and prints the worst paths of its design, or why it is refused.
#![tactic(auto)]

ghost use Rattle.std.specs.Prelude.{◌≡◌, ◌≤◌, length, IfOk};
ghost use Rattle.lists.specs.Laws.Write.{sets};
ghost use Rattle.timing.specs.Limits.{work_length};
ghost use Rattle.timing.specs.Printed.{table_room, row_room, printed_table, printed};
ghost use Rattle.printing.specs.Put.{counted};

use std::io;
use std::io::{Print, Read, Stdin, Stdout};
use timing::{Design, Reading};

// One byte more than a text may have, so that a longer one is seen.
const TEXT: usize = Design::TEXT + 1;

// The longest table: its header, its pins, its arcs and its tests.
// Stays: written out, since a constant may call no function, so not `Design::table_length`.
const TABLE: usize = 4 + 3 * Design::PINS + 4 * Design::ARCS + 4 * Design::TESTS;

// The most rows of the most arcs, each with the numbers before its arcs.
const ROOM: usize = Design::K * (Design::PINS + Design::HEAD);

// 8 bytes for each arc of the most rows. The longest answer is far shorter.
const OUT: usize = 8 * Design::K * Design::PINS;

// The bytes to print for a text, at the front of `out`, as many as fit; answers how many they are. They are a function of the text alone.
fn answer(
    text: &[u8],
    table: &mut [u32],
    room: &mut [i64],
    work: &mut [u64],
    out: &mut [u8],
) -> usize
    requires { (length table.old ≡ table_room) × ((length room.old ≡ row_room) × (length work.old ≡ work_length)) }
    ensures { (result ≡ counted (length (printed text.now))) × (out.new ≡ sets out.old 0 (printed text.now)) }
{
    match reader::read(text, table) {
        Ok(Reading { length, mode, k }) => asked(&table[..length], mode, k, room, work, out),
        Err(refusal) => printing::print(Err(refusal), 0, room, out),
    }
}

// The same for a table, a mode and k.
// Stays: the lent buffers go beside each other, as `answer` takes them, whose parameters may not change.
fn asked(
    table: &[u32],
    mode: u32,
    k: usize,
    room: &mut [i64],
    work: &mut [u64],
    out: &mut [u8],
) -> usize
    requires { (length room.old ≡ row_room) × (length work.old ≡ work_length) }
    ensures { (result ≡ counted (length (printed_table table.now mode k))) × (out.new ≡ sets out.old 0 (printed_table table.now mode k)) }
{
    let given = report::ask(table, mode, k, room, work);
    printing::print(given, tables::pin_count(table), room, out)
}

// Prints what a text is answered. Where a write fails, nothing more is written.
fn run(text: &[u8], stdout: &Stdout) {
    let mut table = [0; TABLE];
    let mut room = [0; ROOM];
    let mut work = [0; Design::WORK];
    let mut out = [0; OUT];
    let n = answer(text, &mut table, &mut room, &mut work, &mut out);
    let _ = stdout.write_all(&out[..n.min(OUT)]);
}

// Reads standard input into the text until it is full or the input ends; answers how many bytes that are.
fn read_text(stdin: &mut Stdin, text: &mut [u8]) -> io::Result<usize>
    ensures { IfOk result (λ n. n ≤ length text.old) }
{
    let mut done = 0;
    while done < text.len() {
        let n = stdin.read(&mut text[done..])?;
        if n == 0 {
            break;
        }
        done += n;
    }
    Ok(done)
}

// A read that fails ends the program with nothing printed: a part of a text is no text.
fn main(rt: HostRuntime) {
    let mut text = [0; TEXT];
    if let Ok(n) = read_text(&mut rt.stdin(), &mut text) {
        run(&text[..n], &rt.stdout());
    }
}
