// Replays recorded answers of gamma through the exported calls, and prints how many of them agree. The files `data/rising`
// and `data/other` have one input to a line and what gamma said of it; README.md says how, and what agrees. The file `stdout`
// beside `src/` is counted from them, and not from a run of this program.
#![tactic(auto)]

use printing::{field, write};
use samples::{ALL, front, is_told, long_at, number_from, put_pair, sheet_length};
use std::alloc::Global;
use std::fs::File;
use std::io;
use std::io::{BufWriter, Read, Write};
use std::rt::Files;
use wisharek::{wisharek_check, wisharek_improve};
use words::{put_word, word_at};

// The most bytes of a file, and one more.
const BYTES: usize = 65536;

// The most routes of a sheet.
const MOST: usize = 64;

// Room for the bytes of a sheet.
const SHEET: usize = 16384;

// Room for the bytes of a pairing.
const PAIRING: usize = 256;

// What comes of a line.
#[derive(Clone, Copy)]
enum Outcome {
    // refused alike
    Refused,
    // the same pairs
    Pairs,
    // as many pairs
    Size,
    // something else
    Different,
}

// How many lines came to each outcome.
#[derive(Clone, Copy, Default)]
struct Counted {
    refused: u64,
    pairs: u64,
    size: u64,
    different: u64,
}

impl Counted {
    // One line more of an outcome.
    fn add(&mut self, outcome: Outcome) {
        let count = match outcome {
            Outcome::Refused => &mut self.refused,
            Outcome::Pairs => &mut self.pairs,
            Outcome::Size => &mut self.size,
            Outcome::Different => &mut self.different,
        };
        *count = count.saturating_add(1);
    }
}

// The numbers of a line, read one after the other.
#[derive(Drop)]
struct Numbers<'a> {
    line: &'a [u8],
    at: usize,
}

impl<'a> Numbers<'a> {
    // Those of the line, from its start on.
    fn of(line: &'a [u8]) -> Numbers<'a> {
        Numbers { line, at: 0 }
    }

    // The next one; none behind the last.
    fn read(&mut self) -> u32 {
        let number = number_from(self.line, self.at);
        self.at = number.next;
        number.x
    }
}

// So many numbers of a line, put as words of the sheet from a word on.
fn copy(numbers: &mut Numbers<'_>, sheet: &mut [u8; SHEET], word: u32, count: u32) {
    for k in 0..count {
        put_word(sheet, word as usize + k as usize, numbers.read());
    }
}

// The n + 1 starts and as many entries as the last of them says, behind n.
fn put_rows(numbers: &mut Numbers<'_>, sheet: &mut [u8; SHEET], n: u32) {
    if n as usize <= MOST {
        copy(numbers, sheet, 1, n + 1);
        let total = word_at(sheet, n as usize + 1);
        copy(numbers, sheet, n + 2, total);
    }
}

// The sheet that a line begins with.
fn put_sheet(numbers: &mut Numbers<'_>, sheet: &mut [u8; SHEET]) {
    let n = numbers.read();
    put_word(sheet, 0, n);
    put_rows(numbers, sheet, n);
}

// The pairs of the start, which say first how many they are.
fn put_start(numbers: &mut Numbers<'_>, pairing: &mut [u8; PAIRING]) {
    for _ in 0..numbers.read() {
        let v = numbers.read();
        let w = numbers.read();
        put_pair(pairing, v, w);
    }
}

// The length of the sheet that these bytes begin with.
fn length_of(sheet: &[u8]) -> usize {
    let n = word_at(sheet, 0);
    sheet_length(n, word_at(sheet, n as usize + 1))
}

// Whether number k of an answer is what gamma said.
fn same(answer: &[u8], k: u32, said: u32) -> bool {
    long_at(answer, k) == u64::from(said)
}

// Whether an answer is the refusal that comes next: number, A and B.
fn same_refusal(numbers: &mut Numbers<'_>, answer: &[u8]) -> bool {
    let no = numbers.read();
    let a = numbers.read();
    let b = numbers.read();
    same(answer, 0, no) && same(answer, 1, a) && same(answer, 2, b)
}

// Whether a pairing has so many pairs that come next.
fn has_pairs(numbers: &mut Numbers<'_>, count: u32, pairing: &[u8]) -> bool {
    for _ in 0..count {
        let v = numbers.read();
        let w = numbers.read();
        if word_at(pairing, v as usize) != w {
            return false;
        }
    }
    true
}

// Whether the pairing is shown to be maximum.
fn accepted(sheet: &[u8], pairing: &[u8], witness: &[u8]) -> bool {
    let mut answer = [0u8; 24];
    wisharek_check(sheet, pairing, witness, &mut answer) == 0
}

// Whether an answer says that it is accepted and finished.
fn finished(answer: &[u8]) -> bool {
    long_at(answer, 0) == 0 && long_at(answer, 5) == 1
}

// What comes of a line whose size or pairs come next.
fn compare_pairs(numbers: &mut Numbers<'_>, pairing: &[u8], answer: &[u8]) -> Outcome {
    let exact = numbers.read() != 0;
    let size = numbers.read();
    if !finished(answer) || !same(answer, 4, size) {
        return Outcome::Different;
    }
    if !exact {
        return Outcome::Size;
    }
    if has_pairs(numbers, size, pairing) {
        return Outcome::Pairs;
    }
    Outcome::Different
}

// What comes of a line whose answer comes next.
fn compare(
    numbers: &mut Numbers<'_>,
    sheet: &[u8],
    pairing: &[u8],
    witness: &[u8],
    answer: &[u8],
) -> Outcome {
    if numbers.read() == 1 {
        if same_refusal(numbers, answer) {
            return Outcome::Refused;
        }
        return Outcome::Different;
    }
    if !accepted(sheet, pairing, witness) {
        return Outcome::Different;
    }
    compare_pairs(numbers, pairing, answer)
}

// Improves the pairing without limit, and compares.
fn improve(
    numbers: &mut Numbers<'_>,
    sheet: &[u8],
    pairing: &mut [u8],
    witness: &mut [u8],
) -> Outcome {
    let mut answer = [0u8; 56];
    wisharek_improve(sheet, pairing, witness, ALL, &mut answer);
    compare(numbers, sheet, pairing, witness, &answer)
}

// The same of a sheet in a larger buffer, with the buffers of its routes.
fn fitted(numbers: &mut Numbers<'_>, sheet: &[u8], pairing: &mut [u8]) -> Outcome {
    let mut witness = [0u8; MOST];
    let n = word_at(sheet, 0) as usize;
    if MOST < n || pairing.len() < 4 * n {
        return Outcome::Different;
    }
    improve(
        numbers,
        front(sheet, length_of(sheet)),
        &mut pairing[..4 * n],
        &mut witness[..n],
    )
}

// What comes of a line; nothing of one that is empty or begins with #.
fn replay_line(line: &[u8]) -> Option<Outcome> {
    if !is_told(line) {
        return None;
    }
    let mut sheet = [0u8; SHEET];
    let mut pairing = [255u8; PAIRING];
    let mut numbers = Numbers::of(line);
    put_sheet(&mut numbers, &mut sheet);
    put_start(&mut numbers, &mut pairing);
    Some(fitted(&mut numbers, &sheet, &mut pairing))
}

// What comes of all lines.
fn replay(text: &[u8]) -> Counted {
    let mut counted = Counted::default();
    for line in text.split(|b| *b == b'\n') {
        if let Some(outcome) = replay_line(line) {
            counted.add(outcome);
        }
    }
    counted
}

// Writes what was counted.
fn put_counts<W: Write>(out: &mut W, counted: &Counted) -> io::Result<()> {
    field(out, b" ", counted.refused)?;
    field(out, b" refused alike, ", counted.pairs)?;
    field(out, b" with the same pairs, ", counted.size)?;
    field(out, b" with as many pairs, ", counted.different)?;
    write(out, b" differences\n")
}

// Replays the bytes that were read.
fn replay_bytes<W: Write>(out: &mut W, path: &str, text: &[u8]) -> io::Result<()> {
    if BYTES <= text.len() {
        return write(out, b"the file is too long\n");
    }
    write(out, path.as_bytes())?;
    write(out, b":")?;
    put_counts(out, &replay(text))
}

// Replays what an open file holds.
fn replay_open<R: Read + Drop, W: Write>(
    alloc: Global,
    out: &mut W,
    path: &str,
    file: R,
) -> io::Result<()> {
    let mut text = Vec::new(alloc);
    file.take(BYTES as u64).read_to_end(&mut text)?;
    replay_bytes(out, path, &text)
}

// One file. Where it does not open, that is told on standard error after what was written before, and the program goes on.
fn replay_file<R: Files + Eprint + AllocGlobal, W: Write>(
    rt: &R,
    out: &mut W,
    path: &str,
) -> io::Result<()> {
    match File::open(rt, path) {
        Ok(file) => replay_open(rt.alloc(), out, path, file),
        Err(e) => {
            out.flush()?;
            eprintln!(rt; "{path}: {e}")
        }
    }
}

fn main(rt: HostRuntime) -> io::Result<()> {
    let mut out = BufWriter::new(rt.alloc(), io::writer(&rt))?;
    replay_file(&rt, &mut out, "rising")?;
    replay_file(&rt, &mut out, "other")?;
    out.flush()
}
