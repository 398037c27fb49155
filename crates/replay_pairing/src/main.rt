// Replays recorded answers of gamma's `Pairing` through the proved operations, and prints how many of them agree. The
// file `data/sample` has one operation to a line, what gamma answered, and the order and the pairs that it left;
// README.md says how it was made. Each line begins with an operation in the form that `drive` reads. The file `stdout`
// beside `src/` is counted from the sample, and not from a run of this program.
#![tactic(auto)]

use asked::{Kind, Reply, reply_to};
use lent::{Operation, Operations, number_at};
use pairing::{Edge, Pairing};
use samples::with_digit;
use std::alloc::Global;
use std::fs::File;
use std::io;
use std::io::{BufWriter, Read, Write};

// The most bytes of the sample, and one more.
const BYTES: usize = 131072;

// Room for the sample's numbers: each of them takes a digit, and a byte that parts it from the next.
const NUMBERS: usize = BYTES / 2;

// The operations, in the order of their codes.
const NAMES: [&str; 6] = ["order", "has_node", "pair", "edges", "augment", "mate"];

// What gamma said of an operation.
#[derive(Clone, Copy)]
enum Said {
    Answered(u32),
    Panicked,
}

// A line of the sample: an operation, what gamma said of it, and the order and the pairs that it left.
#[derive(Clone, Copy)]
struct Line<'a> {
    operation: Operation<'a>,
    said: Said,
    order: u32,
    pairs: &'a [u32],
}

// How often an operation was answered and how often refused, where both agree.
#[derive(Clone, Copy)]
struct Tally {
    answered: u64,
    refused: u64,
}

// What is counted: the operations of each kind that agree, how many lines there are, and how many of them differ.
#[derive(Clone, Copy)]
struct Counted {
    tallies: [Tally; 6],
    lines: u64,
    differences: u64,
}

// The numbers of a text, in order, in the room that is lent: what is no digit parts them, and a comment runs from # to the end
// of its line. Digits that the text ends with are passed over, since nothing says that their number ends there.
fn numbers_of<'a>(text: &[u8], room: &'a mut [u32; NUMBERS]) -> &'a [u32] {
    let mut count = 0;
    let whole = text.rsplitn(2, |b| !b.is_ascii_digit()).nth(1);
    for line in whole.unwrap_or(&[]).split(|b| *b == b'\n') {
        let told = line.split(|b| *b == b'#').next().unwrap_or(line);
        for word in told.split(|b| !b.is_ascii_digit()) {
            if !word.is_empty() && count < NUMBERS {
                room[count] = word.iter().fold(0, |x, digit| with_digit(x, *digit));
                count += 1;
            }
        }
    }
    room.get(..count).unwrap_or_default()
}

// The first of some numbers, as many as are there, and those behind them.
fn parted(numbers: &[u32], many: usize) -> (&[u32], &[u32]) {
    numbers.split_at_checked(many).unwrap_or((numbers, &[]))
}

// The line that these numbers begin with, and those behind it; a number that is not there is none.
fn first_line(numbers: &[u32]) -> Option<(Line<'_>, &[u32])> {
    let operation = Operations::new(numbers).next()?;
    let (_, answer) = parted(numbers, 2 + operation.ids.len());
    let (_, behind) = parted(answer, 3);
    let order = number_at(answer, 2);
    let (pairs, rest) = parted(behind, order as usize);
    let said = match number_at(answer, 0) {
        0 => Said::Answered(number_at(answer, 1)),
        _ => Said::Panicked,
    };
    let line = Line {
        operation,
        said,
        order,
        pairs,
    };
    Some((line, rest))
}

// Whether pairs are those that stand in a line, two numbers each.
fn same_edges(edges: &[Edge], pairs: &[u32]) -> bool {
    let (pairs, rest) = pairs.as_chunks::<2>();
    rest.is_empty()
        && edges.len() == pairs.len()
        && edges.iter().zip(pairs).all(|(edge, pair)| edge.lower == pair[0]
            && edge.upper == pair[1])
}

impl Line<'_> {
    // Whether a reply is what gamma said: the value, or the refusal that stands for its panic.
    fn is_answer(&self, reply: Reply) -> bool {
        match (self.said, Kind::try_from(self.operation.code)) {
            (Said::Answered(value), _) => reply.told.no == 0 && reply.value == u64::from(value),
            (Said::Panicked, Ok(Kind::Augment)) => reply.told.no == 13,
            (Said::Panicked, Ok(Kind::Mate)) => reply.told.no == 16,
            (Said::Panicked, _) => false,
        }
    }

    // Whether a pairing has the order and the pairs that gamma had then.
    fn is_left(&self, p: Pairing) -> bool {
        match (p.order(), p.edges()) {
            (Ok(order), Ok(edges)) => {
                order == self.order && same_edges(edges.as_slice(), self.pairs)
            }
            _ => false,
        }
    }
}

impl Counted {
    // Nothing counted yet.
    fn new() -> Self {
        Counted {
            tallies: [Tally {
                answered: 0,
                refused: 0,
            }; 6],
            lines: 0,
            differences: 0,
        }
    }

    // A line that agrees.
    fn agrees(&mut self, line: &Line) {
        if let Some(tally) = self.tallies.get_mut(line.operation.code as usize) {
            match line.said {
                Said::Answered(_) => tally.answered = tally.answered.saturating_add(1),
                Said::Panicked => tally.refused = tally.refused.saturating_add(1),
            }
        }
    }

    // A line that differs.
    fn differs(&mut self) {
        self.differences = self.differences.saturating_add(1);
    }

    // A line replayed on the pairing that the lines before it left. The pairing that it leaves comes out.
    fn replay(&mut self, p: Pairing, line: &Line) -> Pairing {
        self.lines = self.lines.saturating_add(1);
        let reply = reply_to(p, line.operation.code, line.operation.ids);
        if line.is_answer(reply) && line.is_left(reply.pairing) {
            self.agrees(line);
        } else {
            self.differs();
        }
        reply.pairing
    }

    // Writes what was counted.
    fn report<W: Write>(&self, out: &mut W) -> io::Result<()> {
        for (name, tally) in NAMES.iter().zip(self.tallies.iter()) {
            writeln!(
                out,
                "{name}: {} answered, {} refused",
                tally.answered, tally.refused
            )?;
        }
        writeln!(out, "operations: {}", self.lines)?;
        writeln!(out, "differences: {}", self.differences)
    }
}

// All lines that these numbers are, in turn, from a fresh pairing. A line takes a number at least.
fn replay_all(numbers: &[u32]) -> Counted {
    let mut counted = Counted::new();
    let mut pairing = Pairing::new();
    let mut rest = numbers;
    for _ in 0..numbers.len() {
        let Some((line, behind)) = first_line(rest) else {
            return counted;
        };
        pairing = counted.replay(pairing, &line);
        rest = behind;
    }
    counted
}

// Replays what a file holds.
fn replay_file<R: Read + Drop, W: Write>(alloc: Global, out: &mut W, file: R) -> io::Result<()> {
    let mut text = Vec::new(alloc);
    file.take(BYTES as u64).read_to_end(&mut text)?;
    if BYTES <= text.len() {
        return writeln!(out, "the sample is too long");
    }
    let mut room = [0; NUMBERS];
    replay_all(numbers_of(&text, &mut room)).report(out)
}

// Where the file does not open, that is told on standard error.
fn main(rt: HostRuntime) -> io::Result<()> {
    let path = "sample";
    let file = match File::open(&rt, path) {
        Ok(file) => file,
        Err(e) => return eprintln!(rt; "{path}: {e}"),
    };
    let mut out = BufWriter::new(rt.alloc(), io::writer(&rt))?;
    replay_file(rt.alloc(), &mut out, file)?;
    out.flush()
}
