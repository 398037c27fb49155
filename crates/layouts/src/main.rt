// Runs the layouts of the scope through the exported calls, and prints a line for each: what is lent, the entry total that
// the sheet says, then what `wisharek_improve` answers, the unpaired routes counted from the bytes that it left, and what
// `wisharek_check` says of them. A reply is number, A and B. The file `stdin` beside `src/` has the sheets that are improved
// from nothing and once, one to a line; the claw and the ten routes are made here. The file `stdout` is written from the scope
// and the table of refusals, and not from a run of this program.
#![tactic(auto)]

use limits::{NONE, ROUTES};
use printing::{field, write};
use samples::{
    ALL, LARGE, SMALL, front, is_told, long_at, number_from, put_all, put_numbers, put_pair,
    put_ten, put_words, sheet_length, small,
};
use std::io;
use std::io::{BufWriter, Read, Write};
use wisharek::{wisharek_check, wisharek_improve};
use words::{put_word, word_at};

// The most bytes that are read: the sheets' lines.
const BYTES: u64 = 65536;

// Room for a set of one route more than the most.
const WITNESS: usize = ROUTES + 1;

// Room for their partners.
const PAIRING: usize = 4 * WITNESS;

// The bytes of a pairing of ten routes.
const TEN: usize = 40;

// Writes number k of an answer with its name before it.
fn told<W: Write>(out: &mut W, name: &[u8], answer: &[u8], k: u32) -> io::Result<()> {
    field(out, name, long_at(answer, k))
}

// Writes number, A and B of an answer.
fn reply<W: Write>(out: &mut W, name: &[u8], answer: &[u8]) -> io::Result<()> {
    told(out, name, answer, 0)?;
    told(out, b" ", answer, 1)?;
    told(out, b" ", answer, 2)
}

// Writes the numbers that improve answers.
fn improved<W: Write>(out: &mut W, answer: &[u8]) -> io::Result<()> {
    reply(out, b" improve ", answer)?;
    told(out, b", added ", answer, 3)?;
    told(out, b", size ", answer, 4)?;
    told(out, b", finished ", answer, 5)?;
    told(out, b", sessions ", answer, 6)
}

// Writes the entry total, where the sheet is long enough to say one.
fn entries<W: Write>(out: &mut W, s: &[u8]) -> io::Result<()> {
    write(out, b":")?;
    let k = word_at(s, 0) as usize + 1;
    if k < s.len() / 4 {
        field(out, b" entries ", u64::from(word_at(s, k)))?;
        write(out, b",")?;
    }
    Ok(())
}

// How many routes have no partner.
fn unpaired(pairing: &[u8]) -> u64 {
    (0..pairing.len() / 4)
        .filter(|v| word_at(pairing, *v) == NONE)
        .count() as u64
}

// Improves the pairing, and writes what is answered.
fn improve<W: Write>(
    out: &mut W,
    s: &[u8],
    pairing: &mut [u8],
    witness: &mut [u8],
    budget: u32,
) -> io::Result<()> {
    let mut answer = [0u8; 56];
    wisharek_improve(s, pairing, witness, budget, &mut answer);
    improved(out, &answer)
}

// Checks the pairing by the witness, and writes what is answered.
fn check<W: Write>(out: &mut W, s: &[u8], pairing: &[u8], witness: &[u8]) -> io::Result<()> {
    let mut answer = [0u8; 24];
    wisharek_check(s, pairing, witness, &mut answer);
    reply(out, b", check ", &answer)
}

// Writes what improve left, and the end of the line.
fn left<W: Write>(out: &mut W, s: &[u8], pairing: &[u8], witness: &[u8]) -> io::Result<()> {
    field(out, b", unpaired ", unpaired(pairing))?;
    check(out, s, pairing, witness)?;
    write(out, b"\n")
}

// The line of a layout.
fn line<W: Write>(
    out: &mut W,
    label: &[u8],
    s: &[u8],
    pairing: &mut [u8],
    witness: &mut [u8],
    budget: u32,
) -> io::Result<()> {
    write(out, label)?;
    field(out, b", budget ", u64::from(budget))?;
    entries(out, s)?;
    improve(out, s, pairing, witness, budget)?;
    left(out, s, pairing, witness)
}

// The line of a layout of n routes from nothing, without limit.
fn from_nothing<W: Write>(out: &mut W, label: &[u8], s: &[u8], n: usize) -> io::Result<()> {
    let mut pairing = [255u8; PAIRING];
    let mut witness = [0u8; WITNESS];
    if WITNESS < n {
        return Ok(());
    }
    line(out, label, s, &mut pairing[..4 * n], &mut witness[..n], ALL)
}

// The line of the sheet that ends after so many bytes, from nothing, with the buffers of the routes that it says first.
fn from_sheet<W: Write>(
    out: &mut W,
    label: &[u8],
    s: &[u8; LARGE],
    bytes: usize,
) -> io::Result<()> {
    from_nothing(out, label, front(s, bytes), word_at(s, 0) as usize)
}

// The line of the sheet whose length in bytes and first numbers stand from a place on.
fn given<W: Write>(out: &mut W, line: &[u8], at: usize) -> io::Result<()> {
    let mut s = [0u8; LARGE];
    let bytes = number_from(line, at);
    put_numbers(&mut s, line, bytes.next);
    from_sheet(out, front(line, at), &s, bytes.x as usize)
}

// The line of the sheet in which all of n routes are joined, by n and its total, which stand from a place on.
fn joined<W: Write>(out: &mut W, line: &[u8], at: usize) -> io::Result<()> {
    let mut s = [0u8; LARGE];
    let n = number_from(line, at);
    let total = number_from(line, n.next);
    put_all(&mut s, n.x);
    from_sheet(out, front(line, at), &s, sheet_length(n.x, total.x))
}

// The line of a sheet that `stdin` has.
fn case<W: Write>(out: &mut W, line: &[u8]) -> io::Result<()> {
    if let Some(colon) = line.iter().position(|b| *b == b':') {
        return given(out, line, colon);
    }
    let semicolon = line.iter().position(|b| *b == b';');
    joined(out, line, semicolon.unwrap_or(line.len()))
}

// All these sheets, in turn.
fn cases<W: Write>(out: &mut W, text: &[u8]) -> io::Result<()> {
    for line in text.split(|b| *b == b'\n') {
        if is_told(line) {
            case(out, line)?;
        }
    }
    Ok(())
}

// The line of the claw: 0 joined to 1, 2, 3.
fn claw<W: Write>(
    out: &mut W,
    label: &[u8],
    pairing: &mut [u8],
    witness: &mut [u8],
    budget: u32,
) -> io::Result<()> {
    let mut s = [0u8; SMALL];
    put_words(&mut s, 0, &[4, 0, 3, 4, 5, 6, 1, 2, 3, 0, 0, 0]);
    line(out, label, small(&s, 48), pairing, witness, budget)
}

// Three calls in a row on the same buffers.
fn claws<W: Write>(out: &mut W) -> io::Result<()> {
    let mut pairing = [255u8; 16];
    let mut witness = [0u8; 4];
    claw(out, b"claw from nothing", &mut pairing, &mut witness, 0)?;
    claw(out, b"claw then", &mut pairing, &mut witness, 1)?;
    claw(out, b"claw again", &mut pairing, &mut witness, 1)
}

// The line of ten routes.
fn ten<W: Write>(out: &mut W, label: &[u8], pairing: &mut [u8; TEN]) -> io::Result<()> {
    let mut witness = [0u8; 10];
    let mut s = [0u8; SMALL];
    put_ten(&mut s);
    line(out, label, small(&s, 136), pairing, &mut witness, ALL)
}

// From nothing, and from the four pairs at which gamma panics.
fn tens<W: Write>(out: &mut W) -> io::Result<()> {
    let mut pairing = [255u8; TEN];
    let mut start = [255u8; TEN];
    put_pair(&mut start, 1, 2);
    put_pair(&mut start, 3, 4);
    put_pair(&mut start, 5, 6);
    put_pair(&mut start, 7, 8);
    ten(out, b"ten from nothing", &mut pairing)?;
    ten(out, b"ten from 1-2 3-4 5-6 7-8", &mut start)
}

fn main(rt: HostRuntime) -> io::Result<()> {
    let mut text = Vec::new(rt.alloc());
    rt.reader().take(BYTES).read_to_end(&mut text)?;
    let mut out = BufWriter::new(rt.alloc(), io::writer(&rt))?;
    cases(&mut out, &text)?;
    claws(&mut out)?;
    tens(&mut out)?;
    out.flush()
}
