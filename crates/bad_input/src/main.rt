// Hands sheets to the reader, most of them wrong in one way, and prints a line for each: what the sheet is, then the
// reply's number, A and B. The file `stdin` beside `src/` has the sheets, one to a line, and says how: it ends anywhere, or
// all routes are joined in it. The file `stdout` holds what is to be printed. It comes from a plain reading of the format,
// written by itself in rust/sheets, and not from a run of this program.
#![tactic(auto)]

use limits::{NONE, Told, tell};
use printing::{field, number, write};
use samples::{
    LARGE, front, is_told, number_from, place_of, put_all, put_entry, put_numbers, sheet_length,
};
use std::io;
use std::io::{BufWriter, Read, Write};
use words::{put_word, word_at};

// The most bytes that are read: the sheets' lines.
const BYTES: u64 = 65536;

// The reply to a sheet.
fn told(s: &[u8]) -> Told {
    tell(sheet::check(s))
}

// Writes the reply to a sheet.
fn answer<W: Write>(out: &mut W, s: &[u8]) -> io::Result<()> {
    let t = told(s);
    write(out, b":")?;
    number(out, u64::from(t.no))?;
    number(out, t.a)?;
    number(out, t.b)
}

// Writes the reply to the sheet that ends after so many bytes.
fn answer_in<W: Write>(out: &mut W, s: &[u8; LARGE], bytes: usize) -> io::Result<()> {
    answer(out, front(s, bytes))
}

// The sheet whose length in bytes and first numbers stand from a place on.
fn given<W: Write>(out: &mut W, line: &[u8], at: usize) -> io::Result<()> {
    let mut s = [0u8; LARGE];
    let bytes = number_from(line, at);
    put_numbers(&mut s, line, bytes.next);
    answer_in(out, &s, bytes.x as usize)
}

// The reply to the sheet in which all of n routes are joined, and the entry total that the sheet itself says.
fn unchanged<W: Write>(out: &mut W, s: &[u8; LARGE], n: u32, total: u32) -> io::Result<()> {
    answer_in(out, s, sheet_length(n, total))?;
    field(out, b" entries ", u64::from(word_at(s, n as usize + 1)))
}

// The reply to such a sheet with this total, and with a route put as entry number e: one of its own, or one more at the end
// of the last row.
fn changed<W: Write>(
    out: &mut W,
    s: &mut [u8; LARGE],
    n: u32,
    total: u32,
    e: u32,
    route: u32,
) -> io::Result<()> {
    put_word(s, n as usize + 1, total);
    put_entry(s, n, e, route);
    answer_in(out, s, sheet_length(n, total))
}

// The sheet in which all of n routes are joined, by n and its total, and the entry and the route that stand behind them.
fn joined_of<W: Write>(out: &mut W, line: &[u8], n: u32, total: samples::Read) -> io::Result<()> {
    let mut s = [0u8; LARGE];
    let e = number_from(line, total.next);
    let route = number_from(line, e.next);
    put_all(&mut s, n);
    if e.x == NONE {
        return unchanged(out, &s, n, total.x);
    }
    changed(out, &mut s, n, total.x, e.x, route.x)
}

// The same, by the numbers that stand from a place on.
fn joined<W: Write>(out: &mut W, line: &[u8], at: usize) -> io::Result<()> {
    let n = number_from(line, at);
    joined_of(out, line, n.x, number_from(line, n.next))
}

// Writes the line of a sheet.
fn case<W: Write>(out: &mut W, line: &[u8]) -> io::Result<()> {
    if let Some(colon) = place_of(line, b':') {
        write(out, front(line, colon))?;
        given(out, line, colon)?;
    } else {
        let sign = place_of(line, b';').unwrap_or(line.len());
        write(out, front(line, sign))?;
        joined(out, line, sign)?;
    }
    write(out, b"\n")
}

// All sheets, in turn.
fn cases<W: Write>(out: &mut W, text: &[u8]) -> io::Result<()> {
    for line in text.split(|b| *b == b'\n') {
        if is_told(line) {
            case(out, line)?;
        }
    }
    Ok(())
}

fn main(rt: HostRuntime) -> io::Result<()> {
    let mut text = Vec::new(rt.alloc());
    rt.reader().take(BYTES).read_to_end(&mut text)?;
    let mut out = BufWriter::new(rt.alloc(), io::writer(&rt))?;
    cases(&mut out, &text)?;
    out.flush()
}
