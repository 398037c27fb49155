// Makes single searches on small layouts, and prints what each of them brings: the layout's name and whether a pair more was
// found, then the pairs, and where none was found the routes of the witness. From a layout's start one search follows the
// other until one finds nothing. A layout is a list of edges, as 01 02 9a for 0 and 1, 0 and 2, 9 and 10, and each row stands
// in the order of the list; its start is such a list of pairs. The file `stdin` beside `src/` has the layouts, one to a line.
// The file `stdout` holds what is to be printed. It comes from a plain model of the search, written by
// itself, and not from a run of this program.
#![tactic(auto)]

use limits::{NONE, ROUTES};
use samples::{LARGE, front, is_told, number_from, put_all, put_entry, sheet_length};
use search::searched;
use std::io;
use std::io::{BufWriter, Read, Write};
use tables::{INNER, UNREACHED, put};
use words::put_word;

// The most bytes that are read: the layouts' lines.
const BYTES: u64 = 65536;

// What the searches are made on.
#[derive(Clone, Copy)]
struct Yard<'a> {
    name: &'a [u8],
    routes: u32,
    sheet: &'a [u8],
}

impl<'a> Yard<'a> {
    // The yard whose sheet has so many entries.
    fn of(name: &'a [u8], routes: u32, s: &'a [u8; LARGE], total: u32) -> Yard<'a> {
        Yard {
            name,
            routes,
            sheet: front(s, sheet_length(routes, total)),
        }
    }
}

// The route of a digit; after 9 come letters, a for 10. A byte that is no digit names no route.
fn route(digit: u8) -> u32 {
    match digit {
        b'0'..=b'9' => u32::from(digit - b'0'),
        b'a'.. => u32::from(digit - b'a') + 10,
        _ => NONE,
    }
}

// Two routes: an edge, or a pair of the start.
#[derive(Clone, Copy)]
struct Edge {
    from: u32,
    to: u32,
}

impl Edge {
    // The edge of the first two bytes of a word, where it has as many.
    fn read(word: &[u8]) -> Option<Edge> {
        let [from, to, ..] = word else {
            return None;
        };
        Some(Edge {
            from: route(*from),
            to: route(*to),
        })
    }
}

// What stands before the first such byte of a line, or all of it; and what stands behind it, or nothing.
fn parted(line: &[u8], byte: u8) -> (&[u8], &[u8]) {
    let mut parts = line.splitn(2, |b| *b == byte);
    (parts.next().unwrap_or(line), parts.next().unwrap_or(&[]))
}

// A line of the layouts, taken apart; the edges and the start are lists still.
#[derive(Clone, Copy)]
struct Layout<'a> {
    name: &'a [u8],
    routes: u32,
    edges: &'a [u8],
    start: &'a [u8],
}

impl<'a> Layout<'a> {
    // Up to `:` stands the name, and the first number behind it is how many routes. Behind the line's first `|` stand the
    // edges, and behind the next the start. Any line is a layout: a list that is not there is empty, and a number none.
    fn read(line: &'a [u8]) -> Layout<'a> {
        let (name, behind) = parted(line, b':');
        let (_, lists) = parted(line, b'|');
        let (edges, start) = parted(lists, b'|');
        Layout {
            name,
            routes: number_from(behind, 0).x,
            edges,
            start,
        }
    }
}

// Writes the pairs, by lower route, rising.
fn write_pairs<W: Write>(out: &mut W, routes: u32, partners: &[u32; ROUTES]) -> io::Result<()> {
    write!(out, "pairs")?;
    for (v, w) in (0..routes).zip(partners) {
        if *w != NONE && v < *w {
            write!(out, " {v}-{w}")?;
        }
    }
    writeln!(out)
}

// Writes the inner routes, rising: the witness.
fn write_witness<W: Write>(out: &mut W, routes: u32, labels: &[u32; ROUTES]) -> io::Result<()> {
    write!(out, "over")?;
    for (v, label) in (0..routes).zip(labels) {
        if *label == INNER {
            write!(out, " {v}")?;
        }
    }
    writeln!(out)
}

// Searches one after the other from these partners, until one finds nothing, and writes what each brings. There are fewer
// pairs than routes, so as many searches as routes are enough.
fn search_on<W: Write>(out: &mut W, yard: &Yard, partners: &mut [u32; ROUTES]) -> io::Result<()> {
    let mut labels = [UNREACHED; ROUTES];
    for _ in 0..yard.routes {
        let found = searched(yard.sheet, partners, &mut labels);
        let word = if found { "found" } else { "stuck" };
        out.write_all(yard.name)?;
        writeln!(out, ": {word}")?;
        write_pairs(out, yard.routes, partners)?;
        if !found {
            return write_witness(out, yard.routes, &labels);
        }
    }
    Ok(())
}

// Row v by the edges of a list, from entry number `first` on. Three bytes of the list are an edge, and two are the last. The
// answer is the number of the next row's first entry.
fn put_row(s: &mut [u8; LARGE], n: u32, first: u32, v: u32, edges: &[u8]) -> u32 {
    let mut next = first;
    for edge in edges.chunks(3).filter_map(Edge::read) {
        if edge.from == v {
            next = put_entry(s, n, next, edge.to);
        } else if edge.to == v {
            next = put_entry(s, n, next, edge.from);
        }
    }
    next
}

// The sheet of n routes. The list of edges is read anew for each row, so that it needs no room of its own. The answer is how
// many entries the sheet has.
fn put_sheet(s: &mut [u8; LARGE], n: u32, edges: &[u8]) -> u32 {
    put_word(s, 0, n);
    put_word(s, 1, 0);
    let mut next = 0;
    for v in 0..n {
        next = put_row(s, n, next, v, edges);
        put_word(s, v as usize + 2, next);
    }
    next
}

// The searches on the layout of a line, from the pairs of its start. The tables come first: made behind the reading, the
// sheet's megabyte would be filled twice.
fn search_line<W: Write>(out: &mut W, line: &[u8]) -> io::Result<()> {
    let mut s = [0; LARGE];
    let mut partners = [NONE; ROUTES];
    let Layout {
        name,
        routes,
        edges,
        start,
    } = Layout::read(line);
    let total = put_sheet(&mut s, routes, edges);
    for pair in start.chunks(3).filter_map(Edge::read) {
        put(&mut partners, pair.from, pair.to);
        put(&mut partners, pair.to, pair.from);
    }
    search_on(out, &Yard::of(name, routes, &s, total), &mut partners)
}

// The searches on the layout in which all routes are joined, the first of them paired side by side: 0 and 1, 2 and 3, and
// so on.
fn search_all<W: Write>(out: &mut W, name: &[u8], routes: u32, paired: u32) -> io::Result<()> {
    let mut s = [0; LARGE];
    let total = put_all(&mut s, routes);
    let mut partners = [NONE; ROUTES];
    for (v, partner) in (0..paired).zip(partners.iter_mut()) {
        *partner = v ^ 1;
    }
    search_on(out, &Yard::of(name, routes, &s, total), &mut partners)
}

fn main(rt: HostRuntime) -> io::Result<()> {
    let mut text = Vec::new(rt.alloc());
    rt.reader().take(BYTES).read_to_end(&mut text)?;
    let mut out = BufWriter::new(rt.alloc(), io::writer(&rt))?;
    for line in text.split(|byte| *byte == b'\n') {
        if is_told(line) {
            search_line(&mut out, line)?;
        }
    }
    // one pair more, and no route is left
    search_all(&mut out, b"all of 4", 4, 2)?;
    // one route is left, and all are one group; entry numbers go above 65,535
    search_all(&mut out, b"all of 257", 257, 256)?;
    out.flush()
}
