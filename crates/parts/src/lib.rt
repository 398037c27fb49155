// The parts that a graph falls into without the routes of a set: for each route the least route of its part, as a table
// that each entry of each row merges. One loop reads the sheet (`join_rows`, row by row), all else takes tables. A merge is
// made only where two names differ, so there are fewer merges than routes.
#![tactic(auto)]

ghost use Rattle.std.specs.Prelude.{◌≡◌, map, ◌<◌, min, length};
ghost use Rattle.graphs.specs.Graph.{in_set};
ghost use Rattle.graphs.specs.Parts.{run, merge, link, link_row, link_rows, parts};
ghost use Rattle.words.specs.Words.{numbers};
ghost use Rattle.rows.specs.Sheet.{order, graph_of};
ghost use Rattle.parts.specs.Parts.{Fits, Ready};

use rows::{order, row};
use words::word_at;

// The name x once the parts a and b are one.
#[tactic(auto, unfolding(graphs::specs::Parts::merge))]
fn merged(a: u32, b: u32, x: u32) -> u32
    ensures { result ≡ merge a b x }
{
    if x == a || x == b { a.min(b) } else { x }
}

// The parts a and b become one.
fn merge_names(c: &mut [u32], a: u32, b: u32)
    ensures { c.new ≡ map (merge a b) c.old }
{
    for name in c.iter_mut() {
        *name = merged(a, b, *name);
    }
}

// Each route is a part of its own.
fn name_each(c: &mut [u32])
    requires { length c.old < 4294967296 }
    ensures { c.new ≡ run 0 (length c.old) }
{
    for (i, name) in c.iter_mut().enumerate() {
        *name = i as u32;
    }
}

// An entry w of row v: it joins their parts, unless one of the two is in the set.
#[tactic(auto, using(crate::proofs::Joined::entry_left, crate::proofs::Joined::entry_right, crate::proofs::Joined::entry_same, crate::proofs::Joined::entry_merged))]
fn join_entry(c: &mut [u32], set: &[u8], v: usize, w: usize)
    requires { (v < length c.old) × (w < length c.old) × (length set.now ≡ length c.old) }
    ensures { c.new ≡ link (in_set set.now) c.old v w }
{
    if set[v] == 1 || set[w] == 1 {
        return;
    }
    let a = c[v];
    let b = c[w];
    if a != b {
        merge_names(c, a, b);
    }
}

// The entries of row v.
fn join_row(c: &mut [u32], set: &[u8], v: u32, row: &[u8])
    requires { Fits c.old set.now v row.now }
    ensures { c.new ≡ link_row (in_set set.now) c.old v (numbers row.now) }
{
    for i in 0..row.len() / 4 {
        let w = word_at(row, i);
        join_entry(c, set, v as usize, w as usize);
    }
}

// Row by row, from each route a part of its own.
fn join_rows(s: &[u8], set: &[u8], c: &mut [u32])
    requires { Ready s.now set.now c.old × (c.old ≡ run 0 (order s.now)) }
    ensures { c.new ≡ parts (graph_of s.now) (in_set set.now) }
{
    for v in 0..order(s) {
        join_row(c, set, v, row(s, v));
    }
}

// The table of parts of an accepted sheet without the routes of the set.
pub fn part_names(s: &[u8], set: &[u8], c: &mut [u32])
    requires { Ready s.now set.now c.old }
    ensures { c.new ≡ parts (graph_of s.now) (in_set set.now) }
{
    name_each(c);
    join_rows(s, set, c);
}
