// The tables of a search: how a cell is read and set, and the labels. A table of routes has a cell for each route, a
// table of groups has room for each route as a group of one and for every ring. Read past its end a table answers none,
// which is no route, no group and no label; a store there does nothing. So no function above asks where an index stands,
// and one compare a cell is what it costs. All the tables of a search are one `Desk`, whose parts are lent one by one, so
// that a function's parameters say which of them it may change. `specs/Shapes.antt` says which tables of the definition of
// the search a desk holds.
#![tactic(auto)]

ghost use Rattle.std.specs.Prelude.{◌≡◌};
ghost use Rattle.limits.specs.Limits.{routes};
ghost use Rattle.theory.specs.Search.Tables.{cell, store, one_more, unreached, inner, outer};

use limits::{NONE, ROUTES};

// The most groups: each route is one, and rings are fewer than routes. It is the end of every counter too.
pub const GROUPS: usize = ROUTES + ROUTES;

// The label of a route that no walk from a root has come to. The labels are numbers, since the definition of the search
// (`theory`) has a list of numbers for each table.
pub const UNREACHED: u32 = 0;

// The label of a route that a walk from a root comes to over an edge, and leaves to its partner.
pub const INNER: u32 = 1;

// The label of a route that a walk from a root ends in, and may leave to any neighbour.
pub const OUTER: u32 = 2;

// The trees of a search, and the groups that hang in them. By route: its partner (its own number where it has none), an
// inner route's parent, the group that it is in now. By group: the root of its tree, its base (the route by which it hangs
// from the root), its rank (how deep it hangs), and of a ring of 2 h + 1 groups h.
#[derive(Drop)]
pub struct Trees {
    // How many routes there are.
    pub order: u32,
    pub mate: [u32; ROUTES],
    pub parent: [u32; ROUTES],
    pub top: [u32; ROUTES],
    pub root: [u32; GROUPS],
    pub base: [u32; GROUPS],
    pub rank: [u32; GROUPS],
    pub half: [u32; GROUPS],
    // How many groups there are.
    pub ids: u32,
}

// By route: its label; the outer routes in order of entry, and how many they are.
#[derive(Drop)]
pub struct Line {
    pub label: [u32; ROUTES],
    pub queue: [u32; ROUTES],
    pub tail: u32,
}

// By group: the ring that it has gone into, the group next to it there, and the edge to that one, from `out` in this group
// to `into` in the next.
#[derive(Drop)]
pub struct Rings {
    pub up: [u32; GROUPS],
    pub next: [u32; GROUPS],
    pub out: [u32; GROUPS],
    pub into: [u32; GROUPS],
}

// An edge between two trees, by its ends.
#[derive(Clone, Copy)]
pub struct Edge {
    pub one: u32,
    pub two: u32,
}

// All that a search works on, and the edge between two trees, once one is found.
#[derive(Drop)]
pub struct Desk {
    pub trees: Trees,
    pub line: Line,
    pub rings: Rings,
    pub found: Option<Edge>,
}

// The label before the search comes to a route, as the contracts have it.
pub fn label_unreached() -> u32
    ensures { result ≡ unreached }
{
    UNREACHED
}

// The label of an inner route, as the contracts have it.
pub fn label_inner() -> u32
    ensures { result ≡ inner }
{
    INNER
}

// The label of an outer route, as the contracts have it.
pub fn label_outer() -> u32
    ensures { result ≡ outer }
{
    OUTER
}

// One more, short of the end.
pub fn one_more(t: u32) -> u32
    ensures { result ≡ one_more routes t }
{
    if (t as usize) < GROUPS {
        return t + 1;
    }
    t
}

// Cell i of a table; none past its end, which is a number, since `cell` of the definition of the search is one.
pub fn at<const N: usize>(s: &[u32; N], i: u32) -> u32
    ensures { result ≡ cell N s.now i }
{
    let k = i as usize;
    if k < N {
        return s[k];
    }
    NONE
}

// Cell i of a table set to x.
pub fn put<const N: usize>(s: &mut [u32; N], i: u32, x: u32)
    ensures { s.new ≡ store N s.old i x }
{
    let k = i as usize;
    if k < N {
        s[k] = x;
    }
}

// Two cells of a table set, the one after the other: where they are the same cell, the second stays.
pub fn put_two<const N: usize>(s: &mut [u32; N], i: u32, x: u32, j: u32, y: u32)
    ensures { s.new ≡ store N (store N s.old i x) j y }
{
    put(s, i, x);
    put(s, j, y);
}

// Cell i of a table set to what cell j holds.
pub fn copy_cell<const N: usize>(s: &mut [u32; N], i: u32, j: u32)
    ensures { s.new ≡ store N s.old i (cell N s.old j) }
{
    let x = at(s, j);
    put(s, i, x);
}
