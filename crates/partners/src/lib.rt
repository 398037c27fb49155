// The partners on their way into a search and out of it. Outside, a route with no partner has none; inside, it is its own
// partner, so that every cell of a route holds a route. None is a number here, since the tables of the definition of the
// search (`theory`) are lists of numbers.
#![tactic(auto)]

ghost use Rattle.std.specs.Prelude.{◌≡◌};
ghost use Rattle.limits.specs.Limits.{routes};
ghost use Rattle.theory.specs.Search.Searched.{own_or, inward, none_or, outward};

use limits::{NONE, ROUTES};
use tables::{at, put};

// v's partner by the table p of the partners of n routes; its own number where it has none.
fn own_or(n: u32, p: &[u32; ROUTES], v: u32) -> u32
    ensures { result ≡ own_or routes n p.now v }
{
    if n <= v {
        return v;
    }
    let w = at(p, v);
    if n <= w {
        return v;
    }
    w
}

// So for the first k routes.
pub fn inward(n: u32, p: &[u32; ROUTES], k: u32, m: &mut [u32; ROUTES])
    ensures { m.new ≡ inward routes n p.now k m.old }
{
    for i in 0..k {
        let w = own_or(n, p, i);
        put(m, i, w);
    }
}

// v's partner; none where it is its own.
fn none_or(m: &[u32; ROUTES], v: u32) -> u32
    ensures { result ≡ none_or routes m.now v }
{
    let w = at(m, v);
    if w == v {
        return NONE;
    }
    w
}

// So for the first k routes.
pub fn outward(m: &[u32; ROUTES], k: u32, p: &mut [u32; ROUTES])
    ensures { p.new ≡ outward routes m.now k p.old }
{
    for i in 0..k {
        let w = none_or(m, i);
        put(p, i, w);
    }
}
