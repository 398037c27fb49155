// The forest of a search: how it starts, and how it grows. Each route is a group of one at first; the routes with no
// partner are the roots, outer and queued in id order. From an outer route a step goes to a route that is not reached,
// which turns inner, and on to its partner, which turns outer and is queued. Each function takes the part of the desk that
// it changes.
#![tactic(auto)]

ghost use Rattle.std.specs.Prelude.{◌≡◌};
ghost use Rattle.limits.specs.Limits.{routes};
ghost use Rattle.theory.specs.Search.Start.{enter, plant, seed, fill};
ghost use Rattle.theory.specs.Search.Grow.{grow};
ghost use Rattle.tables.specs.Shapes.{line_of, tables_of};

use limits::ROUTES;
use tables::{Desk, INNER, Line, OUTER, at, one_more, put, put_two};

// v becomes outer, and is queued.
pub fn enter(line: &mut Line, v: u32)
    ensures { line_of line.new ≡ enter routes (line_of line.old) v }
{
    put(&mut line.label, v, OUTER);
    put(&mut line.queue, line.tail, v);
    line.tail = one_more(line.tail);
}

// v is a root, where it is its own partner.
fn plant(mate: &[u32; ROUTES], line: &mut Line, v: u32)
    ensures { line_of line.new ≡ plant routes mate.now (line_of line.old) v }
{
    if at(mate, v) == v {
        enter(line, v);
    }
}

// The roots among the first n routes, in id order.
pub fn seed(mate: &[u32; ROUTES], line: &mut Line, n: u32)
    ensures { line_of line.new ≡ seed routes mate.now n (line_of line.old) }
{
    for k in 0..n {
        plant(mate, line, k);
    }
}

// The first n cells of a table hold their own number.
pub fn fill<const N: usize>(s: &mut [u32; N], n: u32)
    ensures { s.new ≡ fill N n s.old }
{
    for k in 0..n {
        put(s, k, k);
    }
}

// From v to a route w that is not reached, and on to its partner.
pub fn grow(desk: &mut Desk, v: u32, w: u32)
    ensures { tables_of desk.new ≡ grow routes (tables_of desk.old) v w }
{
    let t = &mut desk.trees;
    let u = at(&t.mate, w);
    let g = at(&t.top, v);
    let r = at(&t.root, g);
    let j = one_more(at(&t.rank, g));
    let k = one_more(j);
    put(&mut t.parent, w, v);
    put_two(&mut t.root, w, r, u, r);
    put_two(&mut t.rank, w, j, u, k);
    put(&mut desk.line.label, w, INNER);
    enter(&mut desk.line, u);
}
