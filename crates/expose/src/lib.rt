// The pairs that an edge between two trees brings. A group is exposed at one of its routes: the other groups of its ring
// are coupled two by two round the ring, and so in every ring above it, up to the group itself. From each end of the edge
// a walk goes up to its root, and exposes each group where it came into it. The pairs go into a copy of the table of
// partners, since the walks read the old partners to the end.
#![tactic(auto)]

ghost use Rattle.std.specs.Prelude.{◌≡◌};
ghost use Rattle.limits.specs.Limits.{routes};
ghost use Rattle.theory.specs.Search.Tables.{groups};
ghost use Rattle.theory.specs.Search.Expose.{pair_up, couples, expose, raise, augmented};
ghost use Rattle.tables.specs.Shapes.{rings_of, tables_of};
ghost use Rattle.expose.specs.Found.{with_edge};

use limits::ROUTES;
use tables::{Desk, Edge, GROUPS, at, put};

// a and b become partners.
fn pair_up(m: &mut [u32; ROUTES], a: u32, b: u32)
    ensures { m.new ≡ pair_up routes m.old a b }
{
    put(m, a, b);
    put(m, b, a);
}

// j couples round a ring, from the group a on: the edge from a group to the next is a pair, and both are exposed at its
// ends. f is above the number of every group in the ring, and falls with each ring within a ring.
#[cycle(couples_expose)]
fn couples(desk: &Desk, f: u32, j: u32, a: u32, m: &mut [u32; ROUTES])
    ensures { m.new ≡ couples routes (expose routes (rings_of desk.now.rings) desk.now.trees.half f) (rings_of desk.now.rings) j a m.old }
{
    let r = &desk.rings;
    let mut g = a;
    for _ in 0..j {
        let d = at(&r.next, g);
        let x = at(&r.out, g);
        let y = at(&r.into, g);
        pair_up(m, x, y);
        expose(desk, f, g, x, m);
        expose(desk, f, d, y, m);
        g = at(&r.next, d);
    }
}

// The group g is exposed at its route x: ring by ring from x up to g, the others of each ring are coupled.
#[cycle(couples_expose)]
fn expose(desk: &Desk, f: u32, g: u32, x: u32, m: &mut [u32; ROUTES])
    ensures { m.new ≡ expose routes (rings_of desk.now.rings) desk.now.trees.half f g x m.old }
{
    if f == 0 {
        return;
    }
    let e = f - 1;
    let mut c = x;
    for _ in 0..e {
        if c == g {
            return;
        }
        let b = at(&desk.rings.up, c);
        let n = at(&desk.trees.half, b);
        let d = at(&desk.rings.next, c);
        couples(desk, e, n, d, m);
        c = b;
    }
}

// From p up to its root, by at most as many steps as there is room for groups: p's group is exposed at p, and the partner
// of its base is paired with its parent, from which the walk goes on.
fn raise(desk: &Desk, p: u32, m: &mut [u32; ROUTES])
    ensures { m.new ≡ raise routes (tables_of desk.now) (groups routes) p m.old }
{
    let t = &desk.trees;
    let mut v = p;
    for _ in 0..GROUPS {
        let g = at(&t.top, v);
        let b = at(&t.base, g);
        let i = at(&t.mate, b);
        expose(desk, t.ids, g, v, m);
        if i == b {
            return;
        }
        let q = at(&t.parent, i);
        pair_up(m, i, q);
        v = q;
    }
}

// m is the partners with the edge between two trees, and both walks. It is lent, since a table that is answered is copied
// on its way out.
pub fn augmented(desk: &Desk, edge: Edge, m: &mut [u32; ROUTES])
    ensures { m.new ≡ augmented routes (tables_of (with_edge desk.now edge)) }
{
    *m = desk.trees.mate;
    pair_up(m, edge.one, edge.two);
    raise(desk, edge.one, m);
    raise(desk, edge.two, m);
}
