// The steps of the two walks of a ring. They go up from the ends of the edge that closes it; on the way each group of the
// ring stores the next one and the edge to it, in the ring's direction. Which walk goes, and until when, is in crate
// `linked`. The walks read the trees and change only the rings, and each contract holds whatever else is on the desk.
#![tactic(auto)]

ghost use Rattle.std.specs.Prelude.{◌≡◌, eqb};
ghost use Rattle.limits.specs.Limits.{routes};
ghost use Rattle.theory.specs.Search.Tables.{cell};
ghost use Rattle.theory.specs.Search.Rings.{bridge, left, right};
ghost use Rattle.tables.specs.Shapes.{tables_of};
ghost use Rattle.tables.specs.declared.Desk.{Desk};
ghost use Rattle.walks.specs.Ways.{way_of};

use limits::ROUTES;
use tables::{Rings, Trees, at, one_more, put, put_two};

// Where the two walks of a ring have come to, and how many steps they have made.
#[derive(Clone, Copy)]
pub struct Ends {
    pub x: u32,
    pub y: u32,
    pub k: u32,
}

// Are x and y of one group?
pub fn met(top: &[u32; ROUTES], x: u32, y: u32) -> bool
    ensures { result ≡ eqb (cell routes top.now x) (cell routes top.now y) }
{
    at(top, x) == at(top, y)
}

// Before the first step: w's group stores v's as the next, and the edge (w, v).
pub fn bridge(t: &Trees, r: &mut Rings, v: u32, w: u32) -> Ends
    ensures { (d : Desk) → d.trees ≡ t.now → d.rings ≡ r.old → way_of result r.new ≡ bridge routes (tables_of d) v w }
{
    let g = at(&t.top, w);
    let h = at(&t.top, v);
    put(&mut r.next, g, h);
    put(&mut r.out, g, w);
    put(&mut r.into, g, v);
    Ends { x: v, y: w, k: 0 }
}

// A step of the walk from x.
pub fn left(t: &Trees, r: &mut Rings, z: Ends) -> Ends
    ensures { (d : Desk) → d.trees ≡ t.now → way_of result r.new ≡ left routes (tables_of d) (way_of z r.old) }
{
    let g = at(&t.top, z.x);
    let b = at(&t.base, g);
    let i = at(&t.mate, b);
    let p = at(&t.parent, i);
    let q = at(&t.top, p);
    put_two(&mut r.up, g, t.ids, i, t.ids);
    put_two(&mut r.next, g, i, i, q);
    put_two(&mut r.out, g, b, i, i);
    put_two(&mut r.into, g, i, i, p);
    Ends {
        x: p,
        y: z.y,
        k: one_more(z.k),
    }
}

// A step of the walk from y: no twin of `left`, since other cells are set. The ring's direction is down here, so the parent's group stores the way to i, and i the way
// to y's group.
pub fn right(t: &Trees, r: &mut Rings, z: Ends) -> Ends
    ensures { (d : Desk) → d.trees ≡ t.now → way_of result r.new ≡ right routes (tables_of d) (way_of z r.old) }
{
    let g = at(&t.top, z.y);
    let b = at(&t.base, g);
    let i = at(&t.mate, b);
    let p = at(&t.parent, i);
    let q = at(&t.top, p);
    put_two(&mut r.up, g, t.ids, i, t.ids);
    put_two(&mut r.next, i, g, q, i);
    put_two(&mut r.out, i, i, q, p);
    put_two(&mut r.into, i, b, q, i);
    Ends {
        x: z.x,
        y: p,
        k: one_more(z.k),
    }
}
