// A ring becomes a group. The walks of crate `linked` have stored the ring; here its inner routes turn outer and are queued,
// and its routes are told their new group. Each function is lent the tables that it touches, and no others.
#![tactic(auto)]

ghost use Rattle.std.specs.Prelude.{◌≡◌};
ghost use Rattle.limits.specs.Limits.{routes};
ghost use Rattle.theory.specs.Search.Rings.{admit, around, regroup, shift, absorb};
ghost use Rattle.tables.specs.Shapes.{line_of, tables_of};
ghost use Rattle.tables.specs.declared.Rings.{Rings};
ghost use Rattle.walks.specs.Ways.{way_of};

use forest::enter;
use limits::ROUTES;
use tables::{Desk, GROUPS, INNER, Line, at, copy_cell, one_more, put};
use walks::Ends;

// A group a of the ring: an inner route becomes outer, and is queued.
fn admit(line: &mut Line, a: u32)
    ensures { line_of line.new ≡ admit routes (line_of line.old) a }
{
    if at(&line.label, a) == INNER {
        enter(line, a);
    }
}

// So for j groups of the ring, from a on in its order.
fn around(next: &[u32; GROUPS], line: &mut Line, j: u64, a: u32)
    ensures { line_of line.new ≡ around routes next.now j a (line_of line.old) }
{
    let mut g = a;
    for _ in 0..j {
        admit(line, g);
        g = at(next, g);
    }
}

// Route k is in the group b now, where its group has gone into b.
fn regroup(up: &[u32; GROUPS], b: u32, top: &mut [u32; ROUTES], k: u32)
    ensures { top.new ≡ regroup routes up.now b top.old k }
{
    let g = at(top, k);
    let u = at(up, g);
    if u == b {
        put(top, k, b);
    }
}

// So for the first n routes.
fn shift(up: &[u32; GROUPS], b: u32, n: u32, top: &mut [u32; ROUTES])
    ensures { top.new ≡ shift routes up.now b n top.old }
{
    for k in 0..n {
        regroup(up, b, top, k);
    }
}

// The ring becomes a group, with the root, the base and the rank of the group in which the walks have met. The contract
// holds whatever the rings were before the walks.
pub fn absorb(desk: &mut Desk, v: u32, z: Ends)
    ensures { (q : Rings) → tables_of desk.new ≡ absorb routes (tables_of (record desk.old { rings = q })) v (way_of z desk.old.rings) }
{
    let c = at(&desk.trees.top, z.x);
    let g = at(&desk.trees.top, v);
    let b = desk.trees.ids;
    put(&mut desk.rings.up, c, b);
    shift(&desk.rings.up, b, desk.trees.order, &mut desk.trees.top);
    copy_cell(&mut desk.trees.root, b, c);
    copy_cell(&mut desk.trees.base, b, c);
    copy_cell(&mut desk.trees.rank, b, c);
    put(&mut desk.trees.half, b, z.k);
    let m = u64::from(z.k);
    around(&desk.rings.next, &mut desk.line, m + m + 1, g);
    desk.trees.ids = one_more(b);
}
