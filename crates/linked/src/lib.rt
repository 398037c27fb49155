// Both walks of a ring, until they meet: the deeper one goes a step, and so on. The steps are those of crate `walks`, and
// store the ring on the way.
#![tactic(auto)]

ghost use Rattle.std.specs.Prelude.{◌≡◌};
ghost use Rattle.limits.specs.Limits.{routes};
ghost use Rattle.theory.specs.Search.Rings.{stride, linked};
ghost use Rattle.tables.specs.Shapes.{tables_of};
ghost use Rattle.tables.specs.declared.Desk.{Desk};
ghost use Rattle.walks.specs.Ways.{way_of};

use tables::{GROUPS, Rings, Trees, at};
use walks::{Ends, bridge, left, met, right};

// A step of the deeper walk, unless the two have met.
fn stride(t: &Trees, r: &mut Rings, z: Ends) -> Ends
    ensures { (d : Desk) → d.trees ≡ t.now → way_of result r.new ≡ stride routes (tables_of d) (way_of z r.old) }
{
    let g = at(&t.top, z.x);
    let h = at(&t.top, z.y);
    if g == h {
        return z;
    }
    let i = at(&t.rank, g);
    let j = at(&t.rank, h);
    if i < j {
        return right(t, r, z);
    }
    left(t, r, z)
}

// Both walks, until they have met. There are fewer steps than groups, so the count never ends them.
pub fn linked(t: &Trees, r: &mut Rings, v: u32, w: u32) -> Ends
    ensures { (d : Desk) → d.trees ≡ t.now → d.rings ≡ r.old → way_of result r.new ≡ linked routes (tables_of d) v w }
{
    let mut z = bridge(t, r, v, w);
    for _ in 0..GROUPS {
        if met(&t.top, z.x, z.y) {
            return z;
        }
        z = stride(t, r, z);
    }
    z
}
