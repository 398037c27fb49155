// The ring that an edge closes becomes a group: the walks of crate `linked` store the ring, and crate `blossom` makes the
// group of it.
#![tactic(auto)]

ghost use Rattle.std.specs.Prelude.{◌≡◌};
ghost use Rattle.limits.specs.Limits.{routes};
ghost use Rattle.theory.specs.Search.Rings.{contract};
ghost use Rattle.tables.specs.Shapes.{tables_of};

use blossom::absorb;
use linked::linked;
use tables::Desk;

// The ring that the edge between v and w closes becomes a group.
pub fn contract(desk: &mut Desk, v: u32, w: u32)
    ensures { tables_of desk.new ≡ contract routes (tables_of desk.old) v w }
{
    let z = linked(&desk.trees, &mut desk.rings, v, w);
    absorb(desk, v, z);
}
