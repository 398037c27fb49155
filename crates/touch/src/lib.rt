// An outer entry w of row v, of another group: the edge closes a ring in one tree, which becomes a group, or it stands
// between two trees and is found.
#![tactic(auto)]

ghost use Rattle.std.specs.Prelude.{◌≡◌};
ghost use Rattle.limits.specs.Limits.{routes};
ghost use Rattle.theory.specs.Search.Look.{touch};
ghost use Rattle.tables.specs.Shapes.{tables_of};

use contract::contract;
use tables::{Desk, Edge, at};

// w is outer, of another group than v.
pub fn touch(desk: &mut Desk, v: u32, w: u32)
    ensures { tables_of desk.new ≡ touch routes (tables_of desk.old) v w }
{
    let g = at(&desk.trees.top, v);
    let h = at(&desk.trees.top, w);
    let p = at(&desk.trees.root, g);
    let q = at(&desk.trees.root, h);
    if p == q {
        contract(desk, v, w);
    } else {
        desk.found = Some(Edge { one: v, two: w });
    }
}
