// What the search does at an entry w of row v. Once an edge between two trees is found, it does nothing, nor within v's
// group, nor where w is inner. Where w is not reached, the tree grows. Where w is outer, the edge closes a ring in one tree,
// or it stands between two trees and is found: that is `touch` of the crate below.
#![tactic(auto)]

ghost use Rattle.std.specs.Prelude.{◌≡◌};
ghost use Rattle.limits.specs.Limits.{routes};
ghost use Rattle.theory.specs.Search.Look.{look};
ghost use Rattle.tables.specs.Shapes.{tables_of};

use forest::grow;
use tables::{Desk, INNER, UNREACHED, at};
use touch::touch;
use walks::met;

// An entry w of row v.
pub fn look(desk: &mut Desk, v: u32, w: u32)
    ensures { tables_of desk.new ≡ look routes (tables_of desk.old) v w }
{
    if desk.found.is_some() {
        return;
    }
    if met(&desk.trees.top, w, v) {
        return;
    }
    let l = at(&desk.line.label, w);
    if l == INNER {
        return;
    }
    if l == UNREACHED {
        grow(desk, v, w);
    } else {
        touch(desk, v, w);
    }
}
