// The rows of the queue, in order of entry, until an edge between two trees is found or the queue is done. Each route is
// queued at most once, so the queue has at most one row for each route.
#![tactic(auto)]

ghost use Rattle.std.specs.Prelude.{◌≡◌};
ghost use Rattle.limits.specs.Limits.{routes};
ghost use Rattle.theory.specs.Search.Look.{run};
ghost use Rattle.rows.specs.Sheet.{graph_of};
ghost use Rattle.tables.specs.Shapes.{tables_of};

use rows::row;
use scan::scan_row;
use tables::{Desk, at};

// The routes of the queue, each with its row. Once an edge is found, or past the queue's tail, the rest does nothing.
pub fn run_queue(desk: &mut Desk, s: &[u8])
    ensures { tables_of desk.new ≡ run routes (graph_of s.now) desk.old.trees.order (tables_of desk.old) }
{
    let n = desk.trees.order;
    for k in 0..n {
        if desk.found.is_some() {
            return;
        }
        if desk.line.tail <= k {
            return;
        }
        let v = at(&desk.line.queue, k);
        let r = row(s, v);
        scan_row(desk, v, r);
    }
}
