// One search from a pairing: one pair more, or a set of routes that shows that there is none. The desk is local, so a search
// begins afresh from the partners and leaves nothing behind but its answer. It is laid out where it stands: handed out by a
// function of its own, it would be copied, at each search and on the stack.
#![tactic(auto)]

ghost use Rattle.limits.specs.Limits.{routes};
ghost use Rattle.rows.specs.Sheet.{graph_of};
ghost use Rattle.search.specs.Answer.{Answers};

use expose::augmented;
use forest::{fill, seed};
use limits::{NONE, ROUTES};
use partners::{inward, outward};
use queue::run_queue;
use rows::order;
use tables::{Desk, GROUPS, Line, Rings, Trees, UNREACHED};

// One search: whether a pair more is found. Where it is, p has the new partners. Where it is not, p is as it was, and
// label has the labels, whose inner routes are the witness.
pub fn searched(s: &[u8], p: &mut [u32; ROUTES], label: &mut [u32; ROUTES]) -> bool
    ensures { Answers routes (graph_of s.now) p.old p.new label.old label.new result }
{
    let n = order(s);
    let mut desk = Desk {
        trees: Trees {
            order: n,
            mate: [NONE; ROUTES],
            parent: [NONE; ROUTES],
            top: [NONE; ROUTES],
            root: [NONE; GROUPS],
            base: [NONE; GROUPS],
            rank: [0; GROUPS],
            half: [0; GROUPS],
            ids: n,
        },
        line: Line {
            label: [UNREACHED; ROUTES],
            queue: [NONE; ROUTES],
            tail: 0,
        },
        rings: Rings {
            up: [NONE; GROUPS],
            next: [NONE; GROUPS],
            out: [NONE; GROUPS],
            into: [NONE; GROUPS],
        },
        found: None,
    };
    inward(n, p, ROUTES as u32, &mut desk.trees.mate);
    fill(&mut desk.trees.top, n);
    fill(&mut desk.trees.root, n);
    fill(&mut desk.trees.base, n);
    seed(&desk.trees.mate, &mut desk.line, n);
    run_queue(&mut desk, s);
    if let Some(edge) = desk.found {
        let mut m = [NONE; ROUTES];
        augmented(&desk, edge, &mut m);
        outward(&m, n, p);
        return true;
    }
    *label = desk.line.label;
    false
}
