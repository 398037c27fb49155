// The searches of `improve`, one after the other, in tables: no more than the budget, and a last one that tells whether a
// larger pairing exists. What is lent and what is written back stand in the crate `improve`.
#![tactic(auto)]

ghost use Rattle.limits.specs.Limits.{routes};
ghost use Rattle.rows.specs.Sheet.{graph_of};
ghost use Rattle.climb.specs.Climb.{Climbs};

use limits::ROUTES;
use search::searched;

// At most `budget` searches, and a last one on a copy of the partners: whether that finds nothing. Then the labels are
// those of the last search.
pub fn climb(s: &[u8], p: &mut [u32; ROUTES], label: &mut [u32; ROUTES], budget: u32) -> bool
    ensures { Climbs routes (graph_of s.now) p.old p.new label.new budget result }
{
    for _ in 0..budget {
        if !searched(s, p, label) {
            return true;
        }
    }
    let mut copy = *p;
    !searched(s, &mut copy, label)
}
