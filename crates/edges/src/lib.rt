// The lookup `has_edge` of default_graph.rs: whether two routes are joined. It takes any bytes; the crate `rows` has the
// format and the other lookups.
#![tactic(auto)]

ghost use Rattle.std.specs.Prelude.{◌≡◌};
ghost use Rattle.rows.specs.Sheet.{graph_of};
ghost use Rattle.edges.specs.Edges.{edge_of};

use rows::{UnknownId, order, place, row};

// Whether the second id is a neighbour of the first, or the first of the two that is no route.
pub fn has_edge(s: &[u8], v: u32, w: u32) -> Result<bool, UnknownId>
    ensures { result ≡ edge_of (graph_of s.now) v w }
{
    let n = order(s);
    if n <= v {
        return Err(UnknownId { id: v });
    }
    if n <= w {
        return Err(UnknownId { id: w });
    }
    Ok(place(row(s, v), w).is_some())
}
