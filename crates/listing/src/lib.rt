// The pairs of a table of partners, by lower id, rising. The crate `pairing` calls `list_all` behind its checks.
#![tactic(auto)]

ghost use Rattle.std.specs.Prelude.{◌≡◌, ◌/◌, ◌<◌, [], ◌∷◌, ◌++◌, length};
ghost use Rattle.limits.specs.Limits.{routes};
ghost use Rattle.mates.specs.Partners.{Sound};
ghost use Rattle.listing.specs.Listing.{edges_in};

use limits::{NONE, ROUTES};
use mates::{IDS, partner_of};
use std::marker::Model;

// The most pairs that there can be.
pub const HALF: usize = ROUTES / 2;

// A pair: the lower id of the two, and its partner.
#[derive(Clone, Copy)]
pub struct Edge {
    pub lower: u32,
    pub upper: u32,
}

// Pairs: a count beside a table of fixed size, since nothing is allocated. A contract sees the list of the pairs that there
// are. Past the count the table holds none, so that the list says all that there is, and pairs can be copied.
#[derive(Clone, Copy)]
pub struct Edges {
    count: usize,
    pairs: [Edge; HALF],
}

impl Model for Edges {
    ghost use Rattle.std.specs.Prelude.{◌≡◌, ◌/◌, ◌≤◌, List, length, take};
    ghost use Rattle.std.proofs.Common.{length-take-le};
    ghost use Rattle.limits.specs.Limits.{routes};
    ghost use Rattle.listing.specs.declared.Edge.{Edge};
    ghost use Rattle.listing.specs.Listing.{padded};

    ghost Value = { List Edge };

    ghost view = { λ e. take e.count e.pairs };

    ghost invariant = { λ e. (e.count ≤ length e.pairs) × (length e.pairs ≡ routes / 2) × (padded (take e.count e.pairs) ≡ e.pairs) };

    ghost inverse = { λ es. record { count = length es; pairs = padded es } };

    ghost inverse_ok = { λ e h i. record { count = length-take-le e.count e.pairs h.0 i; pairs = h.2 i } };
}

impl Edges {
    // No pairs.
    fn new() -> Self
        ensures { result ≡ [] }
    {
        Edges {
            count: 0,
            pairs: [Edge {
                lower: NONE,
                upper: NONE,
            }; HALF],
        }
    }

    // One pair more, behind those that there are.
    fn push(&mut self, edge: Edge)
        requires { length self.old < routes / 2 }
        ensures { self.new ≡ self.old ++ edge ∷ [] }
    {
        self.pairs[self.count] = edge;
        self.count += 1;
    }

    // The pairs that there are.
    pub fn as_slice(&self) -> &[Edge]
        ensures { result.now ≡ self.now }
    {
        &self.pairs[..self.count]
    }
}

// All pairs, by lower id, rising.
pub fn list_all(t: &[u32; ROUTES]) -> Edges
    requires { Sound t.now }
    ensures { result ≡ edges_in t.now }
{
    let mut edges = Edges::new();
    for lower in 0..IDS {
        let upper = partner_of(t, lower);
        if lower < upper && upper < IDS {
            edges.push(Edge { lower, upper });
        }
    }
    edges
}
