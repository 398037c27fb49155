// Refusal 10: what is wrong with a route's partner, and the lowest route with a wrong one. And how many have none.
#![tactic(auto)]

ghost use Rattle.std.specs.Prelude.{◌≡◌};
ghost use Rattle.graphs.specs.Pairing.{unpaired};
ghost use Rattle.rows.specs.Sheet.{graph_of};
ghost use Rattle.causes.specs.Given.{mate_of};
ghost use Rattle.causes.specs.Cause.{cause_of, first_wrong};

use limits::NONE;
use rows::{order, place, row};
use words::word_at;

// What can be wrong with a partner, in the order in which it is tried.
#[derive(Clone, Copy)]
pub enum Cause {
    // neither none nor below n
    NoRoute,
    // the route itself
    Itself,
    // not a neighbour
    Stranger,
    // does not name the route back
    OneSided,
}

// What is wrong with the partner of v. Nothing is where it has none, or a neighbour that names it back.
#[tactic(auto, using(crate::proofs::Causes::neighbour), unfolding(crate::specs::Cause::cause_of))]
fn cause_at(s: &[u8], pairing: &[u8], v: u32) -> Option<Cause>
    ensures { result ≡ cause_of (graph_of s.now) (mate_of pairing.now) v }
{
    let w = word_at(pairing, v as usize);
    if w == NONE {
        return None;
    }
    if order(s) <= w {
        return Some(Cause::NoRoute);
    }
    if w == v {
        return Some(Cause::Itself);
    }
    let r = row(s, v);
    if place(r, w).is_none() {
        return Some(Cause::Stranger);
    }
    if word_at(pairing, w as usize) == v {
        return None;
    }
    Some(Cause::OneSided)
}

// The lowest route with a wrong partner.
pub fn first_wrong(s: &[u8], pairing: &[u8]) -> Option<u32>
    ensures { result ≡ first_wrong (graph_of s.now) (mate_of pairing.now) }
{
    (0..order(s)).find(|v| cause_at(s, pairing, *v).is_some())
}

// How many routes have no partner.
pub fn unpaired_routes(s: &[u8], pairing: &[u8]) -> u32
    ensures { result ≡ unpaired (graph_of s.now) (mate_of pairing.now) }
{
    let n = order(s);
    (0..n)
        .filter(|v| n <= word_at(pairing, *v as usize))
        .count() as u32
}
