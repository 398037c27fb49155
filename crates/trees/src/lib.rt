// The forest of a search and its rings, over any tables, and no function: what holds of them, walks in them, and that each
// step keeps them. `proofs/` holds the laws. The search itself stands in the crate `theory` above, graphs and pairings in
// `graphs` below.

#![tactic(auto)]
