// The search for one more pair, and no function. `specs/` holds it as functions on lists, in the shape of the code, and
// what it promises; `proofs/` holds the theorems: what it finds is a pairing with one pair more in which every route
// paired before is paired, and where it finds none its witness meets the bound. Below stand the crates `trees` (the forest
// of a search and its rings) and `graphs` (graphs, pairings and the bound). The crates above cite them.

#![tactic(auto)]
