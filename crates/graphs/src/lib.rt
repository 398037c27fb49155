// The mathematics of pairing routes, and no function. `specs/` holds what a reader has to believe: graphs as rows,
// parts and the surplus of a set, pairings and the largest of them, plans of sessions, and the layouts marked P.
// `proofs/` holds what follows from it: the Tutte-Berge bound, that a tight set shows a pairing to be largest, and
// that no plan has fewer sessions than a largest pairing leaves. The crates above cite both.

#![tactic(auto)]
