// The table of partners of a pairing by itself: place i holds the partner of id i, or none. What an operation on it is
// refused with stands in the crates `refusals`, `checks` and `paths`, new pairs in `joins`.
#![tactic(auto)]

ghost use Rattle.std.specs.Prelude.{◌≡◌, ◌*◌};
ghost use Rattle.graphs.specs.Count.{bit};
ghost use Rattle.mates.specs.Partners.{mate_of, is_paired, count_of, freed};

use limits::{NONE, ROUTES};

// The limit, among ids.
pub const IDS: u32 = ROUTES as u32;

// The partner of an id. What is no id has none, which is a number here: refusal 10 names whatever number stands in the
// table, so the answer is the number itself, and `mate_of` says which.
pub fn partner_of(t: &[u32; ROUTES], id: u32) -> u32
    ensures { result ≡ mate_of t.now id }
{
    let i = id as usize;
    if i < ROUTES { t[i] } else { NONE }
}

// Whether an id has a partner.
pub fn is_paired(t: &[u32; ROUTES], id: u32) -> bool
    ensures { result ≡ is_paired t.now id }
{
    partner_of(t, id) < IDS
}

// How many ids have a partner.
pub fn paired_ids(t: &[u32; ROUTES]) -> u32
    ensures { result ≡ count_of t.now }
{
    let mut n = 0;
    for i in 0..IDS {
        n += u32::from(is_paired(t, i));
    }
    n
}

// An id made free, and its partner with it; the answer is how many ids that frees.
pub fn free(t: &mut [u32; ROUTES], id: u32) -> u32
    ensures partners { t.new ≡ freed t.old id }
    ensures count { result ≡ 2 * bit (is_paired t.old id) }
{
    let m = partner_of(t, id) as usize;
    if ROUTES <= m {
        return 0;
    }
    let i = id as usize;
    t[m] = NONE;
    t[i] = NONE;
    2
}
