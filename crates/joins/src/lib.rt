// New pairs in the table of partners, and how many ids are paired then: two ids, and a whole path two by two. The crate
// `pairing` calls both behind its checks. What is asked of table and count stands in the two contracts and not in a type:
// both are fields of `Pairing`, which anyone may set.
#![tactic(auto)]

ghost use Rattle.std.specs.Prelude.{◌≡◌, ◌≢◌, ◌<◌};
ghost use Rattle.limits.specs.Limits.{routes};
ghost use Rattle.limits.specs.Answer.{accepted};
ghost use Rattle.mates.specs.Partners.{Sound, count_of, paired, augmented};
ghost use Rattle.paths.specs.Paths.{path_reply};

use limits::ROUTES;
use mates::free;

// a and b made partners, and their old partners free; the answer is how many ids are paired then. The count before it and
// what was freed say so: nothing is counted anew.
pub fn join(t: &mut [u32; ROUTES], count: u32, a: u32, b: u32) -> u32
    requires { Sound t.old × (count ≡ count_of t.old) × (a < routes) × (b < routes) × (a ≢ b) }
    ensures partners { t.new ≡ paired t.old a b }
    ensures counted { result ≡ count_of (paired t.old a b) }
{
    let from_a = free(t, a);
    let from_b = free(t, b);
    let i = a as usize;
    let j = b as usize;
    t[i] = b;
    t[j] = a;
    count - from_a - from_b + 2
}

// The ids at positions 0 and 1 of the path made partners, then those at 2 and 3, and so on; the answer is how many ids
// are paired then.
pub fn join_all(t: &mut [u32; ROUTES], count: u32, path: &[u32]) -> u32
    requires { Sound t.old × (count ≡ count_of t.old) × (path_reply path.now ≡ accepted) }
    ensures partners { t.new ≡ augmented t.old path.now }
    ensures counted { result ≡ count_of (augmented t.old path.now) }
{
    let pairs = path.len() / 2;
    let mut n = count;
    for k in 0..pairs {
        n = join(t, n, path[2 * k], path[2 * k + 1]);
    }
    n
}
