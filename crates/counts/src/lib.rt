// What is counted over a table of parts and a set: how many parts have an odd number of routes, and how many routes are in
// the set; and the name of a route's part. No sheet is read: the table may hold any names.
#![tactic(auto)]

ghost use Rattle.std.specs.Prelude.{◌≡◌, ◌<◌, length, get_or, cond};
ghost use Rattle.limits.specs.Limits.{none};
ghost use Rattle.graphs.specs.Count.{count};
ghost use Rattle.graphs.specs.Graph.{in_set};
ghost use Rattle.graphs.specs.Surplus.{in_part, odd_root};

use limits::NONE;

// How many routes are in the set.
pub fn set_size(set: &[u8]) -> u32
    requires { length set.now < 4294967295 }
    ensures { result ≡ count (length set.now) (in_set set.now) }
{
    set.iter().filter(|b| **b == 1).count() as u32
}

// A table of parts, and the set that they are left without: a name and a mark for each route.
#[derive(Clone, Copy)]
pub struct Cut<'a> {
    pub names: &'a [u32],
    pub set: &'a [u8],
    pub ghost marks: { length set.now ≡ length names.now },
    pub ghost few: { length names.now < 4294967295 },
}

impl Cut<'_> {
    // Whether v is outside the set and of the part r. By `&`: a branch for each route took the checker more time.
    fn in_part(&self, r: u32, v: usize) -> bool
        requires { v < length self.now.names.now }
        ensures { result ≡ in_part self.now.names.now (in_set self.now.set.now) r v }
    {
        (self.set[v] != 1) & (self.names[v] == r)
    }

    // How many routes are of the part r.
    fn part_size(&self, r: u32) -> u32
        ensures { result ≡ count (length self.now.names.now) (in_part self.now.names.now (in_set self.now.set.now) r) }
    {
        let mut k = 0;
        for v in 0..self.names.len() {
            k += u32::from(self.in_part(r, v));
        }
        k
    }

    // Whether r names a part that has an odd number of routes.
    fn odd_root(&self, r: u32) -> bool
        requires { r < length self.now.names.now }
        ensures { result ≡ odd_root (length self.now.names.now) self.now.names.now (in_set self.now.set.now) r }
    {
        self.in_part(r, r as usize) && self.part_size(r) % 2 == 1
    }

    // How many parts have an odd number of routes.
    pub fn odd_parts(&self) -> u32
        ensures { result ≡ count (length self.now.names.now) (odd_root (length self.now.names.now) self.now.names.now (in_set self.now.set.now)) }
    {
        (0..self.names.len() as u32)
            .filter(|r| self.odd_root(*r))
            .count() as u32
    }

    // The name of the part of v, or none where it is in the set.
    pub fn name_at(&self, v: usize) -> u32
        requires { v < length self.now.names.now }
        ensures { result ≡ cond (in_set self.now.set.now v) none (get_or self.now.names.now v 0) }
    {
        if self.set[v] == 1 {
            NONE
        } else {
            self.names[v]
        }
    }
}
