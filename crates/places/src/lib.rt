// The table of the last place of each id in a row, so that the rest of the row need not be searched for an entry's twin.
// An id past the limit is kept nowhere.
#![tactic(auto)]

ghost use Rattle.std.specs.Prelude.{◌≡◌};
ghost use Rattle.words.specs.Words.{numbers};
ghost use Rattle.places.specs.Places.{kept, keep, last_places};

use limits::ROUTES;
use words::numbers_of;

// The place kept for w.
pub fn kept(t: &[usize; ROUTES], w: u32) -> usize
    ensures { result ≡ kept t.now w }
{
    t.get(w as usize).copied().unwrap_or(0)
}

// The place of w set to i. By its index: the contract of `get_mut` does not say what the table ends as.
fn keep(t: &mut [usize; ROUTES], w: u32, i: usize)
    ensures { t.new ≡ keep t.old w i }
{
    let k = w as usize;
    if k < ROUTES {
        t[k] = i;
    }
}

// The last place of each id in the row.
pub fn keep_places(row: &[u8], t: &mut [usize; ROUTES])
    ensures { t.new ≡ last_places t.old (numbers row.now) }
{
    for (i, w) in numbers_of(row).enumerate() {
        keep(t, w, i);
    }
}
