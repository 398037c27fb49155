// Refusals 4, 5 and 6 for one entry, by two tables: who names whom, of the crate `marks`, and the last place of each id
// in the entry's row, of the crate `places`. The crate `entries` goes through the rows with it.
#![tactic(auto)]

ghost use Rattle.std.specs.Prelude.{◌≡◌};
ghost use Rattle.one_entry.specs.OneEntry.{quick_entry};

use limits::ROUTES;
use marks::{MARKS, marked};
use places::kept;
use replies::{Refusal, Reply};

// 4, 5 and 6 for the entry w at place i of row v.
pub fn reply_to_entry(
    marks: &[u32; MARKS],
    last: &[usize; ROUTES],
    n: u32,
    v: u32,
    w: u32,
    i: usize,
) -> Reply
    ensures { result ≡ quick_entry marks.now last.now n v w i }
{
    if n <= w {
        return Err(Refusal::UnknownId { entry: w });
    }
    if i < kept(last, w) {
        return Err(Refusal::DuplicateEdge { row: v, entry: w });
    }
    if marked(marks, w, v) {
        return Ok(());
    }
    Err(Refusal::MissingEdge { entry: w, row: v })
}
