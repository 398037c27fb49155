// Refusals 4 to 7, by two tables: who names whom, from one run over all entries, and the last place of each id in a
// row, from one run over the row. So an entry is answered in a few steps, whatever the bytes. Below stand the crates
// `replies`, what a sheet is answered, `marks` and `places`, the two tables, and `one_entry`, an entry by the tables.
#![tactic(auto)]

ghost use Rattle.std.specs.Prelude.{◌≡◌, ◌≤◌};
ghost use Rattle.limits.specs.Answer.{first};
ghost use Rattle.limits.specs.Limits.{routes};
ghost use Rattle.words.specs.Words.{numbers};
ghost use Rattle.rows.specs.Sheet.{order, graph_of};
ghost use Rattle.places.specs.Places.{last_places, unkept};
ghost use Rattle.entries.specs.Entries.{rows_reply, loop_reply};
ghost use Rattle.entries.specs.Quick.{mark_row, mark_rows, quick_row, quick_rows, quick_loop};

use limits::ROUTES;
use marks::{MARKS, mark, marked};
use one_entry::reply_to_entry;
use places::keep_places;
use replies::{Refusal, Reply};
use rows::{order, row};
use words::numbers_of;

// Every entry of row v marked.
fn mark_row(row: &[u8], v: u32, t: &mut [u32; MARKS])
    ensures { t.new ≡ mark_row t.old v (numbers row.now) }
{
    for w in numbers_of(row) {
        mark(t, v, w);
    }
}

// Every entry of every row marked.
fn mark_rows(s: &[u8], t: &mut [u32; MARKS])
    ensures { t.new ≡ mark_rows (graph_of s.now) (order s.now) t.old }
{
    for v in 0..order(s) {
        mark_row(row(s, v), v, t);
    }
}

// The entries of row v in turn, the last place of each id being known.
fn reply_to_places(
    marks: &[u32; MARKS],
    last: &[usize; ROUTES],
    n: u32,
    v: u32,
    row: &[u8],
) -> Reply
    ensures { result ≡ quick_row marks.now last.now n v (numbers row.now) }
{
    for (i, w) in numbers_of(row).enumerate() {
        reply_to_entry(marks, last, n, v, w, i)?;
    }
    Ok(())
}

// The entries of row v in turn.
fn reply_to_row(marks: &[u32; MARKS], n: u32, v: u32, row: &[u8]) -> Reply
    ensures { result ≡ quick_row marks.now (last_places unkept (numbers row.now)) n v (numbers row.now) }
{
    let mut last = [0usize; ROUTES];
    keep_places(row, &mut last);
    reply_to_places(marks, &last, n, v, row)
}

// Row by row.
fn reply_to_marks(s: &[u8], marks: &[u32; MARKS]) -> Reply
    ensures { result ≡ quick_rows marks.now (graph_of s.now) }
{
    let n = order(s);
    for v in 0..n {
        reply_to_row(marks, n, v, row(s, v))?;
    }
    Ok(())
}

// 7: the lowest route that is marked as naming itself.
fn reply_to_loops(marks: &[u32; MARKS], n: u32) -> Reply
    ensures { result ≡ quick_loop marks.now n }
{
    for v in 0..n {
        if marked(marks, v, v) {
            return Err(Refusal::Loop { route: v });
        }
    }
    Ok(())
}

// 4 to 7, for a sheet with no more routes than the limit.
pub fn reply_to_rows(s: &[u8]) -> Reply
    requires { order s.now ≤ routes }
    ensures { result ≡ first (rows_reply (graph_of s.now)) (loop_reply (graph_of s.now)) }
{
    let mut marks = [0u32; MARKS];
    mark_rows(s, &mut marks);
    reply_to_marks(s, &marks)?;
    reply_to_loops(&marks, order(s))
}
