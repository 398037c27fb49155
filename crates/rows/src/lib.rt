// A row as the stretch of the sheet that holds it, and the lookups of default_graph.rs: `order` and `neighbors`; the
// third, `has_edge`, is the crate `edges`. They take any bytes; `specs/Sheet.antt` has the format, and
// `proofs/Slots.antt` shows where each entry of a sheet with right contents stands.
#![tactic(auto)]

ghost use Rattle.std.specs.Prelude.{◌≡◌};
ghost use Rattle.words.specs.Words.{numbers};
ghost use Rattle.rows.specs.Sheet.{order, part, stretch};
ghost use Rattle.rows.specs.Lookup.{place_in, neighbors_of};

use words::{numbers_of, word_at};

// An id that is no route.
#[derive(Clone, Copy)]
pub struct UnknownId {
    pub id: u32,
}

// Where a row stands in the sheet: from a byte on, and before another.
#[derive(Clone, Copy)]
pub struct Stretch {
    pub from: usize,
    pub to: usize,
}

// The number of routes.
pub fn order(s: &[u8]) -> u32
    ensures { result ≡ order s.now }
{
    word_at(s, 0)
}

// The bytes at these places, none where there are no such bytes.
fn part_of(s: &[u8], at: Stretch) -> &[u8]
    ensures { result.now ≡ part s.now at.from at.to }
{
    s.get(at.from..at.to).unwrap_or_default()
}

// Where the neighbours of an id stand.
pub fn neighbors(s: &[u8], id: u32) -> Result<Stretch, UnknownId>
    ensures { result ≡ neighbors_of s.now id }
{
    let n = order(s);
    if n <= id {
        return Err(UnknownId { id });
    }
    let rows = n as usize;
    let next = id as usize + 1;
    let a = word_at(s, next) as usize;
    let e = word_at(s, next + 1) as usize;
    Ok(Stretch {
        from: 8 + 4 * rows + 4 * a,
        to: 8 + 4 * rows + 4 * e,
    })
}

// The stretch of the sheet that holds the row of an id.
pub fn row(s: &[u8], id: u32) -> &[u8]
    ensures { result.now ≡ stretch s.now id }
{
    match neighbors(s, id) {
        Ok(at) => part_of(s, at),
        Err(_) => &[],
    }
}

// The first place of x in a row.
pub fn place(row: &[u8], x: u32) -> Option<usize>
    ensures { result ≡ place_in (numbers row.now) x }
{
    numbers_of(row).position(|w| w == x)
}
