// The table of who names whom: one bit for each two ids, so that an entry's row need not be searched for the row's
// route. An id past the limit is marked nowhere.
#![tactic(auto)]

ghost use Rattle.std.specs.Prelude.{◌≡◌, ◌<◌};
ghost use Rattle.marks.specs.Marks.{bit_at, with_bit, marked, mark};

use limits::ROUTES;

// The words of a row of the table, and of the whole table.
pub const ROW: usize = ROUTES / 32;

pub const MARKS: usize = ROUTES * ROW;

// Bit j of the word.
fn bit(x: u32, j: usize) -> bool
    requires { j < 32 }
    ensures { result ≡ bit_at x j }
{
    (x >> j) % 2 == 1
}

// The word with bit j set.
fn with_bit(x: u32, j: usize) -> u32
    requires { j < 32 }
    ensures { result ≡ with_bit x j }
{
    x | (1u32 << j)
}

// Whether v is marked as naming w.
pub fn marked(t: &[u32; MARKS], v: u32, w: u32) -> bool
    ensures { result ≡ marked t.now v w }
{
    let a = v as usize;
    let b = w as usize;
    if a < ROUTES && b < ROUTES {
        let q = b / 32;
        return bit(t[a * ROW + q], b - 32 * q);
    }
    false
}

// The table with v marked as naming w.
pub fn mark(t: &mut [u32; MARKS], v: u32, w: u32)
    ensures { t.new ≡ mark t.old v w }
{
    let a = v as usize;
    let b = w as usize;
    if a < ROUTES && b < ROUTES {
        let q = b / 32;
        let at = a * ROW + q;
        t[at] = with_bit(t[at], b - 32 * q);
    }
}
