// The lent bytes of pairing and witness: read into a table, and written from one. And the size of a pairing, read from
// its bytes.
#![tactic(auto)]

ghost use Rattle.std.specs.Prelude.{◌≡◌, ◌&&◌, map, ◌*◌, ltb, length};
ghost use Rattle.limits.specs.Limits.{routes};
ghost use Rattle.graphs.specs.Parts.{run};
ghost use Rattle.theory.specs.Search.Tables.{cell};
ghost use Rattle.theory.specs.Search.Searched.{mark};
ghost use Rattle.words.specs.Words.{bytes_to};
ghost use Rattle.buffers.specs.Held.{partners_of, size_of};

use limits::ROUTES;
use rows::order;
use std::array;
use tables::{INNER, at};
use words::{put_word, word_at};

// The partners that the bytes hold, in a table of their own.
pub fn load(pairing: &[u8]) -> [u32; ROUTES]
    ensures { result ≡ partners_of pairing.now }
{
    array::from_fn(|v| word_at(pairing, v))
}

// Whether v is the lower route of a pair with w.
fn leads(n: u32, v: u32, w: u32) -> bool
    ensures { result ≡ (ltb w n && ltb v w) }
{
    w < n && v < w
}

// The size of the pairing.
pub fn pairs_of(s: &[u8], pairing: &[u8]) -> u32
    ensures { result ≡ size_of s.now pairing.now }
{
    let n = order(s);
    (0..n)
        .filter(|v| leads(n, *v, word_at(pairing, *v as usize)))
        .count() as u32
}

// The partners of n routes written out, four bytes each.
pub fn save(n: u32, p: &[u32; ROUTES], pairing: &mut [u8])
    requires { length pairing.old ≡ 4 * n }
    ensures { pairing.new ≡ bytes_to (cell routes p.now) n }
{
    for v in 0..n {
        put_word(pairing, v as usize, at(p, v));
    }
}

// The byte of a route in the witness: 1 for an inner one.
fn mark_at(label: &[u32; ROUTES], v: u32) -> u8
    ensures { result ≡ mark (cell routes label.now v) }
{
    u8::from(at(label, v) == INNER)
}

// The marks of n routes written out.
pub fn save_marks(n: u32, label: &[u32; ROUTES], witness: &mut [u8])
    requires { length witness.old ≡ n }
    ensures { witness.new ≡ map (λ v. mark (cell routes label.now v)) (run 0 n) }
{
    for v in 0..n {
        witness[v as usize] = mark_at(label, v);
    }
}
