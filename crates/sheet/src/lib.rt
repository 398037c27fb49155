// The sheet: the bytes in which a planner hands in which routes may stand together, and the reader that lets no bad
// byte through. `check` answers refusals 1 to 7 for any bytes at all, in the order of the numbers. Below stand the crates
// `words`, four bytes and a number, `rows`, a row as a stretch and the lookups, `replies`, what a sheet is answered, and
// `entries`, the checks of the entries.
#![tactic(auto)]

ghost use Rattle.std.specs.Prelude.{◌≡◌, ◌+◌, leb};
ghost use Rattle.words.specs.Words.{word};
ghost use Rattle.sheet.specs.Reply.{reply_of, shaped};
ghost use Rattle.sheet.specs.Size.{Size};
ghost use Rattle.graphs.specs.Count.{all};

use entries::reply_to_rows;
use limits::ROUTES;
use replies::{Refusal, Reply};
use words::word_at;

// Whether no start is above the next one, n being the number of routes.
fn starts_rise(s: &[u8], n: u32) -> bool
    ensures { result ≡ all n (λ k. leb (word s.now (k + 1)) (word s.now (k + 1 + 1))) }
{
    for k in 0..n {
        let next = k as usize + 1;
        if word_at(s, next + 1) < word_at(s, next) {
            return false;
        }
    }
    true
}

// Whether contents and length are as they should be.
fn fits(s: &[u8]) -> bool
    ensures { result ≡ shaped s.now }
{
    let order = word_at(s, 0);
    let n = order as usize;
    if s.len() < 8 + 4 * n {
        return false;
    }
    if word_at(s, 0 + 1) != 0 {
        return false;
    }
    if starts_rise(s, order) {
        let e = word_at(s, n + 1) as usize;
        return s.len() == 8 + 4 * n + 4 * e;
    }
    false
}

// The reply to any bytes.
pub fn check(s: &[u8]) -> Reply
    ensures { result ≡ reply_of s.now }
{
    if s.len() < 8 {
        return Err(Refusal::Short);
    }
    let n = word_at(s, 0);
    if ROUTES < n as usize {
        return Err(Refusal::TooMany { n });
    }
    if fits(s) {
        return reply_to_rows(s);
    }
    Err(Refusal::Contents)
}

// The number of edges: half the entry total, since each edge is two entries.
pub fn size(s: &[u8]) -> u32
    ensures { Size s.now result }
{
    let n = word_at(s, 0) as usize;
    word_at(s, n + 1) / 2
}
