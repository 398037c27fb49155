// A pairing as bytes: the partners of all ids and then the kept count, four bytes each, lowest byte first.
ghost use Rattle.std.specs.Prelude.{◌≡◌, map};
ghost use Rattle.limits.specs.Limits.{routes};
ghost use Rattle.graphs.specs.Parts.{run};
ghost use Rattle.words.specs.Words.{word};
ghost use Rattle.lent.specs.State.{pairing_of, put_words, put_pairing};

use limits::{NONE, ROUTES};
use pairing::Pairing;
use words::{put_word, word_at};

// The partners that bytes hold.
fn partners(s: &[u8]) -> [u32; ROUTES]
    ensures { result ≡ map (word s.now) (run 0 routes) }
{
    let mut t = [NONE; ROUTES];
    for (k, x) in t.iter_mut().enumerate() {
        *x = word_at(s, k);
    }
    t
}

// The pairing that bytes hold.
pub fn read_pairing(s: &[u8]) -> Pairing
    ensures { result ≡ pairing_of s.now }
{
    Pairing {
        partner: partners(s),
        count: word_at(s, ROUTES),
    }
}

// Numbers put in the place of the first ones that the bytes hold.
fn put_words(s: &mut [u8], t: &[u32])
    ensures { s.new ≡ put_words s.old 0 t.now }
{
    for (k, x) in t.iter().enumerate() {
        put_word(s, k, *x);
    }
}

// The pairing put in the place of the one that the bytes hold.
pub fn write_pairing(s: &mut [u8], p: Pairing)
    ensures { s.new ≡ put_pairing s.old p }
{
    let t = p.partner;
    put_words(s, &t);
    put_word(s, ROUTES, p.count);
}
