// The lines of a report: each function puts a line, or a part of one, after what stands in a text.
#![tactic(auto)]

ghost use Rattle.std.specs.Prelude.{◌≡◌, ◌++◌};
ghost use Rattle.causes.specs.Given.{set_of};
ghost use Rattle.text.specs.Put.{followed_by};
ghost use Rattle.text.specs.Digits.{spaced};
ghost use Rattle.lines.specs.Lines.{refusal, counts, pair_line, pair_lines, each, member, over_line};

use limits::Told;
use text::Text;
use words::word_at;

// "refused", number, A and B.
#[tactic(auto, using(text::proofs::Putting::then), unfolding(crate::specs::Lines::refusal))]
pub fn put_refusal(text: &mut Text, t: Told)
    ensures { text.new ≡ followed_by text.old (refusal t) }
{
    text.put_word(b"refused");
    text.put_spaced(u64::from(t.no));
    text.put_spaced(t.a);
    text.put_spaced(t.b);
    text.put(b'\n');
}

// A word, and a number after it.
#[tactic(auto, using(text::proofs::Putting::then))]
fn put_count(text: &mut Text, word: &[u8], x: u32)
    ensures { text.new ≡ followed_by text.old (word.now ++ spaced x) }
{
    text.put_word(word);
    text.put_spaced(u64::from(x));
}

// The first line: the four counts.
#[tactic(auto, using(text::proofs::Putting::then), unfolding(crate::specs::Lines::counts))]
pub fn put_counts(text: &mut Text, n: u32, size: u32, free: u32, sessions: u32)
    ensures { text.new ≡ followed_by text.old (counts n size free sessions) }
{
    put_count(text, b"routes", n);
    put_count(text, b" pairs", size);
    put_count(text, b" unpaired", free);
    put_count(text, b" sessions", sessions);
    text.put(b'\n');
}

// The line of v and its partner w, where v is the lower route of a pair.
fn put_pair(text: &mut Text, n: u32, v: u32, w: u32)
    ensures { text.new ≡ followed_by text.old (pair_line n v w) }
{
    if w < n && v < w {
        text.put_number(u64::from(v));
        text.put_spaced(u64::from(w));
        text.put(b'\n');
    }
}

// The pairs, one to a line.
#[tactic(auto, unfolding(crate::specs::Lines::pair_lines))]
pub fn put_pairs(text: &mut Text, n: u32, pairing: &[u8])
    ensures { text.new ≡ followed_by text.old (pair_lines n pairing.now) }
{
    for v in 0..n {
        put_pair(text, n, v, word_at(pairing, v as usize));
    }
}

// Whether route v is in the witness's set.
fn is_member(witness: &[u8], v: u32) -> bool
    ensures { result ≡ set_of witness.now v }
{
    witness.get(v as usize) == Some(&1)
}

// v, where it is in the witness's set.
fn put_member(text: &mut Text, witness: &[u8], v: u32)
    ensures { text.new ≡ followed_by text.old (member witness.now v) }
{
    if is_member(witness, v) {
        text.put_spaced(u64::from(v));
    }
}

// The routes of the set.
fn put_members(text: &mut Text, n: u32, witness: &[u8])
    ensures { text.new ≡ followed_by text.old (each (member witness.now) n) }
{
    for v in 0..n {
        put_member(text, witness, v);
    }
}

// The last line: "over" and the routes of the set.
#[tactic(auto, using(text::proofs::Putting::then), unfolding(crate::specs::Lines::over_line))]
pub fn put_over(text: &mut Text, n: u32, witness: &[u8])
    ensures { text.new ≡ followed_by text.old (over_line n witness.now) }
{
    text.put_word(b"over");
    put_members(text, n, witness);
    text.put(b'\n');
}
