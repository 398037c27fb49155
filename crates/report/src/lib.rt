// What the planner's program writes for an input: one sheet, improved from nothing without a limit. Below stand the crates
// `lines`, which writes each line, and `text`, which puts one thing after the other.
#![tactic(auto)]

ghost use Rattle.std.specs.Prelude.{◌≡◌, min};
ghost use Rattle.limits.specs.Limits.{routes};
ghost use Rattle.text.specs.Put.{followed_by};
ghost use Rattle.report.specs.Start.{unpaired_start, empty_set};
ghost use Rattle.report.specs.Text.{plan_text, text_of, Reports};

use improve::improve;
use limits::{ROUTES, Told};
use lines::{put_counts, put_over, put_pairs, put_refusal};
use rows::order;
pub use text::{ROOM, Text};

// The most bytes that are looked at.
const INPUT: usize = 65536;

// The largest budget, which is no limit.
const NO_LIMIT: u32 = 4294967295;

// Room for the partners of all routes, four bytes each.
const PARTNERS: usize = 4 * ROUTES;

// The answer of improve without a limit, from the pairing and witness that are lent.
fn put_plan(text: &mut Text, s: &[u8], pairing: &mut [u8], witness: &mut [u8])
    ensures { text.new ≡ followed_by text.old (plan_text s.now pairing.old witness.old) }
{
    match improve(s, pairing, witness, NO_LIMIT) {
        Ok(made) => {
            let n = order(s);
            put_counts(text, n, made.size, made.sessions - made.size, made.sessions);
            put_pairs(text, n, pairing);
            put_over(text, n, witness);
        }
        Err(refusal) => put_refusal(text, Told::from(refusal)),
    }
}

// No partner for any route.
fn no_pairs() -> [u8; PARTNERS]
    ensures { result ≡ unpaired_start }
{
    [255; PARTNERS]
}

// No route in the set.
fn no_members() -> [u8; ROUTES]
    ensures { result ≡ empty_set }
{
    [0; ROUTES]
}

// n, or the most that there may be.
fn at_most(n: u32) -> usize
    ensures { result ≡ min n routes }
{
    ROUTES.min(n as usize)
}

// The text for an input, put behind what a text holds.
pub fn put_report(text: &mut Text, input: &[u8])
    ensures { text.new ≡ followed_by text.old (text_of input.now) }
{
    if INPUT < input.len() {
        text.put_word(b"too long\n");
        return;
    }
    let n = at_most(order(input));
    let mut pairing = no_pairs();
    let mut witness = no_members();
    put_plan(text, input, &mut pairing[..4 * n], &mut witness[..n]);
}

// The text for an input.
pub fn report(input: &[u8]) -> Text
    ensures { result ≡ text_of input.now }
{
    let mut text = Text::new();
    put_report(&mut text, input);
    text
}

// The text for an input, at the start of `out`; its length is answered, and the bytes after it stay as they are.
pub fn report_to(input: &[u8], out: &mut [u8; ROOM]) -> usize
    ensures { Reports input.now out.old out.new result }
{
    report(input).copy_to(out)
}
