// At most so many pairs more, from the pairing that is lent. The work is done in local tables, and the lent bytes are
// written in one last step, behind which only the size is read from them. A refusal leaves them alone. The searches stand in
// the crate `climb`.
#![tactic(auto)]

ghost use Rattle.std.specs.Prelude.{◌≡◌, get_or, Err, MatchResult};
ghost use Rattle.limits.specs.Answer.{accepted};
ghost use Rattle.graphs.specs.Count.{bit};
ghost use Rattle.limits.specs.Limits.{none};
ghost use Rattle.words.specs.Words.{bytes_to};
ghost use Rattle.rows.specs.Sheet.{order};
ghost use Rattle.witness.specs.Promise.{Begins};
ghost use Rattle.improve.specs.Choice.{improved, last, finished_by, witness_by};
ghost use Rattle.improve.specs.Promise.{Improve};

use buffers::{load, pairs_of, save, save_marks};
use climb::climb;
use limits::{NONE, ROUTES};
use rows::order;
use verdicts::Refusal;
use witness::improve_verdict;

// The answer of `improve`, where it is not refused.
#[derive(Clone, Copy)]
pub struct Improved {
    pub added: u32,
    pub size: u32,
    pub finished: bool,
    pub sessions: u32,
}

// The work, from bytes that have passed the checks: whether no larger pairing exists.
fn work(s: &[u8], pairing: &mut [u8], witness: &mut [u8], budget: u32) -> bool
    requires { Begins s.now pairing.old witness.old }
    ensures { (pairing.new ≡ bytes_to (λ v. get_or (improved s.now pairing.old budget) v none) (order s.now)) × (witness.new ≡ witness_by (last s.now pairing.old budget) witness.old) × (bit result ≡ finished_by (last s.now pairing.old budget)) }
{
    let n = order(s);
    let mut p = load(pairing);
    let mut label = [NONE; ROUTES];
    let finished = climb(s, &mut p, &mut label, budget);
    save(n, &p, pairing);
    if finished {
        save_marks(n, &label, witness);
    }
    finished
}

// At most `budget` pairs more.
pub fn improve(
    s: &[u8],
    pairing: &mut [u8],
    witness: &mut [u8],
    budget: u32,
) -> Result<Improved, Refusal>
    ensures { MatchResult result
        (λ i. Improve s.now pairing.old pairing.new witness.old witness.new budget accepted i.added i.size (bit i.finished) i.sessions)
        (λ e. Improve s.now pairing.old pairing.new witness.old witness.new budget (Err e) 0 0 0 0) }
{
    improve_verdict(s, pairing, witness)?;
    let before = pairs_of(s, pairing);
    let finished = work(s, pairing, witness, budget);
    let size = pairs_of(s, pairing);
    Ok(Improved {
        added: size - before,
        size,
        finished,
        sessions: order(s) - size,
    })
}
