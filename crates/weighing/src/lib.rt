// What a signaller rechecks by hand: `weigh` answers the surplus of a set of routes, and `divide` the parts that are left
// without it. What both answer is defined in the crate `witness`, beside the checker; the counts of a set, and the names of its
// parts, stand in `weights`, and the checks one by one in `verdicts`.
#![tactic(auto)]

ghost use Rattle.std.specs.Prelude.{◌≡◌, Err, MatchResult, pos};
ghost use Rattle.limits.specs.Answer.{accepted};
ghost use Rattle.witness.specs.Verdict.{surplus_verdict, parts_verdict};
ghost use Rattle.witness.specs.Promise.{Parted, Surplus};

use rows::order;
use verdicts::{Refusal, Verdict, mark_verdict, parts_length, sheet_verdict, witness_length};
pub use weights::Weight;
use weights::{divide_of, surplus_of, weight_of};

// The answer of `weigh`, where it is not refused.
#[derive(Clone, Copy)]
pub struct Weighed {
    pub weight: Weight,
    pub surplus: i64,
}

// The checks of the surplus.
#[tactic(auto, unfolding(witness::specs::Verdict::surplus_verdict))]
fn surplus_verdict(s: &[u8], witness: &[u8]) -> Verdict
    ensures { result ≡ surplus_verdict s.now witness.now }
{
    sheet_verdict(s)?;
    let n = order(s);
    witness_length(n, witness)?;
    mark_verdict(n, witness)
}

// The surplus of the witness's set.
pub fn weigh(s: &[u8], witness: &[u8]) -> Result<Weighed, Refusal>
    ensures { MatchResult result
        (λ w. Surplus s.now witness.now accepted w.weight.odd w.weight.size w.surplus)
        (λ e. Surplus s.now witness.now (Err e) 0 0 (pos 0)) }
{
    surplus_verdict(s, witness)?;
    let weight = weight_of(s, witness);
    let surplus = surplus_of(weight.odd, weight.size);
    Ok(Weighed { weight, surplus })
}

// The checks of the parts.
#[tactic(auto, unfolding(witness::specs::Verdict::parts_verdict))]
fn parts_verdict(s: &[u8], witness: &[u8], buffer: &[u8]) -> Verdict
    ensures { result ≡ parts_verdict s.now witness.now buffer.now }
{
    sheet_verdict(s)?;
    let n = order(s);
    witness_length(n, witness)?;
    parts_length(n, buffer)?;
    mark_verdict(n, witness)
}

// The parts that are left without the witness's set.
pub fn divide(s: &[u8], witness: &[u8], buffer: &mut [u8]) -> Result<Weight, Refusal>
    ensures { MatchResult result
        (λ w. Parted s.now witness.now buffer.old buffer.new accepted w.odd w.size)
        (λ e. Parted s.now witness.now buffer.old buffer.new (Err e) 0 0) }
{
    parts_verdict(s, witness, buffer)?;
    Ok(divide_of(s, witness, buffer))
}
