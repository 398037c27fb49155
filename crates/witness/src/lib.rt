// The assessor's question: is this pairing shown to be maximum? `check` answers it for any bytes: accepted exactly where
// the set of the witness meets the bound, that is, where the unpaired routes are as many as its surplus. Below stand the
// crates `causes` (refusal 10, and the unpaired routes), `verdicts` (the verdicts, and the checks one by one) and `weights`
// (the counts of a set); above it stands `weighing` (the surplus of a set, and its parts).
#![tactic(auto)]

ghost use Rattle.std.specs.Prelude.{◌≡◌, length};
ghost use Rattle.rows.specs.Sheet.{order, graph_of};
ghost use Rattle.sheet.specs.Reply.{reply_of};
ghost use Rattle.limits.specs.Answer.{accepted};
ghost use Rattle.causes.specs.Given.{mate_of, set_of};
ghost use Rattle.witness.specs.Verdict.{bound_verdict, improve_verdict};
ghost use Rattle.witness.specs.Promise.{Checked};

use causes::unpaired_routes;
use rows::order;
use verdicts::{
    Refusal, Verdict, mark_verdict, pairing_length, partner_verdict, sheet_verdict, witness_length,
};
use weights::weight_of;

// 12.
fn bound_verdict(s: &[u8], pairing: &[u8], witness: &[u8]) -> Verdict
    requires { (reply_of s.now ≡ accepted) × (length witness.now ≡ order s.now) }
    ensures { result ≡ bound_verdict (graph_of s.now) (mate_of pairing.now) (set_of witness.now) }
{
    let weight = weight_of(s, witness);
    let free = unpaired_routes(s, pairing);
    if weight.odd == free + weight.size {
        return Ok(());
    }
    Err(Refusal::NotShown { unpaired: free })
}

// The checks of improve: 1 to 10.
#[tactic(auto, unfolding(crate::specs::Verdict::improve_verdict))]
pub fn improve_verdict(s: &[u8], pairing: &[u8], witness: &[u8]) -> Verdict
    ensures { result ≡ improve_verdict s.now pairing.now witness.now }
{
    sheet_verdict(s)?;
    let n = order(s);
    pairing_length(n, pairing)?;
    witness_length(n, witness)?;
    partner_verdict(s, pairing)
}

// The checker: those, then 11 and 12.
pub fn check(s: &[u8], pairing: &[u8], witness: &[u8]) -> Verdict
    ensures { Checked s.now pairing.now witness.now result }
{
    improve_verdict(s, pairing, witness)?;
    mark_verdict(order(s), witness)?;
    bound_verdict(s, pairing, witness)
}
