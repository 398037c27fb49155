// The exported calls for the surplus of a set and for the parts that are left without it, before they are exported, in the
// same order as that of the crate `checking`.
#![tactic(auto)]

ghost use Rattle.std.specs.Prelude.{◌≡◌};
ghost use Rattle.verdicts.specs.Verdict.{told_of};
ghost use Rattle.witness.specs.Verdict.{surplus_verdict, surplus_of, parts_verdict, odd_of, members_of, parts_bytes};
ghost use Rattle.answers.specs.Twos.{twos};
ghost use Rattle.measuring.specs.Measures.{SurplusCall, PartsCall};

use answers::{put_told, twos_of};
use limits::Told;
use longs::put_long;
use weighing::{Weight, divide, weigh};

// What the surplus is told as, and the surplus in two's complement: 0 where it is refused.
fn surplus_told(sheet: &[u8], witness: &[u8]) -> (Told, u64)
    ensures { (result.0 ≡ told_of (surplus_verdict sheet.now witness.now)) × (result.1 ≡ twos (surplus_of sheet.now witness.now)) }
{
    match weigh(sheet, witness) {
        Ok(made) => (
            Told { no: 0, a: 0, b: 0 },
            twos_of(made.weight.odd, made.weight.size),
        ),
        Err(refusal) => (refusal.into(), 0),
    }
}

// The surplus of the witness's set.
pub fn surplus_call(sheet: &[u8], witness: &[u8], answer: &mut [u8]) -> u32
    ensures { SurplusCall sheet.now witness.now answer.old answer.new result }
{
    if answer.len() != 32 {
        return 9;
    }
    let (told, surplus) = surplus_told(sheet, witness);
    put_told(answer, told);
    put_long(answer, 3, surplus);
    told.no
}

// What the parts are told as, and their counts: 0 where they are refused.
fn parts_told(sheet: &[u8], witness: &[u8], parts: &mut [u8]) -> (Told, Weight)
    ensures { (result.0 ≡ told_of (parts_verdict sheet.now witness.now parts.old)) × (result.1.odd ≡ odd_of sheet.now witness.now parts.old) × (result.1.size ≡ members_of sheet.now witness.now parts.old) × (parts.new ≡ parts_bytes sheet.now witness.now parts.old) }
{
    match divide(sheet, witness, parts) {
        Ok(weight) => (Told { no: 0, a: 0, b: 0 }, weight),
        Err(refusal) => (refusal.into(), Weight { odd: 0, size: 0 }),
    }
}

// The parts that are left without the witness's set.
pub fn parts_call(sheet: &[u8], witness: &[u8], parts: &mut [u8], answer: &mut [u8]) -> u32
    ensures { PartsCall sheet.now witness.now parts.old parts.new answer.old answer.new result }
{
    if answer.len() != 40 {
        return 9;
    }
    let (told, weight) = parts_told(sheet, witness, parts);
    put_told(answer, told);
    put_long(answer, 3, u64::from(weight.odd));
    put_long(answer, 4, u64::from(weight.size));
    told.no
}
