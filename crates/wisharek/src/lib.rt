// The boundary: what a planning program written in Rust calls, over numbers and byte slices. docs/BOUNDARY.md says the
// same in words. Each call first tests the length of its answer buffer, then makes its checks in the order of their
// numbers, and writes the answer's numbers, eight bytes each, refused or not; the crates `checking`, `measuring` and
// `improving` have what is done, and here it has its name. Crates call these four functions from here; for Rust and C
// the crate `wisharek_c` exports them. They are functions and no re-exports, so that here each name stands with its promise.
#![tactic(auto)]

ghost use Rattle.checking.specs.Calls.{CheckCall};
ghost use Rattle.measuring.specs.Measures.{SurplusCall, PartsCall};
ghost use Rattle.improving.specs.ImproveCall.{ImproveCall};

use checking::check_call;
use improving::improve_call;
use measuring::{parts_call, surplus_call};

// Whether the pairing is shown to be maximum by the witness.
pub fn wisharek_check(sheet: &[u8], pairing: &[u8], witness: &[u8], answer: &mut [u8]) -> u32
    ensures { CheckCall sheet.now pairing.now witness.now answer.old answer.new result }
{
    check_call(sheet, pairing, witness, answer)
}

// The surplus of the witness's set.
pub fn wisharek_surplus(sheet: &[u8], witness: &[u8], answer: &mut [u8]) -> u32
    ensures { SurplusCall sheet.now witness.now answer.old answer.new result }
{
    surplus_call(sheet, witness, answer)
}

// The parts that are left without the witness's set.
pub fn wisharek_parts(sheet: &[u8], witness: &[u8], parts: &mut [u8], answer: &mut [u8]) -> u32
    ensures { PartsCall sheet.now witness.now parts.old parts.new answer.old answer.new result }
{
    parts_call(sheet, witness, parts, answer)
}

// At most `budget` pairs more, and whether there are none.
pub fn wisharek_improve(
    sheet: &[u8],
    pairing: &mut [u8],
    witness: &mut [u8],
    budget: u32,
    answer: &mut [u8],
) -> u32
    ensures { ImproveCall sheet.now pairing.old pairing.new witness.old witness.new budget answer.old answer.new result }
{
    improve_call(sheet, pairing, witness, budget, answer)
}
