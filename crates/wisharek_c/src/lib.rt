// The four calls of the boundary once more, as exported functions: tools/staticlib makes the archive of them that a
// program in Rust or C links (rust/wisharek does), and docs/BOUNDARY.md says what each takes and answers. A library that
// other crates cite and an archive are two crates, so the calls stand in `wisharek`, and here each of them has its symbol,
// makes the same promise, and does no more than call.
#![tactic(auto)]

ghost use Rattle.checking.specs.Calls.{CheckCall};
ghost use Rattle.measuring.specs.Measures.{SurplusCall, PartsCall};
ghost use Rattle.improving.specs.ImproveCall.{ImproveCall};

// Whether the pairing is shown to be maximum by the witness.
#[unsafe(no_mangle)]
pub extern "C" fn wisharek_check(
    sheet: &[u8],
    pairing: &[u8],
    witness: &[u8],
    answer: &mut [u8],
) -> u32
    ensures { CheckCall sheet.now pairing.now witness.now answer.old answer.new result }
{
    wisharek::wisharek_check(sheet, pairing, witness, answer)
}

// The surplus of the witness's set.
#[unsafe(no_mangle)]
pub extern "C" fn wisharek_surplus(sheet: &[u8], witness: &[u8], answer: &mut [u8]) -> u32
    ensures { SurplusCall sheet.now witness.now answer.old answer.new result }
{
    wisharek::wisharek_surplus(sheet, witness, answer)
}

// The parts that are left without the witness's set.
#[unsafe(no_mangle)]
pub extern "C" fn wisharek_parts(
    sheet: &[u8],
    witness: &[u8],
    parts: &mut [u8],
    answer: &mut [u8],
) -> u32
    ensures { PartsCall sheet.now witness.now parts.old parts.new answer.old answer.new result }
{
    wisharek::wisharek_parts(sheet, witness, parts, answer)
}

// At most `budget` pairs more, and whether there are none.
#[unsafe(no_mangle)]
pub extern "C" fn wisharek_improve(
    sheet: &[u8],
    pairing: &mut [u8],
    witness: &mut [u8],
    budget: u32,
    answer: &mut [u8],
) -> u32
    ensures { ImproveCall sheet.now pairing.old pairing.new witness.old witness.new budget answer.old answer.new result }
{
    wisharek::wisharek_improve(sheet, pairing, witness, budget, answer)
}
