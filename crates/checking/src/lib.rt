// The exported call of the checker, before it is exported: first the length of the answer buffer is tested, then the checks
// are made in the order of their numbers, and the answer's numbers are written, eight bytes each, refused or not. The
// crate `wisharek` has it under its name, `wisharek_c` exports it, and `answers` has what writes the numbers.
#![tactic(auto)]

ghost use Rattle.checking.specs.Calls.{CheckCall};

use answers::put_told;
use limits::tell;
use witness::check;

// Whether the pairing is shown to be maximum by the witness.
pub fn check_call(sheet: &[u8], pairing: &[u8], witness: &[u8], answer: &mut [u8]) -> u32
    ensures { CheckCall sheet.now pairing.now witness.now answer.old answer.new result }
{
    if answer.len() != 24 {
        return 9;
    }
    let told = tell(check(sheet, pairing, witness));
    put_told(answer, told);
    told.no
}
