// The exported call for more pairs, before it is exported, in the same order as that of the crate `checking`.
#![tactic(auto)]

ghost use Rattle.improving.specs.ImproveCall.{ImproveCall};

use answers::{put_more, put_told};
use improve::{Improved, improve};
use limits::tell;

// At most `budget` pairs more, and whether there are none.
pub fn improve_call(
    sheet: &[u8],
    pairing: &mut [u8],
    witness: &mut [u8],
    budget: u32,
    answer: &mut [u8],
) -> u32
    ensures { ImproveCall sheet.now pairing.old pairing.new witness.old witness.new budget answer.old answer.new result }
{
    if answer.len() != 56 {
        return 9;
    }
    let improved = improve(sheet, pairing, witness, budget);
    let told = tell(improved.map(|_| ()));
    let r = improved.unwrap_or(Improved {
        added: 0,
        size: 0,
        finished: false,
        sessions: 0,
    });
    put_told(answer, told);
    put_more(answer, r.added, r.size, u32::from(r.finished), r.sessions);
    told.no
}
