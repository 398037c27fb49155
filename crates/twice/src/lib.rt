// The law of two calls: the exported call made twice in a row leaves what one call with the summed budget leaves. It is
// no part of the boundary, which is the crate `wisharek`.
#![tactic(auto)]

ghost use Rattle.std.specs.Prelude.{◌≡◌, length};
ghost use Rattle.twice.specs.Two.{TwoCalls};

use wisharek::wisharek_improve;

// Two calls in a row on the same buffers, with an answer each: the law that they leave what one call with the summed
// budget leaves is this function's contract.
pub fn improve_twice(
    sheet: &[u8],
    pairing: &mut [u8],
    witness: &mut [u8],
    one: u32,
    two: u32,
    first: &mut [u8],
    second: &mut [u8],
) -> u32
    requires { (length first.old ≡ 56) × (length second.old ≡ 56) }
    ensures { TwoCalls sheet.now pairing.old pairing.new witness.old witness.new one two first.new second.new result }
{
    wisharek_improve(sheet, pairing, witness, one, first);
    wisharek_improve(sheet, pairing, witness, two, second)
}
