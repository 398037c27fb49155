// The operations on a pairing by itself as an exported function: tools/staticlib makes the archive of it that the tests
// of rust/pairings link; no part of the boundary. A library that other crates can cite and an archive are two crates, so
// the call stands in `drive`, and here it has its symbol, makes the same promise, and does no more than call.
#![tactic(auto)]

ghost use Rattle.std.specs.Prelude.{◌≡◌, length};
ghost use Rattle.std.proofs.lemmas.List.Edits.{sets};
ghost use Rattle.lent.specs.State.{pairing_of, put_pairing};
ghost use Rattle.lent.specs.Operations.{operations};
ghost use Rattle.drive.specs.Drive.{performed, said};

// A pairing as bytes, and operations on it, as the crate `drive` says.
#[unsafe(no_mangle)]
pub extern "C" fn drive_pairing(state: &mut [u8], ops: &[u32], answers: &mut [u64]) -> usize
    ensures counted { result ≡ length (operations ops.now) }
    ensures pairing { state.new ≡ put_pairing state.old (performed (pairing_of state.old) (operations ops.now)) }
    ensures answers { answers.new ≡ sets answers.old 0 (said (pairing_of state.old) (operations ops.now)) }
{
    drive::drive_pairing(state, ops, answers)
}
