// Operations on a pairing by itself, for runs from Rust; no part of the boundary. One call takes a pairing as bytes and
// a list of operations as numbers, applies them in turn, writes the pairing back, and lays down what each of them
// answered. Below stand the crates `lent` (the bytes and the numbers), `asked` (the operations) and `laid` (the numbers that
// are laid down); the crate `drive_c` exports the call.
#![tactic(auto)]

ghost use Rattle.std.specs.Prelude.{◌≡◌, length};
ghost use Rattle.std.proofs.lemmas.List.Edits.{sets};
ghost use Rattle.lent.specs.State.{pairing_of, put_pairing};
ghost use Rattle.lent.specs.Operations.{operations};
ghost use Rattle.laid.specs.Lays.{Lays};
ghost use Rattle.drive.specs.Drive.{performed, said};

use asked::reply_to;
use laid::Answers;
use lent::Operations;
use lent::state::{read_pairing, write_pairing};
use pairing::Pairing;

// All operations of the list, each on the pairing that the one before it left. What comes out is how many they were.
fn perform_all(pairing: &mut Pairing, ops: &[u32], answers: &mut Answers<'_>) -> usize
    ensures counted { result ≡ length (operations ops.now) }
    ensures pairing { pairing.new ≡ performed pairing.old (operations ops.now) }
    ensures answers { Lays answers.old answers.new (said pairing.old (operations ops.now)) }
{
    let mut count = 0;
    for operation in Operations::new(ops) {
        let reply = reply_to(*pairing, operation.code, operation.ids);
        answers.put_reply(reply);
        answers.put_pairs(*pairing, operation.code);
        *pairing = reply.pairing;
        count += 1;
    }
    count
}

// A pairing as bytes, and operations on it: each of them its code, how many ids there are, and the ids. The pairing is
// written back, each operation's answer is laid down as four numbers (number, A, B, value; behind those of `edges` stand
// its pairs), and how many operations there were is handed out. Nothing is asked of the lengths: a number of the pairing
// whose bytes are not all there is none and is not written, an operation that the list cuts short has fewer ids, and
// answers that find no room are left out.
pub fn drive_pairing(state: &mut [u8], ops: &[u32], answers: &mut [u64]) -> usize
    ensures counted { result ≡ length (operations ops.now) }
    ensures pairing { state.new ≡ put_pairing state.old (performed (pairing_of state.old) (operations ops.now)) }
    ensures answers { answers.new ≡ sets answers.old 0 (said (pairing_of state.old) (operations ops.now)) }
{
    let mut pairing = read_pairing(state);
    let mut answers = Answers::new(answers);
    let count = perform_all(&mut pairing, ops, &mut answers);
    write_pairing(state, pairing);
    count
}
