// What is counted of a set of routes: the odd parts that are left without it, and its size; their difference, as a signed
// number; and the names of the parts, written out. Each by a table with a cell for each route.
#![tactic(auto)]

ghost use Rattle.std.specs.Prelude.{◌≡◌, ◌*◌, ◌≤◌, length, get_or, cond};
ghost use Rattle.std.proofs.Math.IntN.{sub_ℕ};
ghost use Rattle.limits.specs.Limits.{routes, none};
ghost use Rattle.graphs.specs.Count.{count};
ghost use Rattle.graphs.specs.Graph.{in_set};
ghost use Rattle.graphs.specs.Parts.{parts};
ghost use Rattle.graphs.specs.Surplus.{odd_root};
ghost use Rattle.words.specs.Words.{bytes_to};
ghost use Rattle.rows.specs.Sheet.{order, graph_of};
ghost use Rattle.sheet.specs.Reply.{reply_of};
ghost use Rattle.limits.specs.Answer.{accepted};
ghost use Rattle.parts.specs.Parts.{Ready};
ghost use Rattle.causes.specs.Given.{set_of};
ghost use Rattle.weights.specs.Weight.{Weighs, part_name};

use counts::{Cut, set_size};
use limits::ROUTES;
use parts::part_names;
use rows::order;
use words::put_word;

// The odd parts that are left without a set, and the size of the set.
#[derive(Clone, Copy)]
pub struct Weight {
    pub odd: u32,
    pub size: u32,
}

// The parts that are left of an accepted sheet without a set, in a table with a cell for each route.
fn cut_of<'a>(s: &[u8], witness: &'a [u8], table: &'a mut [u32]) -> Cut<'a>
    requires { Ready s.now witness.now table.old }
    ensures { (result.set.now ≡ witness.now) × (result.names.now ≡ parts (graph_of s.now) (set_of witness.now)) }
{
    part_names(s, witness, table);
    Cut {
        names: table,
        set: witness,
    }
}

// What is counted of a cut.
fn weigh(cut: &Cut) -> Weight
    ensures { (result.odd ≡ count (length cut.now.names.now) (odd_root (length cut.now.names.now) cut.now.names.now (in_set cut.now.set.now))) × (result.size ≡ count (length cut.now.set.now) (in_set cut.now.set.now)) }
{
    Weight {
        odd: cut.odd_parts(),
        size: set_size(cut.set),
    }
}

// The odd parts that are left without the set, and its size.
pub fn weight_of(s: &[u8], witness: &[u8]) -> Weight
    requires { (reply_of s.now ≡ accepted) × (length witness.now ≡ order s.now) }
    ensures { Weighs (graph_of s.now) (set_of witness.now) result.odd result.size }
{
    let n = order(s) as usize;
    let mut table = [0u32; ROUTES];
    let cut = cut_of(s, witness, &mut table[..n]);
    weigh(&cut)
}

// Odd parts less the size of the set.
pub fn surplus_of(odd: u32, size: u32) -> i64
    requires { (odd ≤ routes) × (size ≤ routes) }
    ensures { result ≡ sub_ℕ odd size }
{
    i64::from(odd) - i64::from(size)
}

// The names of the parts written out, four bytes each.
fn write_names(cut: &Cut, buffer: &mut [u8])
    requires { length buffer.old ≡ 4 * length cut.now.names.now }
    ensures { buffer.new ≡ bytes_to (λ v. cond (set_of cut.now.set.now v) none (get_or cut.now.names.now v 0)) (length cut.now.names.now) }
{
    for v in 0..cut.names.len() {
        put_word(buffer, v, cut.name_at(v));
    }
}

// The same counts, and the names of the parts written out.
pub fn divide_of(s: &[u8], witness: &[u8], buffer: &mut [u8]) -> Weight
    requires { (reply_of s.now ≡ accepted) × (length witness.now ≡ order s.now) × (length buffer.old ≡ 4 * order s.now) }
    ensures { Weighs (graph_of s.now) (set_of witness.now) result.odd result.size × (buffer.new ≡ bytes_to (part_name (graph_of s.now) (set_of witness.now)) (order s.now)) }
{
    let n = order(s) as usize;
    let mut table = [0u32; ROUTES];
    let cut = cut_of(s, witness, &mut table[..n]);
    write_names(&cut, buffer);
    weigh(&cut)
}
