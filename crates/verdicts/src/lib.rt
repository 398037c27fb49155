// What surplus, parts, checker and improve answer: the verdicts 1 to 12, with the number and the values of each, and the
// checks that give one verdict each, for any bytes. Their order, and 12, are the crate `witness`.
#![tactic(auto)]

ghost use Rattle.std.specs.Prelude.{◌≡◌, get_or};
ghost use Rattle.rows.specs.Sheet.{graph_of};
ghost use Rattle.causes.specs.Given.{mate_of};
ghost use Rattle.verdicts.specs.Verdict.{refused_as, sheet_verdict, length_verdict, pairing_length, witness_length, parts_length, partner_verdict, first_above, mark_verdict};
ghost use Rattle.verdicts.specs.declared.Refusal.TheVariants.{Sheet};

use causes::first_wrong;
use limits::Told;
use words::word_at;

// Why surplus, parts, checker and improve refuse.
#[derive(Clone, Copy)]
pub enum Refusal {
    // 1 to 7: the sheet
    Sheet { refusal: replies::Refusal },
    // 8: the pairing is not 4n bytes
    PairingLength,
    // 9: the witness is not n bytes
    WitnessLength,
    // 9: the buffer for the parts is not 4n bytes
    PartsLength,
    // 10: the lowest route with a wrong partner, and its value
    Partner { route: u32, value: u32 },
    // 11: the lowest position with a byte above 1, and the byte
    Mark { position: u32, byte: u32 },
    // 12: the bound is not met; the unpaired routes
    NotShown { unpaired: u32 },
}

// What surplus, parts, checker and improve answer, beside what was asked.
pub type Verdict = Result<(), Refusal>;

// A refusal of the sheet is one of theirs.
impl From<replies::Refusal> for Refusal {
    ghost from_gives = { λ r e. e ≡ Sheet r };

    fn from(refusal: replies::Refusal) -> Refusal {
        Refusal::Sheet { refusal }
    }
}

// Number, A and B of each refusal.
impl From<Refusal> for Told {
    ghost from_gives = { λ r t. t ≡ refused_as r };

    fn from(refusal: Refusal) -> Told {
        match refusal {
            Refusal::Sheet { refusal } => refusal.into(),
            Refusal::PairingLength => Told { no: 8, a: 0, b: 0 },
            Refusal::WitnessLength => Told { no: 9, a: 0, b: 0 },
            Refusal::PartsLength => Told { no: 9, a: 0, b: 0 },
            Refusal::Partner { route, value } => Told {
                no: 10,
                a: u64::from(route),
                b: u64::from(value),
            },
            Refusal::Mark { position, byte } => Told {
                no: 11,
                a: u64::from(position),
                b: u64::from(byte),
            },
            Refusal::NotShown { unpaired } => Told {
                no: 12,
                a: u64::from(unpaired),
                b: 0,
            },
        }
    }
}

// 1 to 7.
#[tactic(auto, unfolding(crate::specs::Verdict::sheet_verdict))]
pub fn sheet_verdict(s: &[u8]) -> Verdict
    ensures { result ≡ sheet_verdict s.now }
{
    sheet::check(s)?;
    Ok(())
}

// Nothing to refuse where a buffer is as long as it has to be.
fn length_verdict(actual: usize, wanted: usize, refusal: Refusal) -> Verdict
    ensures { result ≡ length_verdict actual wanted refusal }
{
    if actual == wanted {
        return Ok(());
    }
    Err(refusal)
}

// 8.
#[tactic(auto, unfolding(crate::specs::Verdict::pairing_length))]
pub fn pairing_length(n: u32, pairing: &[u8]) -> Verdict
    ensures { result ≡ pairing_length n pairing.now }
{
    length_verdict(pairing.len(), 4 * (n as usize), Refusal::PairingLength)
}

// 9, for the witness.
#[tactic(auto, unfolding(crate::specs::Verdict::witness_length))]
pub fn witness_length(n: u32, witness: &[u8]) -> Verdict
    ensures { result ≡ witness_length n witness.now }
{
    length_verdict(witness.len(), n as usize, Refusal::WitnessLength)
}

// 9, for the parts.
#[tactic(auto, unfolding(crate::specs::Verdict::parts_length))]
pub fn parts_length(n: u32, buffer: &[u8]) -> Verdict
    ensures { result ≡ parts_length n buffer.now }
{
    length_verdict(buffer.len(), 4 * (n as usize), Refusal::PartsLength)
}

// 10.
#[tactic(auto, unfolding(crate::specs::Verdict::partner_verdict))]
pub fn partner_verdict(s: &[u8], pairing: &[u8]) -> Verdict
    ensures { result ≡ partner_verdict (graph_of s.now) (mate_of pairing.now) }
{
    match first_wrong(s, pairing) {
        None => Ok(()),
        Some(route) => Err(Refusal::Partner {
            route,
            value: word_at(pairing, route as usize),
        }),
    }
}

// Byte k, 0 past the end.
fn byte_at(s: &[u8], k: u32) -> u32
    ensures { result ≡ get_or s.now k 0 }
{
    u32::from(s.get(k as usize).copied().unwrap_or(0))
}

// The lowest position below n with a byte above 1.
fn first_above(n: u32, witness: &[u8]) -> Option<u32>
    ensures { result ≡ first_above n witness.now }
{
    (0..n).find(|k| 1 < byte_at(witness, *k))
}

// 11.
#[tactic(auto, unfolding(crate::specs::Verdict::mark_verdict))]
pub fn mark_verdict(n: u32, witness: &[u8]) -> Verdict
    ensures { result ≡ mark_verdict n witness.now }
{
    match first_above(n, witness) {
        None => Ok(()),
        Some(position) => Err(Refusal::Mark {
            position,
            byte: byte_at(witness, position),
        }),
    }
}
