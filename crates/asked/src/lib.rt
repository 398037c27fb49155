// The operations on a pairing by their codes, each with the reply that it is given.
#![tactic(auto)]

ghost use Rattle.std.specs.Prelude.{◌≡◌};
ghost use Rattle.asked.specs.Kinds.{code_of, Decodes};
ghost use Rattle.pairing.specs.Answers.{pair_answer, augment_answer};
ghost use Rattle.asked.specs.Replies.{answer, next_reply, unknown_reply, reply_to};

use lent::number_at;
use limits::{NONE, Told};
use pairing::{Pairing, Refusal, tell};

// Which operation is asked.
#[derive(Clone, Copy)]
pub enum Kind {
    Order,
    HasNode,
    Pair,
    Edges,
    Augment,
    Mate,
}

// A code that names no operation.
#[derive(Clone, Copy)]
pub struct UnknownCode(pub u32);

// The operations by their codes.
impl TryFrom<u32> for Kind {
    type Error = UnknownCode;

    ghost try_from_gives = { Decodes };

    fn try_from(code: u32) -> Result<Self, UnknownCode> {
        match code {
            0 => Ok(Kind::Order),
            1 => Ok(Kind::HasNode),
            2 => Ok(Kind::Pair),
            3 => Ok(Kind::Edges),
            4 => Ok(Kind::Augment),
            5 => Ok(Kind::Mate),
            _ => Err(UnknownCode(code)),
        }
    }
}

impl From<Kind> for u32 {
    ghost from_gives = { λ kind code. code ≡ code_of kind };

    fn from(kind: Kind) -> u32 {
        match kind {
            Kind::Order => 0,
            Kind::HasNode => 1,
            Kind::Pair => 2,
            Kind::Edges => 3,
            Kind::Augment => 4,
            Kind::Mate => 5,
        }
    }
}

// What an operation is answered, as the numbers that `drive` lays down for Rust: number, A and B, a value, which is 0 beside
// a refusal; and the pairing that is handed on.
#[derive(Clone, Copy)]
pub struct Reply {
    pub told: Told,
    pub value: u64,
    pub pairing: Pairing,
}

// What an operation answers that hands on this pairing: a value, or why it is refused.
fn answer(outcome: Result<u64, Refusal>, pairing: Pairing) -> Reply
    ensures { result ≡ answer outcome pairing }
{
    Reply {
        told: tell(outcome.map(|_| ())),
        value: outcome.unwrap_or(0),
        pairing,
    }
}

// `pair`: no value, and the next pairing, or the same one where it is refused. In place: handed on in a `Result`, the pairing
// would be copied for longer than the operation takes.
fn pair_reply(mut p: Pairing, sid: u32, tid: u32) -> Reply
    ensures { result ≡ next_reply (pair_answer p sid tid) }
{
    let outcome = p.pair_in(sid, tid);
    answer(outcome.map(|_| 0), p)
}

// `augment`, likewise.
fn augment_reply(mut p: Pairing, path: &[u32]) -> Reply
    ensures { result ≡ next_reply (augment_answer p path.now) }
{
    let outcome = p.augment_in(path);
    answer(outcome.map(|_| 0), p)
}

// What a code is answered that names no operation.
fn unknown_reply(pairing: Pairing, unknown: UnknownCode) -> Reply
    ensures { result ≡ unknown_reply pairing unknown.0 }
{
    Reply {
        told: Told {
            no: NONE,
            a: u64::from(unknown.0),
            b: 0,
        },
        value: 0,
        pairing,
    }
}

// The operation with this code, on these ids.
pub fn reply_to(p: Pairing, code: u32, ids: &[u32]) -> Reply
    ensures { result ≡ reply_to p code ids.now }
{
    match Kind::try_from(code) {
        Ok(Kind::Order) => answer(p.order().map(u64::from), p),
        Ok(Kind::HasNode) => answer(p.has_node(number_at(ids, 0)).map(u64::from), p),
        Ok(Kind::Pair) => pair_reply(p, number_at(ids, 0), number_at(ids, 1)),
        Ok(Kind::Edges) => answer(p.edges().map(|edges| edges.as_slice().len() as u64), p),
        Ok(Kind::Augment) => augment_reply(p, ids),
        Ok(Kind::Mate) => answer(p.mate(number_at(ids, 0)).map(u64::from), p),
        Err(unknown) => unknown_reply(p, unknown),
    }
}
