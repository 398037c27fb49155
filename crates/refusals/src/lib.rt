// Why an operation on a pairing is refused, and with which numbers: 10 and 13 to 16. The refusals in the order in which they
// are tried stand in the crates `checks` and `paths`, the table of partners in `mates`, the operations themselves in `pairing`.
#![tactic(auto)]

ghost use Rattle.std.specs.Prelude.{◌≡◌};
ghost use Rattle.refusals.specs.Reply.{refused_as};

use limits::{ROUTES, Told};

// Why an operation is refused.
#[derive(Clone, Copy)]
pub enum Refusal {
    // 10: a partner that is neither none nor below the limit, is the id itself, or does not name the id back
    BadPartner { id: u32, value: u32 },
    // 10: a kept count that is not the number of paired ids
    WrongCount { count: u32 },
    // 13: a path with an odd count
    OddPath { count: usize },
    // 14: an id that is not below the limit
    NoSuchId { position: usize, id: u32 },
    // 15: an id paired with itself; the position is that of the pair's first id
    SelfPair { position: usize, id: u32 },
    // 16: the partner of an unpaired id
    Unpaired { id: u32 },
}

// What a check of an operation answers.
pub type Reply = Result<(), Refusal>;

// Number, A and B of each refusal.
impl From<Refusal> for Told {
    ghost from_gives = { λ r t. t ≡ refused_as r };

    fn from(refusal: Refusal) -> Told {
        match refusal {
            Refusal::BadPartner { id, value } => Told {
                no: 10,
                a: u64::from(id),
                b: u64::from(value),
            },
            Refusal::WrongCount { count } => Told {
                no: 10,
                a: ROUTES as u64,
                b: u64::from(count),
            },
            Refusal::OddPath { count } => Told {
                no: 13,
                a: count as u64,
                b: 0,
            },
            Refusal::NoSuchId { position, id } => Told {
                no: 14,
                a: position as u64,
                b: u64::from(id),
            },
            Refusal::SelfPair { position, id } => Told {
                no: 15,
                a: position as u64,
                b: u64::from(id),
            },
            Refusal::Unpaired { id } => Told {
                no: 16,
                a: u64::from(id),
                b: 0,
            },
        }
    }
}
