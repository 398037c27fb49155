// What a sheet is answered: acceptance, or one of the refusals 1 to 7 with its details. Each converts to the number, A and B
// that it is told as. Which reply is due is said in the crates above: `entries` for 4 to 7, and `sheet` for any bytes.
#![tactic(auto)]

ghost use Rattle.std.specs.Prelude.{◌≡◌};
ghost use Rattle.replies.specs.Reply.{refused_as};

use limits::{ROUTES, Told};

// Why a sheet is refused. The names of the refused entries are those of the Rust's errors.
#[derive(Clone, Copy)]
pub enum Refusal {
    // 1: fewer than 8 bytes
    Short,
    // 2: more routes than the limit
    TooMany { n: u32 },
    // 3: contents cut short, a first start that is not 0, a start that falls, or a wrong length
    Contents,
    // 4: an entry that is no route
    UnknownId { entry: u32 },
    // 5: an entry that stands again later in its row
    DuplicateEdge { row: u32, entry: u32 },
    // 6: an entry whose own row lacks the row's route
    MissingEdge { entry: u32, row: u32 },
    // 7: a route that is its own neighbour
    Loop { route: u32 },
}

// What a sheet is answered.
pub type Reply = Result<(), Refusal>;

// Number, A and B of each refusal.
impl From<Refusal> for Told {
    ghost from_gives = { λ r t. t ≡ refused_as r };

    fn from(refusal: Refusal) -> Told {
        match refusal {
            Refusal::Short => Told { no: 1, a: 0, b: 0 },
            Refusal::TooMany { n } => Told {
                no: 2,
                a: u64::from(n),
                b: ROUTES as u64,
            },
            Refusal::Contents => Told { no: 3, a: 0, b: 0 },
            Refusal::UnknownId { entry } => Told {
                no: 4,
                a: u64::from(entry),
                b: 0,
            },
            Refusal::DuplicateEdge { row, entry } => Told {
                no: 5,
                a: u64::from(row),
                b: u64::from(entry),
            },
            Refusal::MissingEdge { entry, row } => Told {
                no: 6,
                a: u64::from(entry),
                b: u64::from(row),
            },
            Refusal::Loop { route } => Told {
                no: 7,
                a: u64::from(route),
                b: 0,
            },
        }
    }
}
