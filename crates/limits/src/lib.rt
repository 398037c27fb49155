// What every crate above shares: how many routes there may be, the number that means none, and the form of an answer.
// Every array's length and every bound of the crates above is derived from the two numbers. `specs/Limits.antt` says
// them again for the contracts; the functions below are proved to answer them, so code and contracts cannot drift apart.
#![tactic(auto)]

ghost use Rattle.std.specs.Prelude.{◌≡◌};
ghost use Rattle.limits.specs.Limits.{routes, none};
ghost use Rattle.limits.specs.Answer.{Tells};

// The most routes that a sheet may have. An id is a number below it.
pub const ROUTES: usize = 512;

// What stands for no partner and for no route. Zero is a route.
pub const NONE: u32 = 4294967295;

// What an answer says: its number, 0 for accepted, and its two details A and B, 0 where none is named. A check answers a
// `Result<(), E>`; each type E of refusals converts to this one, and `tell` says the whole answer.
#[derive(Clone, Copy)]
pub struct Told {
    pub no: u32,
    pub a: u64,
    pub b: u64,
}

// The limit, as the contracts have it.
pub fn most_routes() -> usize
    ensures { result ≡ routes }
{
    ROUTES
}

// The number for none, as the contracts have it. It is a number, since the bytes of a pairing hold it.
pub fn no_route() -> u32
    ensures { result ≡ none }
{
    NONE
}

// What a check is told as: nothing to refuse, or the number and the details of its refusal.
pub fn tell<E: Into<Told>>(reply: Result<(), E>) -> Told
    ensures { Tells E.converts reply result }
{
    match reply {
        Ok(()) => Told { no: 0, a: 0, b: 0 },
        Err(refusal) => refusal.into(),
    }
}
