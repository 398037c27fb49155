// A pairing by itself: for each id its partner, and how many ids have one. It is one value of fixed size. Each operation
// takes the pairing by value and checks it before all else; `pair` and `augment` hand back the next one, or the same one
// with the refusal, and the others, which take a copy as well, answer what was asked, or the refusal. Below stand the crates
// `mates`: the table of partners, `refusals`: what is refused, `checks` and `paths`: the refusals in the order of their numbers,
// `joins`: new pairs in the table, and `listing`: the pairs of the table, by lower id.
#![tactic(auto)]

ghost use Rattle.std.specs.Prelude.{◌≡◌, ℕ, ◌<◌, get_or};
ghost use Rattle.limits.specs.Limits.{routes, none};
ghost use Rattle.mates.specs.Partners.{fresh};
ghost use Rattle.checks.specs.Checks.{pairing_reply};
ghost use Rattle.pairing.specs.Answers.{kept, pair_answer, augment_answer, order_answer, has_node_answer, mate_answer, edges_answer, handed};

use checks::{id_refusal, mate_refusal, pair_refusal, pairing_refusal};
use joins::{join, join_all};
pub use limits::tell;
use limits::{NONE, ROUTES};
use listing::list_all;
pub use listing::{Edge, Edges, HALF};
use mates::{is_paired, partner_of};
use paths::path_refusal;
pub use refusals::Refusal;
use refusals::Reply;

// For each id its partner, or none, and how many ids have a partner. Anyone may set both, so the type promises nothing of
// them, and refusal 10 names any number that is no partner: the table holds raw numbers, with `NONE` for no partner.
#[derive(Clone, Copy)]
pub struct Pairing {
    pub partner: [u32; ROUTES],
    pub count: u32,
}

// A refused operation: why, and the pairing that was taken, as it was.
#[derive(Clone, Copy)]
pub struct Refused {
    pub refusal: Refusal,
    pub pairing: Pairing,
}

impl Pairing {
    // A fresh pairing: all places unpaired.
    pub fn new() -> Self
        ensures whole { result ≡ kept fresh }
        ensures every { (i : ℕ) → i < routes → get_or result.partner i 0 ≡ none }
        ensures nobody { result.count ≡ 0 }
    {
        Pairing {
            partner: [NONE; ROUTES],
            count: 0,
        }
    }

    // 10, which every operation tries first.
    fn check(&self) -> Reply
        ensures { result ≡ pairing_reply self.now.partner self.now.count }
    {
        pairing_refusal(&self.partner, self.count)
    }

    // How many ids are paired: twice the number of pairs.
    pub fn order(self) -> Result<u32, Refusal>
        ensures { result ≡ order_answer self }
    {
        self.check().and(Ok(self.count))
    }

    // Whether an id is paired.
    pub fn has_node(self, id: u32) -> Result<bool, Refusal>
        ensures { result ≡ has_node_answer self id }
    {
        self.check()?;
        id_refusal(0, id)?;
        Ok(is_paired(&self.partner, id))
    }

    // Two ids made partners; the partners that they had are free.
    pub fn pair(mut self, sid: u32, tid: u32) -> Result<Self, Refused>
        ensures { result ≡ pair_answer self sid tid }
    {
        match self.pair_in(sid, tid) {
            Ok(()) => Ok(self),
            Err(refusal) => Err(Refused {
                refusal,
                pairing: self,
            }),
        }
    }

    // The same in place: a refusal leaves the pairing as it is.
    pub fn pair_in(&mut self, sid: u32, tid: u32) -> Reply
        ensures { handed result self.new ≡ pair_answer self.old sid tid }
    {
        if let Err(refusal) = self.check().and(pair_refusal(sid, tid)) {
            return Err(refusal);
        }
        self.count = join(&mut self.partner, self.count, sid, tid);
        Ok(())
    }

    // The pairs by lower id, rising.
    pub fn edges(self) -> Result<Edges, Refusal>
        ensures { result ≡ edges_answer self }
    {
        self.check()?;
        Ok(list_all(&self.partner))
    }

    // The ids of the path made partners, two by two, in order. An id that stands twice keeps its last pair.
    pub fn augment(mut self, path: &[u32]) -> Result<Self, Refused>
        ensures { result ≡ augment_answer self path.now }
    {
        match self.augment_in(path) {
            Ok(()) => Ok(self),
            Err(refusal) => Err(Refused {
                refusal,
                pairing: self,
            }),
        }
    }

    // The same in place: a refusal leaves the pairing as it is.
    pub fn augment_in(&mut self, path: &[u32]) -> Reply
        ensures { handed result self.new ≡ augment_answer self.old path.now }
    {
        if let Err(refusal) = self.check().and(path_refusal(path)) {
            return Err(refusal);
        }
        self.count = join_all(&mut self.partner, self.count, path);
        Ok(())
    }

    // The partner of an id.
    pub fn mate(self, id: u32) -> Result<u32, Refusal>
        ensures { result ≡ mate_answer self id }
    {
        self.check()?;
        mate_refusal(&self.partner, id)?;
        Ok(partner_of(&self.partner, id))
    }
}
