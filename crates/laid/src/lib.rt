// Numbers laid down one after the other in what is lent, as far as there is room: those of a reply, and the pairs behind it.
#![tactic(auto)]

ghost use Rattle.std.specs.Prelude.{◌≡◌, [], ◌∷◌};
ghost use Rattle.asked.specs.Replies.{numbers_of, pairs_of, behind};
ghost use Rattle.laid.specs.Answers.{laid};
ghost use Rattle.laid.specs.Lays.{Lays, laid_in};

use asked::{Kind, Reply};
use pairing::{Edge, Pairing};

// The numbers that are lent, and the place of the next one to lay down. Each function lays down behind what was laid down before.
#[derive(Drop)]
pub struct Answers<'a> {
    numbers: &'a mut [u64],
    place: usize,
}

impl<'a> Answers<'a> {
    // Nothing laid down yet.
    pub fn new(numbers: &'a mut [u64]) -> Self
        ensures lent { result.numbers.ghost_name ≡ numbers.entry.ghost_name }
        ensures nothing { laid_in result ≡ laid numbers.old 0 }
    {
        Answers { numbers, place: 0 }
    }

    // What comes is laid down from this place on.
    pub fn from_place(numbers: &'a mut [u64], place: usize) -> Self
        ensures lent { result.numbers.ghost_name ≡ numbers.entry.ghost_name }
        ensures from { laid_in result ≡ laid numbers.old place }
    {
        Answers { numbers, place }
    }

    // The place of the next number.
    pub fn place(&self) -> usize
        ensures { result ≡ (laid_in self.now).place }
    {
        self.place
    }

    // One number, if there is room for it.
    fn put(&mut self, x: u64)
        ensures { Lays self.old self.new (x ∷ []) }
    {
        if self.place < self.numbers.len() {
            self.numbers[self.place] = x;
            self.place += 1;
        }
    }

    // The four numbers of a reply.
    pub fn put_reply(&mut self, r: Reply)
        ensures { Lays self.old self.new (numbers_of r) }
    {
        self.put(u64::from(r.told.no));
        self.put(r.told.a);
        self.put(r.told.b);
        self.put(r.value);
    }

    // Pairs, the lower id of each before its partner.
    fn put_edges(&mut self, edges: &[Edge])
        ensures { Lays self.old self.new (pairs_of edges.now) }
    {
        for edge in edges {
            self.put(u64::from(edge.lower));
            self.put(u64::from(edge.upper));
        }
    }

    // The pairs behind the answer to an operation: all of them where `edges` was asked, and none elsewhere.
    pub fn put_pairs(&mut self, p: Pairing, code: u32)
        ensures { Lays self.old self.new (behind p code) }
    {
        if code != u32::from(Kind::Edges) {
            return;
        }
        if let Ok(edges) = p.edges() {
            self.put_edges(edges.as_slice());
        }
    }
}
