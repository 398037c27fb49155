// What `drive` is lent: a pairing as bytes (`state`), and operations as numbers, one after the other, each of them its code,
// how many ids there are, and the ids.
#![tactic(auto)]

ghost use Rattle.std.specs.Prelude.{◌≡◌, get_or};
ghost use Rattle.std.specs.Iterator.{YieldsFirstBy, item_count};
ghost use Rattle.limits.specs.Limits.{none};
ghost use Rattle.lent.specs.Operations.{end_of, ids_at, operations};
ghost use Rattle.lent.specs.Given.{given, left};

use limits::NONE;

pub mod state;

// The number at a place of the list; none past its end, as a list from Rust has it that is cut short (`operation_at`).
pub fn number_at(ops: &[u32], k: usize) -> u32
    ensures { result ≡ get_or ops.now k none }
{
    ops.get(k).copied().unwrap_or(NONE)
}

// Where the operation at a place ends that has so many ids: the place of the next one, at most the end of the list.
pub fn end_of(len: usize, at: usize, ids: u32) -> usize
    ensures { result ≡ end_of len at ids }
{
    at.saturating_add(2).saturating_add(ids as usize).min(len)
}

// The ids of the operation at a place: as many as it says, or as are there.
pub fn ids_at(ops: &[u32], at: usize) -> &[u32]
    ensures { result.now ≡ ids_at ops.now at }
{
    match ops.get(at..) {
        Some([_, count, rest @ ..]) => &rest[..rest.len().min(*count as usize)],
        _ => &[],
    }
}

// An operation of a list: its code, and its ids.
#[derive(Clone, Copy)]
pub struct Operation<'a> {
    pub code: u32,
    pub ids: &'a [u32],
}

// The operations of a list from a place on, in turn.
#[derive(Drop)]
pub struct Operations<'a> {
    ops: &'a [u32],
    at: usize,
}

impl<'a> Operations<'a> {
    // All operations of a list.
    pub fn new(ops: &'a [u32]) -> Self
        ensures { left result ≡ operations ops.now }
    {
        Operations { ops, at: 0 }
    }
}

impl<'a> Iterator for Operations<'a> {
    type Item = Operation<'a>;

    ghost next_gives = { YieldsFirstBy given left };

    ghost remaining = { item_count left };

    fn next(&mut self) -> Option<Operation<'a>> {
        let at = self.at;
        let code = *self.ops.get(at)?;
        let ids = ids_at(self.ops, at);
        self.at = end_of(self.ops.len(), at, number_at(self.ops, at + 1));
        Some(Operation { code, ids })
    }
}
