// The refusals of the operations on a pairing, in the order in which they are tried: 10 for the table and its count, 14 to
// 16 for one id or two. Those of a whole path stand in the crate `paths`, and what each is told as in `refusals`. The crate
// `pairing` tries them before it does anything.
#![tactic(auto)]

ghost use Rattle.std.specs.Prelude.{◌≡◌};
ghost use Rattle.mates.specs.Partners.{fits};
ghost use Rattle.checks.specs.Checks.{pairing_reply, id_reply, pair_reply, mate_reply};

use limits::{NONE, ROUTES};
use mates::{IDS, is_paired, paired_ids, partner_of};
use refusals::{Refusal, Reply};

// Whether the partner of an id is none, or another id that names it back.
fn fits(t: &[u32; ROUTES], id: u32) -> bool
    ensures { result ≡ fits t.now id }
{
    let m = partner_of(t, id);
    m == NONE || (m < IDS && m != id && partner_of(t, m) == id)
}

// 10, which every operation tries first.
pub fn pairing_refusal(t: &[u32; ROUTES], count: u32) -> Reply
    ensures { result ≡ pairing_reply t.now count }
{
    for id in 0..IDS {
        if !fits(t, id) {
            return Err(Refusal::BadPartner {
                id,
                value: partner_of(t, id),
            });
        }
    }
    if count != paired_ids(t) {
        return Err(Refusal::WrongCount { count });
    }
    Ok(())
}

// 14, for the id at a position.
pub fn id_refusal(position: usize, id: u32) -> Reply
    ensures { result ≡ id_reply position id }
{
    if IDS <= id {
        return Err(Refusal::NoSuchId { position, id });
    }
    Ok(())
}

// 14 for the first id and for the second, then 15.
pub fn pair_refusal(a: u32, b: u32) -> Reply
    ensures { result ≡ pair_reply a b }
{
    id_refusal(0, a)?;
    id_refusal(1, b)?;
    if a == b {
        return Err(Refusal::SelfPair { position: 0, id: a });
    }
    Ok(())
}

// 14, then 16.
pub fn mate_refusal(t: &[u32; ROUTES], id: u32) -> Reply
    ensures { result ≡ mate_reply t.now id }
{
    id_refusal(0, id)?;
    if !is_paired(t, id) {
        return Err(Refusal::Unpaired { id });
    }
    Ok(())
}
