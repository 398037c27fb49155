// The refusals of a path of ids, in the order in which they are tried: 13, then 14 over all the path, then 15 over all its
// pairs. Those of a table and of one id or two stand in the crate `checks`, new pairs along a path in `joins`.
#![tactic(auto)]

ghost use Rattle.std.specs.Prelude.{◌≡◌};
ghost use Rattle.paths.specs.Paths.{path_reply};

use mates::IDS;
use refusals::{Refusal, Reply};

// 13, then 14 over all the path, then 15 over all its pairs.
pub fn path_refusal(path: &[u32]) -> Reply
    ensures { result ≡ path_reply path.now }
{
    let count = path.len();
    if count % 2 == 1 {
        return Err(Refusal::OddPath { count });
    }
    for (position, id) in path.iter().enumerate() {
        if IDS <= *id {
            return Err(Refusal::NoSuchId { position, id: *id });
        }
    }
    for k in 0..count / 2 {
        let position = 2 * k;
        let id = path[position];
        if id == path[position + 1] {
            return Err(Refusal::SelfPair { position, id });
        }
    }
    Ok(())
}
