// The reader as three functions, for runs from Rust; no part of the boundary. Each call reads the whole sheet and hands
// out one of the three numbers of its reply: three functions, since an exported one hands out one number. The crate
// `probe_c` exports them.
#![tactic(auto)]

ghost use Rattle.std.specs.Prelude.{◌≡◌};
ghost use Rattle.replies.specs.Reply.{told_of};
ghost use Rattle.sheet.specs.Reply.{reply_of};

use limits::tell;
use sheet::check;

// The reply's number.
pub fn probe_number(sheet: &[u8]) -> u32
    ensures { result ≡ (told_of (reply_of sheet.now)).no }
{
    tell(check(sheet)).no
}

// The reply's A.
pub fn probe_a(sheet: &[u8]) -> u64
    ensures { result ≡ (told_of (reply_of sheet.now)).a }
{
    tell(check(sheet)).a
}

// The reply's B.
pub fn probe_b(sheet: &[u8]) -> u64
    ensures { result ≡ (told_of (reply_of sheet.now)).b }
{
    tell(check(sheet)).b
}
