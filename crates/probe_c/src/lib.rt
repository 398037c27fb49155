// The reader as exported functions: tools/staticlib makes the archive of them that the tests of rust/sheets and the times
// of rust/bench link; no part of the boundary. A library that other crates can cite and an archive are two crates, so the
// functions stand in `probe`, and here each of them has its symbol, makes the same promise, and does no more than call.
#![tactic(auto)]

ghost use Rattle.std.specs.Prelude.{◌≡◌};
ghost use Rattle.replies.specs.Reply.{told_of};
ghost use Rattle.sheet.specs.Reply.{reply_of};

// The reply's number.
#[unsafe(no_mangle)]
pub extern "C" fn probe_number(sheet: &[u8]) -> u32
    ensures { result ≡ (told_of (reply_of sheet.now)).no }
{
    probe::probe_number(sheet)
}

// The reply's A.
#[unsafe(no_mangle)]
pub extern "C" fn probe_a(sheet: &[u8]) -> u64
    ensures { result ≡ (told_of (reply_of sheet.now)).a }
{
    probe::probe_a(sheet)
}

// The reply's B.
#[unsafe(no_mangle)]
pub extern "C" fn probe_b(sheet: &[u8]) -> u64
    ensures { result ≡ (told_of (reply_of sheet.now)).b }
{
    probe::probe_b(sheet)
}
