// The numbers of an answer of the exported calls, eight bytes each: the first three, which every call answers, the four
// that improve answers after them, and the surplus in two's complement. The calls themselves stand in the crate `wisharek`.
#![tactic(auto)]

ghost use Rattle.std.specs.Prelude.{◌≡◌, ◌≤◌};
ghost use Rattle.std.proofs.Math.IntN.{sub_ℕ};
ghost use Rattle.limits.specs.Limits.{routes};
ghost use Rattle.longs.specs.Longs.{put_long};
ghost use Rattle.answers.specs.Twos.{twos};

use limits::Told;
use longs::put_long;

// The first three numbers of an answer.
pub fn put_told(answer: &mut [u8], t: Told)
    ensures { answer.new ≡ put_long (put_long (put_long answer.old 0 t.no) 1 t.a) 2 t.b }
{
    put_long(answer, 0, u64::from(t.no));
    put_long(answer, 1, t.a);
    put_long(answer, 2, t.b);
}

// The four numbers that improve answers after the first three; finished is one of them, 1 or 0.
pub fn put_more(answer: &mut [u8], added: u32, size: u32, finished: u32, sessions: u32)
    ensures { answer.new ≡ put_long (put_long (put_long (put_long answer.old 3 added) 4 size) 5 finished) 6 sessions }
{
    put_long(answer, 3, u64::from(added));
    put_long(answer, 4, u64::from(size));
    put_long(answer, 5, u64::from(finished));
    put_long(answer, 6, u64::from(sessions));
}

// The difference of two counts in two's complement.
pub fn twos_of(odd: u32, size: u32) -> u64
    requires { (odd ≤ routes) × (size ≤ routes) }
    ensures { result ≡ twos (sub_ℕ odd size) }
{
    u64::from(odd).wrapping_sub(u64::from(size))
}
