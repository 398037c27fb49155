// Numbers of eight bytes, lowest byte first, written whole or not at all. Those of four bytes stand in the crate
// `words`.
#![tactic(auto)]

ghost use Rattle.std.specs.Prelude.{◌≡◌};
ghost use Rattle.longs.specs.Longs.{put_long};

// Long number k of the bytes, of eight bytes, set to x; where its eight bytes are not all there, nothing. `put_word` of
// `words` is the same of four bytes; each has its definition, and one over both widths would be longer than the two.
pub fn put_long(s: &mut [u8], k: usize, x: u64)
    ensures { s.new ≡ put_long s.old k x }
{
    if k < s.len() / 8 {
        let i = 8 * k;
        s[i..i + 8].copy_from_slice(&x.to_le_bytes());
    }
}
