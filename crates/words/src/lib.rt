// Numbers of four bytes, lowest byte first, read and written whole or not at all.
#![tactic(auto)]

ghost use Rattle.std.specs.Prelude.{◌≡◌};
ghost use Rattle.std.specs.Iterator.{YieldsFirst, item_count};
ghost use Rattle.words.specs.Words.{word, numbers, put_word};

use limits::NONE;

// Number k of the bytes; none where its four bytes are not all there. None is a number, as document 01 has it and `word`
// says: it is no route, where a 0 would be one.
pub fn word_at(s: &[u8], k: usize) -> u32
    ensures { result ≡ word s.now k }
{
    if k < s.len() / 4 {
        let i = 4 * k;
        return u32::from_le_bytes([s[i], s[i + 1], s[i + 2], s[i + 3]]);
    }
    NONE
}

// The numbers of the bytes, in order.
pub fn numbers_of(s: &[u8]) -> Numbers
    ensures { result.rest.now ≡ s.now }
{
    Numbers { rest: s }
}

// The numbers of what is left of the bytes, read one after the other.
#[derive(Drop)]
pub struct Numbers<'a> {
    rest: &'a [u8],
}

impl<'a> Iterator for Numbers<'a> {
    type Item = u32;

    ghost next_gives = { YieldsFirst (λ s. numbers s.rest.now) };

    ghost remaining = { item_count (λ s. numbers s.rest.now) };

    fn next(&mut self) -> Option<u32> {
        let (bytes, rest) = self.rest.split_first_chunk::<4>()?;
        self.rest = rest;
        Some(u32::from_le_bytes(*bytes))
    }
}

// Number k of the bytes set to x; where its four bytes are not all there, nothing.
pub fn put_word(s: &mut [u8], k: usize, x: u32)
    ensures { s.new ≡ put_word s.old k x }
{
    if k < s.len() / 4 {
        let i = 4 * k;
        s[i..i + 4].copy_from_slice(&x.to_le_bytes());
    }
}
