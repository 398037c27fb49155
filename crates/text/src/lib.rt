// A text in a fixed room. What is put comes after what stands there; where no room is left nothing is put.
// `specs/Put.antt` says so, and a report always has room.
#![tactic(auto)]

ghost use Rattle.std.specs.Prelude.{◌≡◌, [], ◌∷◌, ◌++◌, ◌+◌, ◌<◌, ◌≤◌, length, take, drop};
ghost use Rattle.text.specs.Put.{room, followed_by};
ghost use Rattle.text.specs.Digits.{digits_in, digits, spaced};

use std::marker::Model;

// The bytes that there is room for: the longest report is shorter.
pub const ROOM: usize = 8192;

// The bytes that were put so far, in their order.
#[derive(Drop)]
pub struct Text {
    bytes: [u8; ROOM],
    len: usize,
}

// A clause sees the list of the bytes that were put.
impl Model for Text {
    ghost use Rattle.std.specs.Prelude.{ℕ, List, ◌≡◌, ◌≤◌, length, take};
    ghost use Rattle.text.specs.Put.{room};

    ghost Value = { List ℕ };

    ghost view = { λ t. take t.len t.bytes };

    ghost invariant = { λ t. (length t.bytes ≡ room) × (t.len ≤ room) };
}

impl Text {
    // A text with nothing in it.
    pub fn new() -> Text
        ensures { result ≡ [] }
    {
        Text {
            bytes: [0; ROOM],
            len: 0,
        }
    }

    // The text that stands at the start of a room and has so many bytes, all of the room at most.
    pub fn of(bytes: &[u8; ROOM], len: usize) -> Text
        ensures { result ≡ take len bytes.now }
    {
        Text {
            bytes: *bytes,
            len: ROOM.min(len),
        }
    }

    // The bytes of the text.
    pub fn as_slice(&self) -> &[u8]
        ensures { result.now ≡ self.now }
    {
        &self.bytes[..self.len]
    }

    // The text written at the start of a room; the bytes behind it stay as they are. The answer is how long it is.
    pub fn copy_to(&self, out: &mut [u8; ROOM]) -> usize
        ensures long { result ≡ length self.now }
        ensures fits { result ≤ room }
        ensures written { out.new ≡ self.now ++ drop result out.old }
    {
        out[..self.len].copy_from_slice(&self.bytes[..self.len]);
        self.len
    }

    // One byte.
    pub fn put(&mut self, b: u8)
        ensures { self.new ≡ followed_by self.old (b ∷ []) }
    {
        if self.len < ROOM {
            self.bytes[self.len] = b;
            self.len += 1;
        }
    }

    // A word.
    pub fn put_word(&mut self, word: &[u8])
        ensures { self.new ≡ followed_by self.old word.now }
    {
        for b in word {
            self.put(*b);
        }
    }

    // At most `most` digits of a number, the last ones.
    fn put_digits(&mut self, most: u32, x: u64)
        ensures { self.new ≡ followed_by self.old (digits_in most x) }
    {
        if most == 0 {
            return;
        }
        if 10 <= x {
            self.put_digits(most - 1, x / 10);
        }
        self.put(glyph(x % 10));
    }

    // A number in decimal.
    #[tactic(auto, unfolding(crate::specs::Digits::digits))]
    pub fn put_number(&mut self, x: u64)
        ensures { self.new ≡ followed_by self.old (digits x) }
    {
        self.put_digits(20, x);
    }

    // A number with a space before it.
    #[tactic(auto, using(crate::proofs::Putting::then), unfolding(crate::specs::Digits::spaced))]
    pub fn put_spaced(&mut self, x: u64)
        ensures { self.new ≡ followed_by self.old (spaced x) }
    {
        self.put(b' ');
        self.put_number(x);
    }
}

// A digit.
fn glyph(x: u64) -> u8
    requires { x < 10 }
    ensures { result ≡ 48 + x }
{
    48 + x as u8
}
