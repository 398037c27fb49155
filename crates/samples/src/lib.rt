// What the programs of the tests have in common beside printing: sheets that they write into memory, and the numbers of
// recorded texts and of answers that they read. Nothing is asked of a caller: what finds no room is not put.
#![tactic(auto)]

ghost use Rattle.std.specs.Prelude.{◌≡◌};
ghost use Rattle.words.specs.Words.{put_word};

use limits::{NONE, ROUTES};
use words::{put_word, word_at};

// Room for the largest sheet that is accepted.
pub const LARGE: usize = 8 + 4 * ROUTES * ROUTES;

// Room for forty numbers.
pub const SMALL: usize = 160;

// A budget that sets no limit.
pub const ALL: u32 = 4294967295;

// Entry numbers end here: no sheet that is accepted has as many entries.
const ENTRIES: u32 = (ROUTES * ROUTES) as u32;

// The first bytes of a slice, all of them where there are fewer.
pub fn front(s: &[u8], bytes: usize) -> &[u8] {
    s.get(..bytes).unwrap_or(s)
}

// The same of a small sheet.
pub fn small(s: &[u8; SMALL], bytes: usize) -> &[u8] {
    front(s, bytes)
}

// The length of a sheet of n routes and so many entries.
pub fn sheet_length(n: u32, total: u32) -> usize {
    8 + 4 * (n as usize) + 4 * (total as usize)
}

// The words put one after the other, from number `at` on; the other bytes stay as they are.
pub fn put_words(s: &mut [u8; SMALL], at: usize, words: &[u32]) {
    if SMALL < at {
        return;
    }
    for (k, x) in words.iter().enumerate() {
        put_word(s, at + k, *x);
    }
}

// The sheet of ten routes, of 136 bytes: a ring of five, a route joined to two of its routes, and an end on either side.
pub fn put_ten(s: &mut [u8; SMALL]) {
    put_words(s, 0, &[10, 0, 1, 3, 6, 9, 11, 13, 16, 19, 21, 22]);
    // rows [1] [0,2] [1,3,6] [2,4,7] [3,5]
    put_words(s, 12, &[1, 0, 2, 1, 3, 6, 2, 4, 7, 3, 5]);
    // rows [4,6] [2,5,7] [3,6,8] [7,9] [8]
    put_words(s, 23, &[4, 6, 2, 5, 7, 3, 6, 8, 7, 9, 8]);
}

// x put as entry number e of a sheet of n routes. The answer is the next entry's number.
pub fn put_entry(s: &mut [u8; LARGE], n: u32, e: u32, x: u32) -> u32 {
    put_word(s, n as usize + 2 + e as usize, x);
    if e < ENTRIES { e + 1 } else { e }
}

// Row v of the sheet in which all of n routes are joined, from entry number e on: the other routes, rising. The answer is
// the number of the next row's first entry.
fn put_others(s: &mut [u8; LARGE], n: u32, e: u32, v: u32) -> u32 {
    let mut f = e;
    for w in 0..n {
        if w != v {
            f = put_entry(s, n, f, w);
        }
    }
    f
}

// The sheet in which all of n routes are joined. The answer is how many entries it has.
pub fn put_all(s: &mut [u8; LARGE], n: u32) -> u32 {
    put_word(s, 0, n);
    put_word(s, 1, 0);
    let mut e = 0;
    for v in 0..n {
        e = put_others(s, n, e, v);
        put_word(s, v as usize + 2, e);
    }
    e
}

// v and w made partners in the bytes of a pairing.
pub fn put_pair(pairing: &mut [u8], v: u32, w: u32)
    ensures { pairing.new ≡ put_word (put_word pairing.old v w) w v }
{
    put_word(pairing, v as usize, w);
    put_word(pairing, w as usize, v);
}

// Number k of an answer, of eight bytes.
pub fn long_at(answer: &[u8], k: u32) -> u64 {
    let low = 2 * (k as usize);
    u64::from(word_at(answer, low)) + 4294967296 * u64::from(word_at(answer, low + 1))
}

// Whether a byte is a digit.
pub fn is_digit(byte: u8) -> bool {
    byte.is_ascii_digit()
}

// One more digit; a number that would be too long for four bytes stays.
pub fn with_digit(x: u32, byte: u8) -> u32 {
    if byte < b'0' {
        return x;
    }
    let y = 10 * u64::from(x) + u64::from(byte - b'0');
    u32::try_from(y).unwrap_or(x)
}

// A number, and the place behind it.
#[derive(Clone, Copy)]
pub struct Read {
    pub x: u32,
    pub next: usize,
}

// The place of the first digit from a place on.
pub fn digit_from(s: &[u8], at: usize) -> Option<usize> {
    for i in at..s.len() {
        if is_digit(s[i]) {
            return Some(i);
        }
    }
    None
}

// The number whose digits begin at a place.
fn digits(s: &[u8], at: usize) -> Read {
    let mut x = 0;
    for i in at..s.len() {
        if !is_digit(s[i]) {
            return Read { x, next: i };
        }
        x = with_digit(x, s[i]);
    }
    Read { x, next: s.len() }
}

// The first number from a place on. Where there is none, it is the number for none: the programs put it into a sheet as it is,
// so that any line of theirs is a sheet.
pub fn number_from(s: &[u8], at: usize) -> Read {
    match digit_from(s, at) {
        Some(first) => digits(s, first),
        None => Read {
            x: NONE,
            next: s.len(),
        },
    }
}

// The place of the first such byte of a line.
pub fn place_of(line: &[u8], byte: u8) -> Option<usize> {
    line.iter().position(|b| *b == byte)
}

// The numbers of a line from a place on, put as the first words of a sheet: forty at most.
pub fn put_numbers(s: &mut [u8; LARGE], line: &[u8], at: usize) {
    let mut next = at;
    for k in 0..40 {
        let Some(first) = digit_from(line, next) else {
            return;
        };
        let r = digits(line, first);
        put_word(s, k, r.x);
        next = r.next;
    }
}

// Whether a line holds something: it is not empty, and no comment, which begins with #.
pub fn is_told(line: &[u8]) -> bool {
    line.first().is_some_and(|b| *b != b'#')
}
