// Bytes put one after the other into a lent buffer. Every function takes any buffer and any place: what has no room is dropped, and the
// answer is the place after the last byte, or the buffer's length where it is full. So an answer below the length says that all was put.
#![tactic(auto)]

ghost use Rattle.std.specs.Prelude.{◌≡◌, ℕ, List, [], ◌∷◌, ◌++◌, ◌-◌, ◌≤◌, ◌<◌, length, take, drop, replicate};
ghost use Rattle.puts.specs.Puts.{Wrote};
ghost use Rattle.puts.specs.Lines.{Part, numbers_in_row};
ghost use Rattle.puts.specs.Decimals.{decimal_of, signed_text, field_of, fields_of};

// The line feed, which ends every line.
pub const LINE_FEED: u8 = b'\n';

const TEN: u64 = 10;

// The first word of 64 bits that stands for a negative number, in two's complement, and the last word.
const FIRST_NEGATIVE: u64 = 9223372036854775808;

const LAST_WORD: u64 = 18446744073709551615;

// Nothing, at a place: the place, or the buffer's length where that is less.
pub fn put_none(out: &mut [u8], at: usize) -> usize
    ensures { Wrote out.old at [] out.new result }
{
    at.min(out.len())
}

pub fn put_byte(b: u8, out: &mut [u8], at: usize) -> usize
    ensures { Wrote out.old at (b ∷ []) out.new result }
{
    if at < out.len() {
        out[at] = b;
        return at + 1;
    }
    out.len()
}

pub fn put_bytes(s: &[u8], out: &mut [u8], at: usize) -> usize
    ensures { Wrote out.old at s.now out.new result }
{
    let mut w = put_none(out, at);
    for b in s {
        w = put_byte(*b, out, w);
    }
    w
}

// A number in decimal, the last digit after those of a tenth of it.
pub fn put_decimal(n: u64, out: &mut [u8], at: usize) -> usize
    ensures { Wrote out.old at (decimal_of n) out.new result }
{
    if n < TEN {
        return put_byte(b'0' + n as u8, out, at);
    }
    let w = put_decimal(n / TEN, out, at);
    put_byte(b'0' + (n % TEN) as u8, out, w)
}

// "a negative one with a leading `-`": a word of two's complement.
pub fn put_signed(word: u64, out: &mut [u8], at: usize) -> usize
    ensures { Wrote out.old at (signed_text word) out.new result }
{
    if word < FIRST_NEGATIVE {
        return put_decimal(word, out, at);
    }
    let w = put_byte(b'-', out, at);
    put_decimal(LAST_WORD - word + 1, out, w)
}

// "fields are separated by one space"
pub fn put_field(word: u64, out: &mut [u8], at: usize) -> usize
    ensures { Wrote out.old at (field_of word) out.new result }
{
    let w = put_byte(b' ', out, at);
    put_signed(word, out, w)
}

// Each word of a list as a field.
pub fn put_fields(words: &[u64], out: &mut [u8], at: usize) -> usize
    ensures { Wrote out.old at (fields_of words.now) out.new result }
{
    let mut w = put_none(out, at);
    for word in words {
        w = put_field(*word, out, w);
    }
    w
}

// Zeros from a place on.
pub fn clear_from(out: &mut [u8], at: usize)
    ensures { out.new ≡ take at out.old ++ replicate (length out.old - at) 0 }
{
    let from = at.min(out.len());
    out[from..].fill(0);
}

// So many words from a place on, fewer where there are no more.
pub fn words_from(words: &[u64], from: usize, n: usize) -> &[u64]
    ensures { result.now ≡ take n (drop from words.now) }
{
    let rest = &words[from.min(words.len())..];
    &rest[..n.min(rest.len())]
}

// A part of a listing in a buffer: the line to go on with, how many bytes of the buffer are used, and how many lines are left.
#[repr(C)]
#[derive(Clone, Copy)]
pub struct Filled {
    pub next: usize,
    pub used: usize,
    pub left: usize,
}

// The part that ends before a line, in so many bytes: the rest of the buffer is cleared.
pub fn ended(next: usize, to: usize, out: &mut [u8], used: usize) -> Filled
    ensures value { result ≡ record { next = next; used = used; left = to - next } }
    ensures out_after { out.new ≡ take used out.old ++ replicate (length out.old - used) 0 }
{
    clear_from(out, used);
    Filled {
        next: next,
        used: used,
        left: to.saturating_sub(next),
    }
}

// A listing is its lines by their numbers, each of which can be put.
pub trait Listing {
    ghost line: { Self → ℕ → List ℕ };

    fn put_line(&self, i: usize, out: &mut [u8], at: usize) -> usize
        ensures { Wrote out.old at (line self.now i) out.new result };
}

// The part of a listing from a line up to another: as many whole lines as the buffer has room for.
pub fn fill<L: Listing>(listing: &L, from: usize, to: usize, out: &mut [u8]) -> Filled
    ensures { Part (L.line listing.now) from to (length out.old) result out.new }
{
    let mut w = 0;
    for i in from..to {
        let r = listing.put_line(i, out, w);
        if out.len() <= r {
            return ended(i, to, out, w);
        }
        w = r;
    }
    ended(to.max(from), to, out, w)
}

// The numbers of a row of a table whose rows have so many, none where the table has no such row.
pub fn numbers_at(table: &[u64], width: usize, i: usize) -> &[u64]
    ensures { result.now ≡ numbers_in_row table.now width i }
{
    if width != 0 && i < table.len() / width {
        return words_from(table, width * i, width);
    }
    &[]
}
