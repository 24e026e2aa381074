// The words that the line of an item has in every listing, put into a lent buffer: what it is, its name, its value. Every function takes any
// bytes, numbers and buffer, and puts what specs/LineWords.antt defines.
#![tactic(auto)]

ghost use Rattle.puts.specs.Puts.{Wrote};
ghost use Rattle.item_words.specs.LineWords.{stretch_of, claim_text, folded_text, upper_of, value_text};

use places::BytePlace;

// So many bytes from a place on, none where they reach outside.
pub fn put_stretch(s: &[u8], place: BytePlace, size: u64, out: &mut [u8], at: usize) -> usize
    ensures { Wrote out.old at (stretch_of s.now place.0 size) out.new result }
{
    if places::stands(s, place, size) {
        let first = place.0;
        let end = first + size as usize;
        return puts::put_bytes(&s[first..end], out, at);
    }
    puts::put_none(out, at)
}

// What an item is and its name, which stands in the bytes; `-` for one that claims none.
pub fn put_claim(
    s: &[u8],
    class: u64,
    place: BytePlace,
    size: u64,
    out: &mut [u8],
    at: usize,
) -> usize
    ensures { Wrote out.old at (claim_text class (stretch_of s.now place.0 size)) out.new result }
{
    if class == pieces::CONSTANT {
        let w = puts::put_bytes(b" constant ", out, at);
        return put_stretch(s, place, size, out, w);
    }
    if class == pieces::SUBTYPE {
        let w = puts::put_bytes(b" subtype ", out, at);
        return put_stretch(s, place, size, out, w);
    }
    puts::put_bytes(b" piece -", out, at)
}

// A number or, of kind 2, a truth.
fn put_folded(kind: u64, word: u64, out: &mut [u8], at: usize) -> usize
    ensures { Wrote out.old at (folded_text kind word) out.new result }
{
    if kind != integers::KIND_TRUTH {
        return puts::put_signed(word, out, at);
    }
    if word == 0 {
        return puts::put_bytes(b"false", out, at);
    }
    puts::put_bytes(b"true", out, at)
}

// "a subtype `value LOW to HIGH`": its high end.
fn put_upper(class: u64, kind: u64, high: u64, out: &mut [u8], at: usize) -> usize
    ensures { Wrote out.old at (upper_of class kind high) out.new result }
{
    if class == pieces::SUBTYPE {
        let w = puts::put_bytes(b" to ", out, at);
        return put_folded(kind, high, out, w);
    }
    puts::put_none(out, at)
}

pub fn put_value(class: u64, kind: u64, low: u64, high: u64, out: &mut [u8], at: usize) -> usize
    ensures { Wrote out.old at (value_text class kind low high) out.new result }
{
    let a = puts::put_bytes(b" value ", out, at);
    let b = put_folded(kind, low, out, a);
    put_upper(class, kind, high, out, b)
}
