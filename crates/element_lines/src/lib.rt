// The lines of the listing of a text's elements, put into a lent buffer. Every function takes any table, numbers and buffer, and puts what
// specs/Lines.antt defines.
#![tactic(auto)]

ghost use Rattle.std.specs.Prelude.{◌≡◌, length};
ghost use Rattle.puts.specs.Puts.{Wrote};
ghost use Rattle.puts.specs.Lines.{Part};
ghost use Rattle.element_lines.specs.Lines.{kind_word, places_of, element_of, head_of, element_line, element_lines};

use places::{BytePlace, ElementNumber};
use puts::{Filled, Listing};
use refused_line::COUNT;

// The word for a kind's number.
pub fn put_kind(kind: u64, out: &mut [u8], at: usize) -> usize
    ensures { Wrote out.old at (kind_word kind) out.new result }
{
    match kind {
        0 => puts::put_none(out, at),
        places::IDENTIFIER => puts::put_bytes(b" identifier", out, at),
        places::EXTENDED => puts::put_bytes(b" extended", out, at),
        places::INTEGER_LITERAL => puts::put_bytes(b" integer", out, at),
        places::REAL => puts::put_bytes(b" real", out, at),
        places::CHARACTER => puts::put_bytes(b" character", out, at),
        places::STRING => puts::put_bytes(b" string", out, at),
        places::UNREADABLE => puts::put_bytes(b" unreadable", out, at),
        _ => {
            if kind < places::FIRST_WORD {
                return puts::put_bytes(b" delimiter", out, at);
            }
            puts::put_bytes(b" reserved", out, at)
        }
    }
}

fn put_places(first: BytePlace, size: u64, out: &mut [u8], at: usize) -> usize
    ensures { Wrote out.old at (places_of first.0 size) out.new result }
{
    let a = puts::put_field(first.0 as u64, out, at);
    let b = puts::put_field(size, out, a);
    puts::put_byte(puts::LINE_FEED, out, b)
}

// The line of an element: its number, its kind's word, its first byte and how many it has.
pub fn put_element(table: &[u64], e: ElementNumber, out: &mut [u8], at: usize) -> usize
    ensures { Wrote out.old at (element_of table.now e.0) out.new result }
{
    let a = puts::put_decimal(e.0 as u64, out, at);
    let b = put_kind(places::kind_of(table, e), out, a);
    let first = places::place_of(table, e);
    put_places(first, places::size_of(table, e), out, b)
}

// The listing's first line.
pub fn put_head(elements: u64, out: &mut [u8], at: usize) -> usize
    ensures { Wrote out.old at (head_of elements) out.new result }
{
    let a = puts::put_bytes(b"elements ", out, at);
    let b = puts::put_decimal(elements, out, a);
    puts::put_byte(puts::LINE_FEED, out, b)
}

// A line by its number: a refusal's, the head, or that of the element before.
fn put_element_line(table: &[u64], answer: &[u64], i: usize, out: &mut [u8], at: usize) -> usize
    ensures { Wrote out.old at (element_line table.now answer.now i) out.new result }
{
    if let Some(end) = refused_line::put_refusal(answer, out, at) {
        return end;
    }
    if i == 0 {
        return put_head(lent_tables::word_at(answer, COUNT), out, at);
    }
    let before = i - 1;
    put_element(table, ElementNumber(before), out, at)
}

// How many lines there are.
fn element_lines(table: &[u64], answer: &[u64]) -> usize
    ensures { result ≡ element_lines table.now answer.now }
{
    let elements = lent_tables::word_at(answer, COUNT) as usize;
    let listed = elements.min(places::rows_in(table));
    refused_line::lines_by(answer, listed + 1)
}

// Elements to list, and the answer that they were given with.
#[derive(Clone, Copy)]
struct ElementListing<'a> {
    table: &'a [u64],
    answer: &'a [u64],
}

impl<'a> Listing for ElementListing<'a> {
    ghost line = { λ x. element_line x.table.now x.answer.now };

    fn put_line(&self, i: usize, out: &mut [u8], at: usize) -> usize
        ensures { Wrote out.old at (element_line self.now.table.now self.now.answer.now i) out.new result }
    {
        put_element_line(self.table, self.answer, i, out, at)
    }
}

// The listing of a text's elements from a line on, as many whole lines as the buffer has room for. The answer is lent as its words.
pub fn fill_elements(table: &[u64], answer: &[u64], from: usize, out: &mut [u8]) -> Filled
    ensures { Part (element_line table.now answer.now) from (element_lines table.now answer.now) (length out.old) result out.new }
{
    let listing = ElementListing { table, answer };
    puts::fill(&listing, from, element_lines(table, answer), out)
}
