// The lines of a stored table that was read, put into a lent buffer. Every function takes any bytes, tables, numbers and buffer, and puts what
// specs/Lines.antt defines.
#![tactic(auto)]

ghost use Rattle.std.specs.Prelude.{◌≡◌, length};
ghost use Rattle.puts.specs.Puts.{Wrote};
ghost use Rattle.puts.specs.Lines.{Part};
ghost use Rattle.stored_lines.specs.Lines.{row_word, count_text, stored_head, stored_item, stored_line, stored_lines};

use places::BytePlace;
use puts::{Filled, Listing};
use refused_line::COUNT;
use stored_reading::ROW_WORDS;

// Where the answer has the place of the package's name, and its length.
const NAME_FIRST: usize = 3;

const NAME_LENGTH: usize = 4;

// Word j of row i, 0 where there is no such row.
fn word(rows: &[u64], i: usize, j: usize) -> u64
    ensures { result ≡ row_word rows.now i j }
{
    lent_tables::word_in::<ROW_WORDS>(rows, i, j)
}

fn put_count(items: u64, out: &mut [u8], at: usize) -> usize
    ensures { Wrote out.old at (count_text items) out.new result }
{
    let a = puts::put_bytes(b" items ", out, at);
    let b = puts::put_decimal(items, out, a);
    puts::put_byte(puts::LINE_FEED, out, b)
}

// The first line.
pub fn put_head(bytes: &[u8], answer: &[u64], out: &mut [u8], at: usize) -> usize
    ensures { Wrote out.old at (stored_head bytes.now answer.now) out.new result }
{
    let first = lent_tables::word_at(answer, NAME_FIRST) as usize;
    let size = lent_tables::word_at(answer, NAME_LENGTH);
    let items = lent_tables::word_at(answer, COUNT);
    let a = puts::put_bytes(b"package ", out, at);
    let b = item_words::put_stretch(bytes, BytePlace(first), size, out, a);
    put_count(items, out, b)
}

// The line of an item.
pub fn put_item(bytes: &[u8], rows: &[u64], i: usize, out: &mut [u8], at: usize) -> usize
    ensures { Wrote out.old at (stored_item bytes.now rows.now i) out.new result }
{
    let class = word(rows, i, stored_reading::CLASS);
    let first = word(rows, i, stored_reading::NAME_PLACE) as usize;
    let size = word(rows, i, stored_reading::NAME_SIZE);
    let kind = word(rows, i, stored_reading::KIND);
    let low = word(rows, i, stored_reading::LOW);
    let high = word(rows, i, stored_reading::HIGH);
    let a = puts::put_decimal(i as u64, out, at);
    let b = item_words::put_claim(bytes, class, BytePlace(first), size, out, a);
    let c = item_words::put_value(class, kind, low, high, out, b);
    puts::put_byte(puts::LINE_FEED, out, c)
}

// A line by its number: a refusal's, the head, or that of the item before.
fn put_stored_line(
    bytes: &[u8],
    rows: &[u64],
    answer: &[u64],
    i: usize,
    out: &mut [u8],
    at: usize,
) -> usize
    ensures { Wrote out.old at (stored_line bytes.now rows.now answer.now i) out.new result }
{
    if let Some(end) = refused_line::put_refusal(answer, out, at) {
        return end;
    }
    if i == 0 {
        return put_head(bytes, answer, out, at);
    }
    put_item(bytes, rows, i - 1, out, at)
}

// How many lines there are.
fn stored_lines(rows: &[u64], answer: &[u64]) -> usize
    ensures { result ≡ stored_lines rows.now answer.now }
{
    let items = lent_tables::word_at(answer, COUNT) as usize;
    let listed = items.min(rows.len() / ROW_WORDS);
    refused_line::lines_by(answer, listed + 1)
}

// A stored table to list: its bytes, the rows, and the answer that they were given with.
#[derive(Clone, Copy)]
struct StoredListing<'a> {
    bytes: &'a [u8],
    rows: &'a [u64],
    answer: &'a [u64],
}

impl<'a> Listing for StoredListing<'a> {
    ghost line = { λ x. stored_line x.bytes.now x.rows.now x.answer.now };

    fn put_line(&self, i: usize, out: &mut [u8], at: usize) -> usize
        ensures { Wrote out.old at (stored_line self.now.bytes.now self.now.rows.now self.now.answer.now i) out.new result }
    {
        put_stored_line(self.bytes, self.rows, self.answer, i, out, at)
    }
}

// What is printed of a stored table from a line on, as many whole lines as the buffer has room for. The answer is lent as its words.
pub fn fill_stored(
    bytes: &[u8],
    rows: &[u64],
    answer: &[u64],
    from: usize,
    out: &mut [u8],
) -> Filled
    ensures { Part (stored_line bytes.now rows.now answer.now) from (stored_lines rows.now answer.now) (length out.old) result out.new }
{
    let listing = StoredListing {
        bytes,
        rows,
        answer,
    };
    puts::fill(&listing, from, stored_lines(rows, answer), out)
}
