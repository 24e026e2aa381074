// The lines of a survey's records, its tally and its pair, put into a lent buffer. Every function takes any table, numbers and buffer, and
// puts what specs/Lines.antt defines.
#![tactic(auto)]

ghost use Rattle.std.specs.Prelude.{◌≡◌, ◌<◌, ◌/◌, length};
ghost use Rattle.pieces.specs.Records.{record_words};
ghost use Rattle.puts.specs.Puts.{Wrote};
ghost use Rattle.puts.specs.Lines.{Part};
ghost use Rattle.record_lines.specs.Lines.{frame_text, head_of, first_of, record_fields, tally_text, both_of, pair_text, records_listed, last_of, record_line, record_lines};

use pieces::RECORD_WORDS;
use puts::{Filled, Listing};
use refused_line::{COUNT, WHOLE};
use states::STATES;

// Where a survey's answer has frame, the pair with its two pieces, and the tally.
const FRAME: usize = 3;

const PAIR: usize = 5;

const EARLIER: usize = 6;

const LATER: usize = 7;

const TALLY: usize = 8;

// The head, the tally and the pair.
const BESIDE_RECORDS: usize = 3;

fn put_frame(frame: u64, out: &mut [u8], at: usize) -> usize
    ensures { Wrote out.old at (frame_text frame) out.new result }
{
    if frame == 1 {
        return puts::put_bytes(b" frame good", out, at);
    }
    puts::put_bytes(b" frame bad", out, at)
}

// The first line.
pub fn put_head(pieces: u64, frame: u64, whole: u64, out: &mut [u8], at: usize) -> usize
    ensures { Wrote out.old at (head_of pieces frame whole) out.new result }
{
    let a = puts::put_bytes(b"pieces ", out, at);
    let b = puts::put_decimal(pieces, out, a);
    let c = put_frame(frame, out, b);
    refused_line::put_whole(whole, out, c)
}

// The line of a record: its piece's number and its eight numbers.
pub fn put_record(items: &[u64], i: usize, out: &mut [u8], at: usize) -> usize
    ensures { Wrote out.old at (record_fields items.now i) out.new result }
{
    let a = puts::put_decimal(i as u64, out, at);
    let b = puts::put_fields(puts::numbers_at(items, RECORD_WORDS, i), out, a);
    puts::put_byte(puts::LINE_FEED, out, b)
}

// The tally's line, of an answer lent as its words.
pub fn put_tally(answer: &[u64], out: &mut [u8], at: usize) -> usize
    ensures { Wrote out.old at (tally_text answer.now) out.new result }
{
    let a = puts::put_bytes(b"tally", out, at);
    let b = puts::put_fields(puts::words_from(answer, TALLY, STATES), out, a);
    puts::put_byte(puts::LINE_FEED, out, b)
}

fn put_both(earlier: u64, later: u64, out: &mut [u8], at: usize) -> usize
    ensures { Wrote out.old at (both_of earlier later) out.new result }
{
    let a = puts::put_bytes(b"pair", out, at);
    let b = puts::put_field(earlier, out, a);
    let c = puts::put_field(later, out, b);
    puts::put_byte(puts::LINE_FEED, out, c)
}

// The pair's line.
pub fn put_pair(pair: u64, earlier: u64, later: u64, out: &mut [u8], at: usize) -> usize
    ensures { Wrote out.old at (pair_text pair earlier later) out.new result }
{
    if pair == 1 {
        return put_both(earlier, later, out, at);
    }
    puts::put_bytes(b"pair none\n", out, at)
}

// What stands after the records: the tally, and then the pair.
fn put_last(answer: &[u64], n: usize, i: usize, out: &mut [u8], at: usize) -> usize
    requires { n < i }
    ensures { Wrote out.old at (last_of answer.now n i) out.new result }
{
    if i - 1 == n {
        return put_tally(answer, out, at);
    }
    let pair = lent_tables::word_at(answer, PAIR);
    let earlier = lent_tables::word_at(answer, EARLIER);
    put_pair(pair, earlier, lent_tables::word_at(answer, LATER), out, at)
}

// How many records are listed.
fn records_listed(items: &[u64], answer: &[u64]) -> usize
    ensures { result ≡ records_listed items.now answer.now }
{
    let pieces = lent_tables::word_at(answer, COUNT) as usize;
    pieces.min(items.len() / RECORD_WORDS)
}

// The first line, of an answer lent as its words.
fn put_first(answer: &[u64], out: &mut [u8], at: usize) -> usize
    ensures { Wrote out.old at (first_of answer.now) out.new result }
{
    let pieces = lent_tables::word_at(answer, COUNT);
    let frame = lent_tables::word_at(answer, FRAME);
    put_head(pieces, frame, lent_tables::word_at(answer, WHOLE), out, at)
}

// A line by its number: a refusal's, the head, that of the record before, the tally's or the pair's.
fn put_record_line(items: &[u64], answer: &[u64], i: usize, out: &mut [u8], at: usize) -> usize
    ensures { Wrote out.old at (record_line items.now answer.now i) out.new result }
{
    if let Some(end) = refused_line::put_refusal(answer, out, at) {
        return end;
    }
    if i == 0 {
        return put_first(answer, out, at);
    }
    let n = records_listed(items, answer);
    if i <= n {
        return put_record(items, i - 1, out, at);
    }
    put_last(answer, n, i, out, at)
}

// How many lines there are.
fn record_lines(items: &[u64], answer: &[u64]) -> usize
    ensures { result ≡ record_lines items.now answer.now }
{
    let pieces = lent_tables::word_at(answer, COUNT) as usize;
    let n = pieces.min(items.len() / RECORD_WORDS);
    refused_line::lines_by(answer, n + BESIDE_RECORDS)
}

// Records to list, and the answer that they were given with.
#[derive(Clone, Copy)]
struct RecordListing<'a> {
    items: &'a [u64],
    answer: &'a [u64],
}

impl<'a> Listing for RecordListing<'a> {
    ghost line = { λ x. record_line x.items.now x.answer.now };

    fn put_line(&self, i: usize, out: &mut [u8], at: usize) -> usize
        ensures { Wrote out.old at (record_line self.now.items.now self.now.answer.now i) out.new result }
    {
        put_record_line(self.items, self.answer, i, out, at)
    }
}

// The records of a survey from a line on, as many whole lines as the buffer has room for. The answer is lent as its words.
pub fn fill_records(items: &[u64], answer: &[u64], from: usize, out: &mut [u8]) -> Filled
    ensures { Part (record_line items.now answer.now) from (record_lines items.now answer.now) (length out.old) result out.new }
{
    let listing = RecordListing { items, answer };
    puts::fill(&listing, from, record_lines(items, answer), out)
}
