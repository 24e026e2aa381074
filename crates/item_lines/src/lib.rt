// The lines of a survey's listing, put into a lent buffer. Every function takes any text, tables, numbers and buffer, and puts what
// specs/Lines.antt defines.
#![tactic(auto)]

ghost use Rattle.std.specs.Prelude.{◌≡◌, length};
ghost use Rattle.puts.specs.Puts.{Wrote};
ghost use Rattle.puts.specs.Lines.{Part};
ghost use Rattle.item_words.specs.LineWords.{claim_text};
ghost use Rattle.item_lines.specs.Lines.{spelled_of, state_word, result_of, item_of, line_of, head_of, survey_line, survey_lines};

use pieces::RECORD_WORDS;
use places::ElementNumber;
use puts::{Filled, Listing};
use refused_line::{COUNT, WHOLE};

// The states, by the words of a record.
const BROKEN: u64 = states::BROKEN as u64;

const DOUBLED: u64 = states::DOUBLED as u64;

const UNFOLDED: u64 = states::UNFOLDED as u64;

const UNKNOWN: u64 = states::UNKNOWN as u64;

const LEANS: u64 = states::LEANS as u64;

const KIND: u64 = states::KIND as u64;

const DIVISOR: u64 = states::DIVISOR as u64;

const EXPONENT: u64 = states::EXPONENT as u64;

const SIZE: u64 = states::SIZE as u64;

// "Names print as spelled": what an item is, and its name, an element of the text.
fn put_named(
    text: &[u8],
    elements: &[u64],
    class: u64,
    name: ElementNumber,
    out: &mut [u8],
    at: usize,
) -> usize
    ensures { Wrote out.old at (claim_text class (spelled_of text.now elements.now name.0)) out.new result }
{
    let place = places::place_of(elements, name);
    let size = places::size_of(elements, name);
    item_words::put_claim(text, class, place, size, out, at)
}

// "states by their word"
pub fn put_state(state: u64, out: &mut [u8], at: usize) -> usize
    ensures { Wrote out.old at (state_word state) out.new result }
{
    match state {
        0 => puts::put_none(out, at),
        BROKEN => puts::put_bytes(b" broken", out, at),
        DOUBLED => puts::put_bytes(b" doubled", out, at),
        UNFOLDED => puts::put_bytes(b" unfolded", out, at),
        UNKNOWN => puts::put_bytes(b" unknown", out, at),
        LEANS => puts::put_bytes(b" leans", out, at),
        KIND => puts::put_bytes(b" kind", out, at),
        DIVISOR => puts::put_bytes(b" divisor", out, at),
        EXPONENT => puts::put_bytes(b" exponent", out, at),
        SIZE => puts::put_bytes(b" size", out, at),
        _ => puts::put_bytes(b" range", out, at),
    }
}

// The value, or the state's word.
fn put_result(items: &[u64], i: usize, out: &mut [u8], at: usize) -> usize
    ensures { Wrote out.old at (result_of items.now i) out.new result }
{
    let state = records::word(items, i, pieces::STATE);
    if state == 0 {
        return item_words::put_value(
            records::word(items, i, pieces::CLASS),
            records::word(items, i, pieces::KIND),
            records::word(items, i, pieces::LOW),
            records::word(items, i, pieces::HIGH),
            out,
            at,
        );
    }
    put_state(state, out, at)
}

fn put_item(
    text: &[u8],
    elements: &[u64],
    items: &[u64],
    i: usize,
    out: &mut [u8],
    at: usize,
) -> usize
    ensures { Wrote out.old at (item_of text.now elements.now items.now i) out.new result }
{
    let a = puts::put_decimal(i as u64, out, at);
    let name = records::word(items, i, pieces::NAME) as usize;
    let b = put_named(
        text,
        elements,
        records::word(items, i, pieces::CLASS),
        ElementNumber(name),
        out,
        a,
    );
    let c = put_result(items, i, out, b);
    puts::put_byte(puts::LINE_FEED, out, c)
}

// The line of an item; a heading or a closing has none.
pub fn put_line(
    text: &[u8],
    elements: &[u64],
    items: &[u64],
    i: usize,
    out: &mut [u8],
    at: usize,
) -> usize
    ensures { Wrote out.old at (line_of text.now elements.now items.now i) out.new result }
{
    if records::is_item(records::word(items, i, pieces::CLASS)) {
        return put_item(text, elements, items, i, out, at);
    }
    puts::put_none(out, at)
}

// The listing's first line.
pub fn put_head(pieces: u64, whole: u64, out: &mut [u8], at: usize) -> usize
    ensures { Wrote out.old at (head_of pieces whole) out.new result }
{
    let a = puts::put_bytes(b"pieces ", out, at);
    let b = puts::put_decimal(pieces, out, a);
    refused_line::put_whole(whole, out, b)
}

// A line by its number: a refusal's, the head, or that of the record before.
fn put_survey_line(
    text: &[u8],
    elements: &[u64],
    items: &[u64],
    answer: &[u64],
    i: usize,
    out: &mut [u8],
    at: usize,
) -> usize
    ensures { Wrote out.old at (survey_line text.now elements.now items.now answer.now i) out.new result }
{
    if let Some(end) = refused_line::put_refusal(answer, out, at) {
        return end;
    }
    if i == 0 {
        let pieces = lent_tables::word_at(answer, COUNT);
        return put_head(pieces, lent_tables::word_at(answer, WHOLE), out, at);
    }
    put_line(text, elements, items, i - 1, out, at)
}

// How many lines there are.
fn survey_lines(items: &[u64], answer: &[u64]) -> usize
    ensures { result ≡ survey_lines items.now answer.now }
{
    let pieces = lent_tables::word_at(answer, COUNT) as usize;
    let records = pieces.min(items.len() / RECORD_WORDS);
    refused_line::lines_by(answer, records + 1)
}

// A survey to list: the text, its tables, and the answer that they were given with.
#[derive(Clone, Copy)]
struct SurveyListing<'a> {
    text: &'a [u8],
    elements: &'a [u64],
    items: &'a [u64],
    answer: &'a [u64],
}

impl<'a> Listing for SurveyListing<'a> {
    ghost line = { λ x. survey_line x.text.now x.elements.now x.items.now x.answer.now };

    fn put_line(&self, i: usize, out: &mut [u8], at: usize) -> usize
        ensures { Wrote out.old at (survey_line self.now.text.now self.now.elements.now self.now.items.now self.now.answer.now i) out.new result }
    {
        let SurveyListing {
            text,
            elements,
            items,
            answer,
        } = *self;
        put_survey_line(text, elements, items, answer, i, out, at)
    }
}

// The listing of a survey from a line on, as many whole lines as the buffer has room for. The answer is lent as its words.
pub fn fill_survey(
    text: &[u8],
    elements: &[u64],
    items: &[u64],
    answer: &[u64],
    from: usize,
    out: &mut [u8],
) -> Filled
    ensures { Part (survey_line text.now elements.now items.now answer.now) from (survey_lines items.now answer.now) (length out.old) result out.new }
{
    let listing = SurveyListing {
        text,
        elements,
        items,
        answer,
    };
    puts::fill(&listing, from, survey_lines(items, answer), out)
}
