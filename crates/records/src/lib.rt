// What the item records say together: the tally, and whether the survey is whole; and whether the frame is good, which the pieces say. Every
// public function takes any tables.
#![tactic(auto)]

ghost use Rattle.std.specs.Prelude.{◌≡◌};
ghost use Rattle.records.specs.Records.{word_at, is_item, is_claim, item_state};
ghost use Rattle.records.specs.Tallies.{tally_of};
ghost use Rattle.records.specs.Frames.{name_agrees, frame_good, whole_of};

use pieces::RECORD_WORDS;
use places::ElementNumber;
use states::STATES;

// How many items are in each state.
#[derive(Clone, Copy)]
pub struct Tally {
    pub counts: [u64; STATES],
}

// Word j of record i, 0 where there is no such record.
pub fn word(items: &[u64], i: usize, j: usize) -> u64
    ensures { result ≡ word_at items.now i j }
{
    lent_tables::word_in::<RECORD_WORDS>(items, i, j)
}

pub fn is_item(class: u64) -> bool
    ensures { result ≡ is_item class }
{
    (class == pieces::CONSTANT) | (class == pieces::SUBTYPE) | (class == pieces::UNCLAIMED)
}

pub fn is_claim(class: u64) -> bool
    ensures { result ≡ is_claim class }
{
    (class == pieces::CONSTANT) | (class == pieces::SUBTYPE)
}

// The state of an item; for a record that is none, a number that is no state.
fn state(items: &[u64], i: usize) -> u64
    ensures { result ≡ item_state items.now i }
{
    if is_item(word(items, i, pieces::CLASS)) {
        return word(items, i, pieces::STATE);
    }
    STATES as u64
}

// The tally of the first n records.
pub fn tallied(items: &[u64], n: usize) -> Tally
    ensures { result ≡ tally_of items.now n }
{
    let mut t = Tally {
        counts: [0u64; STATES],
    };
    for i in 0..n {
        let s = state(items, i);
        if s < STATES as u64 {
            t.counts[s as usize] += 1;
        }
    }
    t
}

fn name_agrees(
    text: &[u8],
    elements: &[u64],
    heading: ElementNumber,
    closing: Option<ElementNumber>,
) -> bool
    ensures { result ≡ name_agrees text.now elements.now heading.0 closing }
{
    match closing {
        Some(closing) => same_names::same_name(text, elements, heading, closing),
        None => true,
    }
}

// Whether the pieces of a text's elements make a good frame.
pub fn frame_good(text: &[u8], elements: &[u64], count: usize) -> bool
    ensures { result ≡ frame_good text.now elements.now count }
{
    match pieces::frame_of(elements, count) {
        Some(frame) => name_agrees(text, elements, frame.heading, frame.closing),
        None => false,
    }
}

// Whether the survey is whole: a good frame, and no item in another state than 0.
pub fn whole(frame: bool, t: Tally) -> bool
    ensures { result ≡ whole_of frame t }
{
    frame && t.counts[1..].iter().all(|count| *count == 0)
}
