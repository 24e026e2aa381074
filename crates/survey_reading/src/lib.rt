// The survey of a package: its items' records, and what they say together. Any bytes and any tables may be given.
#![tactic(auto)]

ghost use Rattle.std.specs.Prelude.{◌≡◌, ◌*◌, length};
ghost use Rattle.places.specs.Sizes.{most_elements};
ghost use Rattle.forms.specs.RowWords.{row_numbers};
ghost use Rattle.tree.specs.code.PieceRows.{item_rows};
ghost use Rattle.survey_reading.specs.code.Tables.{pair_by, items_survey, items_completed, kept_by_survey, pieces_survey, pieces_items};
ghost use Rattle.survey_reading.specs.code.Survey.{summed_of};
ghost use Rattle.survey_reading.specs.Permitted.{Permitted};

use form_numbers::ROW_NUMBERS;
use pieces::NotRecorded;
use places::{MOST_ELEMENTS, MOST_PIECES};
use records::Tally;
use refusals::SurveyRefusal;

// What the survey says of a package as a whole.
#[derive(Clone, Copy)]
pub struct Summary {
    pub pieces: usize,
    pub frame: bool,
    pub whole: bool,
    pub pair: Option<(usize, usize)>,
    pub tally: Tally,
}

// The first pair: where no name is claimed twice there is none to look for.
fn pair_of(any: bool, owns: &[u64], n: usize) -> Option<(usize, usize)>
    ensures { result ≡ pair_by any owns.now n }
{
    if any {
        return pairs::first_pair(owns, n);
    }
    None
}

// What the elements and the n records say together.
fn summed(
    text: &[u8],
    elements: &[u64],
    count: usize,
    items: &[u64],
    n: usize,
    pair: Option<(usize, usize)>,
) -> Summary
    ensures { result ≡ summed_of text.now elements.now count items.now n pair }
{
    let frame = records::frame_good(text, elements, count);
    let tally = records::tallied(items, n);
    let whole = records::whole(frame, tally);
    Summary {
        pieces: n,
        frame,
        whole,
        pair,
        tally,
    }
}

// The rows of the items. What a reading takes of the stack is given back before the tables after it are made: a call takes at most 1 MB.
#[inline(never)]
fn read_rows(elements: &[u64], count: usize, rows: &mut [u64])
    ensures { rows.new ≡ item_rows elements.now count (length rows.old) }
{
    tree::read_items(elements, count, rows);
}

// The items of n pieces that are marked, once their rows are read.
#[inline(never)]
fn survey_rows(
    text: &[u8],
    elements: &[u64],
    count: usize,
    items: &mut [u64],
    n: usize,
    rows: &[u64],
) -> Summary
    requires { rows.now ≡ item_rows elements.now count (row_numbers * most_elements) }
    ensures value { result ≡ items_survey text.now elements.now count items.old n }
    ensures after { items.new ≡ items_completed text.now elements.now count items.old n }
{
    let mut links = [0u64; MOST_ELEMENTS];
    let mut owns = [0u64; MOST_PIECES];
    let mut twins = [0u64; MOST_PIECES];
    let any = names::link_names(
        text, elements, count, items, &mut links, &mut owns, &mut twins,
    );
    items::complete_items(text, elements, &links, &twins, rows, items, n);
    let pair = pair_of(any, &owns, n);
    summed(text, elements, count, items, n, pair)
}

// The items of n pieces that are marked.
fn survey_items(text: &[u8], elements: &[u64], count: usize, items: &mut [u64], n: usize) -> Summary
    ensures value { result ≡ items_survey text.now elements.now count items.old n }
    ensures after { items.new ≡ items_completed text.now elements.now count items.old n }
{
    let mut rows = [0u64; ROW_NUMBERS * MOST_ELEMENTS];
    read_rows(elements, count, &mut rows);
    survey_rows(text, elements, count, items, n, &rows)
}

// The pieces of a text's elements.
fn survey_pieces(
    text: &[u8],
    elements: &mut [u64],
    count: usize,
    items: &mut [u64],
) -> Result<Summary, SurveyRefusal>
    ensures value { result ≡ pieces_survey text.now elements.old count (length items.old) }
    ensures elements_after { elements.new ≡ kept_by_survey (pieces_survey text.now elements.old count (length items.old)) elements.old }
    ensures after { items.new ≡ pieces_items text.now elements.old count (length items.old) }
{
    match pieces::record_pieces(elements, count, items) {
        Ok(n) => Ok(survey_items(text, elements, count, items, n)),
        Err(NotRecorded::TooMany) => {
            lent_tables::clear(elements);
            Err(SurveyRefusal::TooMany)
        }
        Err(NotRecorded::TableShort(rows)) => {
            lent_tables::clear(elements);
            Err(SurveyRefusal::ItemsShort(rows))
        }
    }
}

// The survey of a text: element table and item table are lent, and all zeros on a refusal.
pub fn read_survey(
    text: &[u8],
    elements: &mut [u64],
    items: &mut [u64],
) -> Result<Summary, SurveyRefusal>
    ensures { Permitted text.now (length elements.old) (length items.old) result elements.new items.new }
{
    match element_reading::read_elements(text, elements) {
        Ok(count) => survey_pieces(text, elements, count.0, items),
        Err(r) => {
            lent_tables::clear(items);
            Err(SurveyRefusal::Elements(r))
        }
    }
}
