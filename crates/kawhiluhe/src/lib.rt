// What C and Rust programs link: the readers on bytes and lent tables, each answer as numbers, by 01's own where it has them and 0 for what
// is absent; and what the programs print of an answer, line by line. Every function takes any bytes and any tables. include/kawhiluhe.h
// describes the tables' rows.
#![tactic(auto)]

ghost use Rattle.std.specs.Prelude.{◌≡◌, ◌/◌, length};
ghost use Rattle.element_reading.specs.Reading.{reading_of, table_of};
ghost use Rattle.lookup.specs.Lookup.{found_of};
ghost use Rattle.lookup.specs.Structs.{struct_words};
ghost use Rattle.pieces.specs.Records.{record_words};
ghost use Rattle.records.specs.Counting.{one_if};
ghost use Rattle.puts.specs.Lines.{Part};
ghost use Rattle.item_lines.specs.Lines.{survey_line, survey_lines};
ghost use Rattle.record_lines.specs.Lines.{record_line, record_lines};
ghost use Rattle.tree_lines.specs.Lines.{tree_line, tree_lines};
ghost use Rattle.element_lines.specs.Lines.{element_line, element_lines};
ghost use Rattle.stored_lines.specs.Lines.{stored_line, stored_lines};
ghost use Rattle.kawhiluhe.specs.AnswerWords.{element_words, judged_words, surveyed_words, kept_words, unstored_words};
ghost use Rattle.kawhiluhe.specs.AnswerNumbers.{element_numbers, strict_numbers, StrictPermitted, pair_number, earlier_number, later_number, survey_numbers, SurveyPermitted, found_number};
ghost use Rattle.kawhiluhe.specs.StoredNumbers.{bytes_stored, store_numbers, StorePermitted, unstore_numbers, UnstorePermitted, bytes_again, again_numbers, AgainPermitted};

use lookup::Item;
use pieces::RECORD_WORDS;
use places::ElementNumber;
use puts::Filled;
use refusals::{Refusal, StrictRefusal, SurveyRefusal};
use states::STATES;
use stored_reading::{StoredRefusal, StoredTable};
use storing::StoringRefusal;
use storing_again::AgainRefusal;
use strict_reading::Judgement;
use survey_reading::Summary;
use verdict::Verdict;

// How many words each answer has; a survey's end with its tally.
const ELEMENT_WORDS: usize = 3;

const JUDGED_WORDS: usize = 5;

const BESIDE_TALLY: usize = 8;

const SURVEYED_WORDS: usize = BESIDE_TALLY + STATES;

const KEPT_WORDS: usize = 3;

const UNSTORED_WORDS: usize = 5;

// The element reader's answer.
#[repr(C)]
#[derive(Clone, Copy)]
pub struct Elements {
    pub refusal: u64,
    pub place: u64,
    pub elements: u64,
}

// The strict reading's: how many rows the tree has, 1 where the file passes, and where it doesn't the first row that is not supported.
#[repr(C)]
#[derive(Clone, Copy)]
pub struct Judged {
    pub refusal: u64,
    pub place: u64,
    pub rows: u64,
    pub passes: u64,
    pub row: u64,
}

// The survey's: how many pieces there are, 1 where the frame is good and where the survey is whole, 1 where two own items share a name and
// the first such pair of pieces, and how many items are in each state.
#[repr(C)]
#[derive(Clone, Copy)]
pub struct Surveyed {
    pub refusal: u64,
    pub place: u64,
    pub pieces: u64,
    pub frame: u64,
    pub whole: u64,
    pub pair: u64,
    pub earlier: u64,
    pub later: u64,
    pub tally: [u64; STATES],
}

// Storing's: how many bytes were written.
#[repr(C)]
#[derive(Clone, Copy)]
pub struct Kept {
    pub refusal: u64,
    pub place: u64,
    pub bytes: u64,
}

// A stored table's that was read: how many items it has, and where its package's name stands and how long that is.
#[repr(C)]
#[derive(Clone, Copy)]
pub struct Unstored {
    pub refusal: u64,
    pub place: u64,
    pub items: u64,
    pub name: u64,
    pub length: u64,
}

fn element_numbers(r: Result<ElementNumber, Refusal>) -> Elements
    ensures { result ≡ element_numbers r }
{
    match r {
        Ok(e) => Elements {
            refusal: 0,
            place: 0,
            elements: e.0 as u64,
        },
        Err(x) => Elements {
            refusal: refusals::refusal_number(x),
            place: refusals::refusal_place(x) as u64,
            elements: 0,
        },
    }
}

fn rows_judged(rows: u64, passes: u64, row: u64) -> Judged
    ensures { result ≡ record { refusal = 0; place = 0; rows = rows; passes = passes; row = row } }
{
    Judged {
        refusal: 0,
        place: 0,
        rows: rows,
        passes: passes,
        row: row,
    }
}

fn strict_numbers(x: Result<Judgement, StrictRefusal>) -> Judged
    ensures { result ≡ strict_numbers x }
{
    match x {
        Ok(j) => match j.verdict {
            Verdict::Passes => rows_judged(j.rows as u64, 1, 0),
            Verdict::NotSupported(row) => rows_judged(j.rows as u64, 0, row as u64),
        },
        Err(r) => Judged {
            refusal: refusals::strict_number(r),
            place: refusals::strict_place(r) as u64,
            rows: 0,
            passes: 0,
            row: 0,
        },
    }
}

fn pair_number(p: Option<(usize, usize)>) -> u64
    ensures { result ≡ pair_number p }
{
    u64::from(p.is_some())
}

fn earlier_number(p: Option<(usize, usize)>) -> u64
    ensures { result ≡ earlier_number p }
{
    match p {
        Some((i, _)) => i as u64,
        None => 0,
    }
}

fn later_number(p: Option<(usize, usize)>) -> u64
    ensures { result ≡ later_number p }
{
    match p {
        Some((_, j)) => j as u64,
        None => 0,
    }
}

fn survey_numbers(x: Result<Summary, SurveyRefusal>) -> Surveyed
    ensures { result ≡ survey_numbers x }
{
    match x {
        Ok(s) => {
            let tally = s.tally.counts;
            Surveyed {
                refusal: 0,
                place: 0,
                pieces: s.pieces as u64,
                frame: u64::from(s.frame),
                whole: u64::from(s.whole),
                pair: pair_number(s.pair),
                earlier: earlier_number(s.pair),
                later: later_number(s.pair),
                tally,
            }
        },
        Err(r) => Surveyed {
            refusal: refusals::survey_number(r),
            place: refusals::survey_place(r) as u64,
            pieces: 0,
            frame: 0,
            whole: 0,
            pair: 0,
            earlier: 0,
            later: 0,
            tally: [0; STATES],
        },
    }
}

fn found_number(x: Option<usize>, none: u64) -> u64
    ensures { result ≡ found_number x none }
{
    match x {
        Some(i) => i as u64,
        None => none,
    }
}

fn bytes_stored(x: Result<usize, StoringRefusal>) -> u64
    ensures { result ≡ bytes_stored x }
{
    match x {
        Ok(stored) => stored as u64,
        Err(_) => 0,
    }
}

fn store_numbers(x: Result<usize, StoringRefusal>) -> Kept
    ensures { result ≡ store_numbers x }
{
    Kept {
        refusal: storing::storing_number(x),
        place: storing::storing_place(x) as u64,
        bytes: bytes_stored(x),
    }
}

fn bytes_again(x: Result<usize, AgainRefusal>) -> u64
    ensures { result ≡ bytes_again x }
{
    match x {
        Ok(stored_again) => stored_again as u64,
        Err(_) => 0,
    }
}

fn again_numbers(x: Result<usize, AgainRefusal>) -> Kept
    ensures { result ≡ again_numbers x }
{
    Kept {
        refusal: storing_again::again_number(x),
        place: storing_again::again_place(x) as u64,
        bytes: bytes_again(x),
    }
}

fn unstore_numbers(x: Result<StoredTable, StoredRefusal>) -> Unstored
    ensures { result ≡ unstore_numbers x }
{
    match x {
        Ok(table) => Unstored {
            refusal: 0,
            place: 0,
            items: table.items as u64,
            name: table.name.0 as u64,
            length: table.length as u64,
        },
        Err(r) => Unstored {
            refusal: stored_reading::stored_number(r),
            place: stored_reading::stored_place(r) as u64,
            items: 0,
            name: 0,
            length: 0,
        },
    }
}

// The elements of a text, a row of the table to each.
#[unsafe(no_mangle)]
pub extern "C" fn kawhiluhe_elements(text: &[u8], elements: &mut [u64]) -> Elements
    ensures value { result ≡ element_numbers (reading_of text.now (length elements.old)) }
    ensures elements_after { elements.new ≡ table_of text.now (length elements.old) }
{
    element_numbers(element_reading::read_elements(text, elements))
}

// The strict reading of a text: its elements, and its tree in a table of five words a row.
#[unsafe(no_mangle)]
pub extern "C" fn kawhiluhe_strict(text: &[u8], elements: &mut [u64], tree: &mut [u64]) -> Judged
    ensures { StrictPermitted text.now (length elements.old) (length tree.old) result elements.new tree.new }
{
    strict_numbers(strict_reading::read_strict(text, elements, tree))
}

// The survey of a package: its elements, and a record of eight words to each piece.
#[unsafe(no_mangle)]
pub extern "C" fn kawhiluhe_survey(text: &[u8], elements: &mut [u64], items: &mut [u64]) -> Surveyed
    ensures { SurveyPermitted text.now (length elements.old) (length items.old) result elements.new items.new }
{
    survey_numbers(survey_reading::read_survey(text, elements, items))
}

// The first record of a table, eight words to a record, that claims a name; how many records the table has, where none does.
#[unsafe(no_mangle)]
pub extern "C" fn kawhiluhe_lookup(text: &[u8], elements: &[u64], name: &[u8], items: &[u64]) -> u64
    ensures { result ≡ found_number (found_of text.now elements.now name.now items.now) (length items.now / record_words) }
{
    let none = (items.len() / RECORD_WORDS) as u64;
    found_number(lookup::lookup(text, elements, name, items), none)
}

// The same over records lent as structs of eight words.
#[unsafe(no_mangle)]
pub extern "C" fn kawhiluhe_lookup_items<'a>(
    text: &'a [u8],
    elements: &'a [u64],
    name: &'a [u8],
    items: &'a [Item],
) -> u64
    ensures { result ≡ found_number (found_of text.now elements.now name.now (struct_words items.now)) (length items.now) }
{
    let found = lookup::lookup_items(text, elements, name, items);
    let none = items.len() as u64;
    found_number(found, none)
}

// A whole survey as the bytes of a stored table.
#[unsafe(no_mangle)]
pub extern "C" fn kawhiluhe_store(
    text: &[u8],
    elements: &mut [u64],
    items: &mut [u64],
    out: &mut [u8],
) -> Kept
    ensures { StorePermitted text.now (length elements.old) (length items.old) (length out.old) result elements.new items.new out.new }
{
    store_numbers(storing::store_survey(text, elements, items, out))
}

// The items of a stored table, a row of six words to each.
#[unsafe(no_mangle)]
pub extern "C" fn kawhiluhe_read_stored(bytes: &[u8], rows: &mut [u64]) -> Unstored
    ensures { UnstorePermitted bytes.now (length rows.old) result rows.new }
{
    unstore_numbers(stored_reading::read_stored(bytes, rows))
}

// A stored table read, and what was read stored again.
#[unsafe(no_mangle)]
pub extern "C" fn kawhiluhe_store_again(bytes: &[u8], rows: &mut [u64], out: &mut [u8]) -> Kept
    ensures { AgainPermitted bytes.now (length rows.old) (length out.old) result rows.new out.new }
{
    again_numbers(storing_again::store_again(bytes, rows, out))
}

// The words of an answer, one after the other, as the functions below are lent them.
pub fn element_words(x: Elements) -> [u64; ELEMENT_WORDS]
    ensures { result ≡ element_words x }
{
    [x.refusal, x.place, x.elements]
}

pub fn judged_words(x: Judged) -> [u64; JUDGED_WORDS]
    ensures { result ≡ judged_words x }
{
    [x.refusal, x.place, x.rows, x.passes, x.row]
}

// The tally's eleven counts stand after the eight other words.
pub fn surveyed_words(x: Surveyed) -> [u64; SURVEYED_WORDS]
    ensures { result ≡ surveyed_words x }
{
    let t = x.tally;
    [
        x.refusal,
        x.place,
        x.pieces,
        x.frame,
        x.whole,
        x.pair,
        x.earlier,
        x.later,
        t[0],
        t[states::BROKEN as usize],
        t[states::DOUBLED as usize],
        t[states::UNFOLDED as usize],
        t[states::UNKNOWN as usize],
        t[states::LEANS as usize],
        t[states::KIND as usize],
        t[states::DIVISOR as usize],
        t[states::EXPONENT as usize],
        t[states::SIZE as usize],
        t[states::RANGE as usize],
    ]
}

pub fn kept_words(x: Kept) -> [u64; KEPT_WORDS]
    ensures { result ≡ kept_words x }
{
    [x.refusal, x.place, x.bytes]
}

pub fn unstored_words(x: Unstored) -> [u64; UNSTORED_WORDS]
    ensures { result ≡ unstored_words x }
{
    [x.refusal, x.place, x.items, x.name, x.length]
}

// What is printed of an answer, lent as its words, from a line on: as many whole lines as the buffer has room for, and zeros after them. Of
// the elements:
#[unsafe(no_mangle)]
pub extern "C" fn kawhiluhe_element_lines(
    elements: &[u64],
    answer: &[u64],
    from: usize,
    out: &mut [u8],
) -> Filled
    ensures { Part (element_line elements.now answer.now) from (element_lines elements.now answer.now) (length out.old) result out.new }
{
    element_lines::fill_elements(elements, answer, from, out)
}

// Of the tree.
#[unsafe(no_mangle)]
pub extern "C" fn kawhiluhe_tree_lines(
    tree: &[u64],
    answer: &[u64],
    from: usize,
    out: &mut [u8],
) -> Filled
    ensures { Part (tree_line tree.now answer.now) from (tree_lines tree.now answer.now) (length out.old) result out.new }
{
    tree_lines::fill_tree(tree, answer, from, out)
}

// Of a survey's items.
#[unsafe(no_mangle)]
pub extern "C" fn kawhiluhe_survey_lines(
    text: &[u8],
    elements: &[u64],
    items: &[u64],
    answer: &[u64],
    from: usize,
    out: &mut [u8],
) -> Filled
    ensures { Part (survey_line text.now elements.now items.now answer.now) from (survey_lines items.now answer.now) (length out.old) result out.new }
{
    item_lines::fill_survey(text, elements, items, answer, from, out)
}

// Of its records, its tally and its pair.
#[unsafe(no_mangle)]
pub extern "C" fn kawhiluhe_record_lines(
    items: &[u64],
    answer: &[u64],
    from: usize,
    out: &mut [u8],
) -> Filled
    ensures { Part (record_line items.now answer.now) from (record_lines items.now answer.now) (length out.old) result out.new }
{
    record_lines::fill_records(items, answer, from, out)
}

// Of a stored table.
#[unsafe(no_mangle)]
pub extern "C" fn kawhiluhe_stored_lines(
    bytes: &[u8],
    rows: &[u64],
    answer: &[u64],
    from: usize,
    out: &mut [u8],
) -> Filled
    ensures { Part (stored_line bytes.now rows.now answer.now) from (stored_lines rows.now answer.now) (length out.old) result out.new }
{
    stored_lines::fill_stored(bytes, rows, answer, from, out)
}
