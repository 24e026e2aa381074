// A whole survey kept as the bytes of a stored table. Any bytes, tables and output may be given.
#![tactic(auto)]

ghost use Rattle.std.specs.Prelude.{◌≡◌, cond, ◌+◌, ◌≤◌, eqb, length};
ghost use Rattle.places.specs.Sizes.{most_bytes, most_pieces};
ghost use Rattle.puts.specs.Puts.{Wrote};
ghost use Rattle.operands.specs.code.Operands.{bytes_at};
ghost use Rattle.storing.specs.SurveyItems.{stored_value};
ghost use Rattle.storing.specs.declared.StoringRefusal.TheVariants.{Survey};
ghost use Rattle.storing.specs.Refusals.{storing_number, storing_place};
ghost use Rattle.storing.specs.Permitted.{Permitted};
ghost use Rattle.storing.specs.code.Tables.{is_basic, held_at, stored_name_at, item_at, items_of_records, put_items, size_items, package_at, put_table, size_table};

use places::ElementNumber;
use refusals::SurveyRefusal;
use stored::StoredValue;
use values::Value;

// Why a survey isn't stored: its own refusal; 21, "survey not whole"; 22, "output short", with the room there is.
#[derive(Clone, Copy)]
pub enum StoringRefusal {
    Survey(SurveyRefusal),
    NotWhole,
    OutputShort(usize),
}

impl From<SurveyRefusal> for StoringRefusal {
    ghost from_gives = { λ r e. e ≡ Survey r };

    fn from(r: SurveyRefusal) -> StoringRefusal {
        StoringRefusal::Survey(r)
    }
}

// The number and the place of a refusal, 0 and 0 where it is stored.
pub fn storing_number(s: Result<usize, StoringRefusal>) -> u64
    ensures { result ≡ storing_number s }
{
    match s {
        Err(StoringRefusal::Survey(r)) => refusals::survey_number(r),
        Err(StoringRefusal::NotWhole) => refusals::NOT_WHOLE,
        Err(StoringRefusal::OutputShort(_)) => refusals::OUTPUT_SHORT,
        Ok(_) => 0,
    }
}

pub fn storing_place(s: Result<usize, StoringRefusal>) -> usize
    ensures { result ≡ storing_place s }
{
    match s {
        Err(StoringRefusal::Survey(r)) => refusals::survey_place(r),
        Err(StoringRefusal::NotWhole) => 0,
        Err(StoringRefusal::OutputShort(room)) => room,
        Ok(_) => 0,
    }
}

// The field that ends a table has no contents.
const END_SIZE: usize = 3;

// What an item comes to, as it is stored.
fn stored_value(v: Value) -> Option<StoredValue>
    ensures { result ≡ stored_value v }
{
    match v {
        Value::Number(z) => Some(StoredValue::Number(z)),
        Value::Truth(t) => Some(StoredValue::Truth(t)),
        Value::Range(low, high) => Some(StoredValue::Range(low, high)),
        Value::Truths => Some(StoredValue::Truths),
        Value::Without(_) => None,
    }
}

// What a record gives to be stored.
fn held_at(items: &[u64], i: usize) -> Option<StoredValue>
    ensures { result ≡ held_at items.now i }
{
    let v = values::used_value(
        records::word(items, i, pieces::CLASS),
        records::word(items, i, pieces::STATE),
        records::word(items, i, pieces::KIND),
        records::word(items, i, pieces::LOW),
        records::word(items, i, pieces::HIGH),
    );
    stored_value(v)
}

// The bytes of an element, and whether it is a basic identifier.
#[tactic(auto, unfolding(operands::specs::code::Operands::bytes_at))]
fn part<'a, 'b>(text: &'a [u8], elements: &'b [u64], e: ElementNumber) -> &'a [u8]
    ensures { result.now ≡ bytes_at text.now elements.now e.0 }
{
    let place = places::place_of(elements, e);
    let size = places::size_of(elements, e) as usize;
    stored::part(text, place.0, size)
}

fn basic(elements: &[u64], e: ElementNumber) -> bool
    ensures { result ≡ is_basic elements.now e.0 }
{
    places::kind_of(elements, e) == places::IDENTIFIER
}

// The field of record i, none where it gives nothing; and how many bytes it has.
fn put_record(
    text: &[u8],
    elements: &[u64],
    items: &[u64],
    i: usize,
    out: &mut [u8],
    at: usize,
) -> usize
    ensures { Wrote out.old at (put_items (item_at text.now elements.now items.now i)) out.new result }
{
    match held_at(items, i) {
        None => puts::put_none(out, at),
        Some(v) => {
            let e = records::word(items, i, pieces::NAME) as usize;
            let b = basic(elements, ElementNumber(e));
            let name = part(text, elements, ElementNumber(e));
            stored_writing::put_item(v, b, name, out, at)
        }
    }
}

fn record_size(text: &[u8], elements: &[u64], items: &[u64], i: usize) -> usize
    ensures { result ≡ size_items (item_at text.now elements.now items.now i) }
{
    match held_at(items, i) {
        None => 0,
        Some(v) => {
            let e = records::word(items, i, pieces::NAME) as usize;
            let name = part(text, elements, ElementNumber(e));
            stored_writing::item_size(v, name)
        }
    }
}

// Those of the first n records.
fn put_records(
    text: &[u8],
    elements: &[u64],
    items: &[u64],
    n: usize,
    out: &mut [u8],
    at: usize,
) -> usize
    ensures { Wrote out.old at (put_items (items_of_records text.now elements.now items.now n)) out.new result }
{
    let mut w = puts::put_none(out, at);
    for i in 0..n {
        w = put_record(text, elements, items, i, out, w);
    }
    w
}

fn records_size(text: &[u8], elements: &[u64], items: &[u64], n: usize) -> usize
    requires { (length text.now ≤ most_bytes) × (n ≤ most_pieces) }
    ensures { result ≡ size_items (items_of_records text.now elements.now items.now n) }
{
    let mut size: usize = 0;
    for i in 0..n {
        size += record_size(text, elements, items, i);
    }
    size
}

// The whole table: the package's name, which the first record has, the items and the end; and how many bytes it has.
fn put_table(
    text: &[u8],
    elements: &[u64],
    items: &[u64],
    n: usize,
    out: &mut [u8],
    at: usize,
) -> usize
    ensures { Wrote out.old at (put_table text.now elements.now items.now n) out.new result }
{
    let e = records::word(items, 0, pieces::NAME) as usize;
    let b = basic(elements, ElementNumber(e));
    let name = part(text, elements, ElementNumber(e));
    let a = stored_writing::put_package(b, name, out, at);
    let c = put_records(text, elements, items, n, out, a);
    stored_writing::put_end(out, c)
}

fn table_size(text: &[u8], elements: &[u64], items: &[u64], n: usize) -> usize
    requires { (length text.now ≤ most_bytes) × (n ≤ most_pieces) }
    ensures { result ≡ size_table text.now elements.now items.now n }
{
    let e = records::word(items, 0, pieces::NAME) as usize;
    let name = part(text, elements, ElementNumber(e));
    let a = stored_writing::package_size(name);
    let b = records_size(text, elements, items, n);
    let c = a + b;
    c + END_SIZE
}

// Stores the survey of a text: the tables are left as the survey leaves them; on a refusal they are all zeros, and so is the output.
pub fn store_survey(
    text: &[u8],
    elements: &mut [u64],
    items: &mut [u64],
    out: &mut [u8],
) -> Result<usize, StoringRefusal>
    ensures { Permitted text.now (length elements.old) (length items.old) (length out.old) result elements.new items.new out.new }
{
    puts::clear_from(out, 0);
    let survey = survey_reading::read_survey(text, elements, items)?;
    let n = survey.pieces;
    let whole = survey.whole;
    if !whole {
        lent_tables::clear(elements);
        lent_tables::clear(items);
        return Err(StoringRefusal::NotWhole);
    }
    let size = table_size(text, elements, items, n);
    let room = out.len();
    if room < size {
        lent_tables::clear(elements);
        lent_tables::clear(items);
        return Err(StoringRefusal::OutputShort(room));
    }
    put_table(text, elements, items, n, out, 0);
    Ok(size)
}
