// Reads a stored table back into rows of words. Any bytes and any table may be given.
#![tactic(auto)]

ghost use Rattle.std.specs.Prelude.{◌≡◌, true, [], ◌∷◌, ◌+◌, ◌*◌, ◌≤◌, length, drop};
ghost use Rattle.std.proofs.lemmas.List.Edits.{sets};
ghost use Rattle.stored.specs.Stored.{form_one, most_items};
ghost use Rattle.stored.specs.code.Decode.{decode};
ghost use Rattle.stored_reading.specs.StoredRows.{survey_value, stored_class, stored_row_words, stored_row};
ghost use Rattle.stored_reading.specs.Refusals.{stored_number, stored_place};
ghost use Rattle.stored_reading.specs.Permitted.{Permitted};
ghost use Rattle.stored_reading.specs.code.Turns.{step_of, turn_of, items_at, count_with, there, items_counted, distinct_items};
ghost use Rattle.stored_reading.specs.code.Answers.{rows_at, firsts_at, sizes_at, examined_of};

use places::BytePlace;
use refusals::{ITEMS_SHORT, NOT_STORED};
use stored::{MOST_ITEMS, StoredValue};
use values::Value;

// 24, and 10 with the rows that the table has.
#[derive(Clone, Copy)]
pub enum StoredRefusal {
    NotStored,
    ItemsShort(usize),
}

// What was read: the package name's place and length, and how many items.
#[derive(Clone, Copy)]
pub struct StoredTable {
    pub name: BytePlace,
    pub length: usize,
    pub items: usize,
}

// What stands at the front of bytes: no field and no end, the end, a field with its tag and length.
#[derive(Clone, Copy)]
pub enum FieldStep {
    Bad,
    End,
    Tagged(u8, usize),
}

// The same where a field is to be a legal item: its value, and its field's length.
#[derive(Clone, Copy)]
pub enum ItemTurn {
    Wrong,
    Ends,
    Gives(StoredValue, usize),
}

// How many words a row has, and the places of its words.
pub const ROW_WORDS: usize = 6;

pub const CLASS: usize = 0;

pub const NAME_PLACE: usize = 1;

pub const NAME_SIZE: usize = 2;

pub const KIND: usize = 3;

pub const LOW: usize = 4;

pub const HIGH: usize = 5;

// How many bytes a field has before its contents, and where the last of them stands.
const HEAD_SIZE: usize = 3;

const LOW_BYTE: usize = 2;

pub fn stored_number(r: StoredRefusal) -> u64
    ensures { result ≡ stored_number r }
{
    match r {
        StoredRefusal::NotStored => NOT_STORED,
        StoredRefusal::ItemsShort(_) => ITEMS_SHORT,
    }
}

pub fn stored_place(r: StoredRefusal) -> usize
    ensures { result ≡ stored_place r }
{
    match r {
        StoredRefusal::NotStored => 0,
        StoredRefusal::ItemsShort(rows) => rows,
    }
}

fn step_of(s: &[u8]) -> FieldStep
    ensures { result ≡ step_of s.now }
{
    if s.len() < HEAD_SIZE {
        return FieldStep::Bad;
    }
    let t = s[0];
    let n = usize::from(u16::from_be_bytes([s[1], s[LOW_BYTE]]));
    if t == stored::END_TAG {
        if s.len() != HEAD_SIZE {
            return FieldStep::Bad;
        }
        if n != 0 {
            return FieldStep::Bad;
        }
        return FieldStep::End;
    }
    if s.len() < HEAD_SIZE + n {
        return FieldStep::Bad;
    }
    FieldStep::Tagged(t, n)
}

fn turn_of(s: &[u8]) -> ItemTurn
    ensures { result ≡ turn_of form_one s.now }
{
    match step_of(s) {
        FieldStep::Bad => ItemTurn::Wrong,
        FieldStep::End => ItemTurn::Ends,
        FieldStep::Tagged(t, n) => {
            let body = stored::part(s, HEAD_SIZE, n);
            match stored::kept_in(t, body) {
                None => ItemTurn::Wrong,
                Some(v) => ItemTurn::Gives(v, n),
            }
        },
    }
}

// How many items there are from a place; none where they aren't legal.
fn count_from(s: &[u8], from: usize) -> Option<usize>
    ensures { result ≡ count_with 0 (items_at form_one (drop from s.now)) }
{
    // a while: each turn goes on by the length of the field
    let mut at = from;
    let mut n: usize = 0;
    while at < s.len() {
        match turn_of(stored::rest(s, at)) {
            ItemTurn::Wrong => {
                return None;
            },
            ItemTurn::Ends => {
                return Some(n);
            },
            ItemTurn::Gives(_, k) => {
                n += 1;
                at += HEAD_SIZE + k;
            },
        }
    }
    None
}

// ---- names all different

fn note_names(s: &[u8], from: usize, firsts: &mut [u64; MOST_ITEMS], sizes: &mut [u64; MOST_ITEMS])
    requires s_value { there (items_at form_one (drop from s.now)) ≡ true }
    requires s_bound { items_counted (items_at form_one (drop from s.now)) ≤ most_items }
    ensures firsts_after { firsts.new ≡ sets firsts.old 0 (firsts_at from (items_at form_one (drop from s.now))) }
    ensures sizes_after { sizes.new ≡ sets sizes.old 0 (sizes_at (items_at form_one (drop from s.now))) }
{
    // a while: each turn goes on by the length of the field
    let mut at = from;
    let mut w: usize = 0;
    while at < s.len() {
        match turn_of(stored::rest(s, at)) {
            ItemTurn::Wrong | ItemTurn::Ends => {
                return;
            },
            ItemTurn::Gives(v, k) => {
                let h = stored::value_size(v);
                firsts[w] = (at + (HEAD_SIZE + h)) as u64;
                sizes[w] = (k - h) as u64;
                w += 1;
                at += HEAD_SIZE + k;
            },
        }
    }
}

fn names_differ(s: &[u8], from: usize, n: usize) -> bool
    requires s_value { there (items_at form_one (drop from s.now)) ≡ true }
    requires n_value { (n ≡ items_counted (items_at form_one (drop from s.now))) × (n ≤ most_items) }
    ensures { result ≡ distinct_items (items_at form_one (drop from s.now)) }
{
    let mut firsts = [0u64; MOST_ITEMS];
    let mut sizes = [0u64; MOST_ITEMS];
    note_names(s, from, &mut firsts, &mut sizes);
    different_names::all_different(s, &firsts, &sizes, n)
}

// ---- rows

// What the survey calls the value.
fn survey_value(v: StoredValue) -> Value
    ensures { result ≡ survey_value v }
{
    match v {
        StoredValue::Number(z) => Value::Number(z),
        StoredValue::Truth(t) => Value::Truth(t),
        StoredValue::Range(low, high) => Value::Range(low, high),
        StoredValue::Truths => Value::Truths,
    }
}

fn class_of(v: StoredValue) -> u64
    ensures { result ≡ stored_class v }
{
    match v {
        StoredValue::Number(_) | StoredValue::Truth(_) => pieces::CONSTANT,
        StoredValue::Range(_, _) | StoredValue::Truths => pieces::SUBTYPE,
    }
}

fn put_row(t: &mut [u64], w: usize, a: u64, b: u64, c: u64, d: u64, e: u64, f: u64)
    requires { w + stored_row_words ≤ length t.old }
    ensures { t.new ≡ sets t.old w (a ∷ b ∷ c ∷ d ∷ e ∷ f ∷ []) }
{
    t[w] = a;
    t[w + NAME_PLACE] = b;
    t[w + NAME_SIZE] = c;
    t[w + KIND] = d;
    t[w + LOW] = e;
    t[w + HIGH] = f;
}

fn put_item(t: &mut [u64], w: usize, v: StoredValue, place: u64, size: u64)
    requires { w + stored_row_words ≤ length t.old }
    ensures { t.new ≡ sets t.old w (stored_row v place size) }
{
    let class = class_of(v);
    let value = survey_value(v);
    let kind = values::kind_word(value);
    let low = values::low_word(value);
    let high = values::high_word(value);
    put_row(t, w, class, place, size, kind, low, high);
}

fn fill(s: &[u8], from: usize, t: &mut [u64])
    requires s_value { there (items_at form_one (drop from s.now)) ≡ true }
    requires s_in_bounds { stored_row_words * items_counted (items_at form_one (drop from s.now)) ≤ length t.old }
    ensures { t.new ≡ sets t.old 0 (rows_at from (items_at form_one (drop from s.now))) }
{
    // a while: each turn goes on by the length of the field
    let mut at = from;
    let mut w: usize = 0;
    while at < s.len() {
        match turn_of(stored::rest(s, at)) {
            ItemTurn::Wrong | ItemTurn::Ends => {
                return;
            },
            ItemTurn::Gives(v, k) => {
                let h = stored::value_size(v);
                put_item(t, w, v, (at + (HEAD_SIZE + h)) as u64, (k - h) as u64);
                w += ROW_WORDS;
                at += HEAD_SIZE + k;
            },
        }
    }
}

// ---- the whole

// Where the items begin, and how many; none where the bytes are no stored table.
fn examine(s: &[u8]) -> Option<(usize, usize)>
    ensures { result ≡ examined_of (decode form_one s.now) }
{
    let FieldStep::Tagged(t, n) = step_of(s) else {
        return None;
    };
    if t != stored::NAME_TAG {
        return None;
    }
    let name = stored::part(s, HEAD_SIZE, n);
    if !stored::legal_name(name) {
        return None;
    }
    let from = HEAD_SIZE + n;
    let c = count_from(s, from)?;
    if MOST_ITEMS < c {
        return None;
    }
    if names_differ(s, from, c) {
        return Some((from, c));
    }
    None
}

// A row to each item, then zeros; all zeros where it is refused.
pub fn read_stored(s: &[u8], items: &mut [u64]) -> Result<StoredTable, StoredRefusal>
    ensures { Permitted s.now (length items.old) result items.new }
{
    lent_tables::clear(items);
    let Some((from, c)) = examine(s) else {
        return Err(StoredRefusal::NotStored);
    };
    let rows = items.len() / ROW_WORDS;
    if rows < c {
        return Err(StoredRefusal::ItemsShort(rows));
    }
    fill(s, from, items);
    Ok(StoredTable {
        name: BytePlace(HEAD_SIZE),
        length: from - HEAD_SIZE,
        items: c,
    })
}
