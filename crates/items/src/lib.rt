// The items of a package, folded from the first to the last: each finds those above it done. Every public function takes any tables.
#![tactic(auto)]

ghost use Rattle.std.specs.Prelude.{◌≡◌, ◌+◌, ◌-◌, ◌*◌, ◌/◌, ◌≤◌, ◌<◌, length};
ghost use Rattle.std.proofs.lemmas.List.Edits.{sets};
ghost use Rattle.pieces.specs.Columns.{record_words};
ghost use Rattle.pieces.specs.Columns as column;
ghost use Rattle.items.specs.code.Items.{after_mark, bound_at, rows_held, goes_down_in, doubled_in, expression_at, range_at, mark_in, bounded_at, formed_at, value_at, completed_at, completed};
ghost use Rattle.values.specs.ValueWords.{value_words};

use folding::Outcome;
use form_numbers::{FIRST, ROW_NUMBERS, ROWS};
use pieces::RECORD_WORDS;
use places::ElementNumber;
use values::Value;

// The rows of a piece: its own, its mark's, then those of its expression, or its range's and those of the bounds.
const AFTER_MARK: usize = 2;

const FIRST_BOUND: usize = 3;

// How many rows piece i has: up to the first of form 0.
fn rows_held(rows: &[u64], items: &[u64], i: usize) -> usize
    ensures { result ≡ rows_held rows.now items.now i }
{
    let from = records::word(items, i, pieces::FIRST) as usize;
    let count = records::word(items, i, pieces::COUNT) as usize;
    let most = count.min((rows.len() / ROW_NUMBERS).saturating_sub(from));
    for m in 0..most {
        if rows[ROW_NUMBERS * (from + m)] == 0 {
            return m;
        }
    }
    most
}

// Whether the word downto stands in piece i.
fn goes_down(elements: &[u64], items: &[u64], i: usize) -> bool
    ensures { result ≡ goes_down_in elements.now items.now i }
{
    let n = places::rows_in(elements);
    let from = records::word(items, i, pieces::FIRST) as usize;
    let count = records::word(items, i, pieces::COUNT) as usize;
    let most = count.min(n.saturating_sub(from));
    for m in 0..most {
        if places::kind_of(elements, ElementNumber(from + m)) == pieces::WORD_DOWNTO {
            return true;
        }
    }
    false
}

// Whether the name of piece i has another claim, the language's included.
fn is_doubled(text: &[u8], elements: &[u64], twins: &[u64], items: &[u64], i: usize) -> bool
    ensures { result ≡ doubled_in text.now elements.now twins.now items.now i }
{
    if !records::is_claim(records::word(items, i, pieces::CLASS)) {
        return false;
    }
    if lent_tables::word_at(twins, i) != 0 {
        return true;
    }
    names::language(
        text,
        elements,
        ElementNumber(records::word(items, i, pieces::NAME) as usize),
    ) != 0
}

// The expression whose rows are those of piece i from its row a on, of m.
fn expression(
    text: &[u8],
    elements: &[u64],
    items: &[u64],
    links: &[u64],
    i: usize,
    rows: &[u64],
    a: usize,
    m: usize,
) -> Outcome
    requires { (1 ≤ m) × (a ≤ m) × (m ≡ rows_held rows.now items.now i) }
    ensures { result ≡ expression_at text.now elements.now items.now links.now i rows.now a m }
{
    let from = records::word(items, i, pieces::FIRST) as usize;
    let start = ROW_NUMBERS * (from + a);
    let end = ROW_NUMBERS * (from + m);
    expressions::fold(text, elements, items, links, i, &rows[start..end])
}

// Where the second bound's rows begin: after the first one's.
fn second_bound(items: &[u64], i: usize, rows: &[u64], m: usize) -> usize
    requires { (bound_at ≤ m) × (m ≡ rows_held rows.now items.now i) }
    ensures { result ≡ range_at items.now i rows.now m }
{
    if m == FIRST_BOUND {
        return m;
    }
    let from = records::word(items, i, pieces::FIRST) as usize;
    let size = rows[ROW_NUMBERS * (from + FIRST_BOUND) + ROWS] as usize;
    FIRST_BOUND.saturating_add(size).min(m)
}

// A subtype by its mark.
fn bounded(
    text: &[u8],
    elements: &[u64],
    items: &[u64],
    links: &[u64],
    i: usize,
    rows: &[u64],
    m: usize,
    mark: Value,
) -> Value
    requires { (after_mark ≤ m) × (m ≡ rows_held rows.now items.now i) }
    ensures { result ≡ bounded_at text.now elements.now items.now links.now i rows.now m mark }
{
    if m == AFTER_MARK {
        return marks::subtype_value(mark);
    }
    let b = second_bound(items, i, rows, m);
    let x = expression(text, elements, items, links, i, rows, FIRST_BOUND, m);
    let y = expression(text, elements, items, links, i, rows, b, m);
    let down = goes_down(elements, items, i);
    marks::ranged_value(mark, x, y, down)
}

// The mark of piece i, the name of its second row.
fn mark_value(
    text: &[u8],
    elements: &[u64],
    items: &[u64],
    links: &[u64],
    i: usize,
    rows: &[u64],
) -> Value
    requires { after_mark ≤ rows_held rows.now items.now i }
    ensures { result ≡ mark_in text.now elements.now items.now links.now i rows.now }
{
    let from = records::word(items, i, pieces::FIRST) as usize;
    let j = rows[ROW_NUMBERS * (from + 1) + FIRST];
    expressions::name_value(text, elements, items, links, i, j)
}

// A constant or a subtype whose name is claimed once.
fn formed(
    text: &[u8],
    elements: &[u64],
    items: &[u64],
    links: &[u64],
    i: usize,
    rows: &[u64],
    m: usize,
) -> Value
    requires { (1 ≤ m) × (m ≡ rows_held rows.now items.now i) }
    ensures { result ≡ formed_at text.now elements.now items.now links.now i rows.now m }
{
    if m < AFTER_MARK {
        return Value::Without(states::BROKEN);
    }
    let mark = mark_value(text, elements, items, links, i, rows);
    if records::word(items, i, pieces::CLASS) == pieces::CONSTANT {
        let x = expression(text, elements, items, links, i, rows, AFTER_MARK, m);
        return marks::constant_value(mark, x);
    }
    bounded(text, elements, items, links, i, rows, m, mark)
}

// What piece i comes to, the pieces above it being done.
fn item_value(
    text: &[u8],
    elements: &[u64],
    items: &[u64],
    links: &[u64],
    twins: &[u64],
    rows: &[u64],
    i: usize,
) -> Value
    ensures { result ≡ value_at text.now elements.now links.now twins.now rows.now items.now i }
{
    let m = rows_held(rows, items, i);
    if m == 0 {
        return Value::Without(states::BROKEN);
    }
    if is_doubled(text, elements, twins, items, i) {
        return Value::Without(states::DOUBLED);
    }
    formed(text, elements, items, links, i, rows, m)
}

// The last four words of record i.
fn put_value(items: &mut [u64], i: usize, v: Value)
    requires { record_words * i + record_words ≤ length items.old }
    ensures { items.new ≡ sets items.old (record_words * i + column.state) (value_words v) }
{
    let at = RECORD_WORDS * i;
    items[at + pieces::STATE] = values::state_word(v);
    items[at + pieces::KIND] = values::kind_word(v);
    items[at + pieces::LOW] = values::low_word(v);
    items[at + pieces::HIGH] = values::high_word(v);
}

// One piece more, unless it is no item.
fn complete(
    text: &[u8],
    elements: &[u64],
    links: &[u64],
    twins: &[u64],
    rows: &[u64],
    items: &mut [u64],
    i: usize,
)
    requires { record_words * i + record_words ≤ length items.old }
    ensures { items.new ≡ completed_at text.now elements.now links.now twins.now rows.now items.old i }
{
    if records::is_item(records::word(items, i, pieces::CLASS)) {
        let v = item_value(text, elements, items, links, twins, rows, i);
        put_value(items, i, v);
    }
}

// Completes the first n records: state, kind and two numbers of each item.
pub fn complete_items(
    text: &[u8],
    elements: &[u64],
    links: &[u64],
    twins: &[u64],
    rows: &[u64],
    items: &mut [u64],
    n: usize,
)
    ensures { items.new ≡ completed text.now elements.now links.now twins.now rows.now items.old n }
{
    let most = n.min(items.len() / RECORD_WORDS);
    for i in 0..most {
        complete(text, elements, links, twins, rows, items, i);
    }
}
