// A stored table read, and what was read stored again. Any bytes, table and output may be given.
#![tactic(auto)]

ghost use Rattle.std.specs.Prelude.{◌≡◌, map, ◌*◌, ◌≤◌, length};
ghost use Rattle.puts.specs.Puts.{Wrote};
ghost use Rattle.stored.specs.StoredItems.{item_field};
ghost use Rattle.stored_reading.specs.StoredRows.{stored_row_words};
ghost use Rattle.stored_writing.specs.Written.{field_put, fields_put};
ghost use Rattle.storing_again.specs.declared.AgainRefusal.TheVariants.{Reading};
ghost use Rattle.storing_again.specs.Refusals.{again_number, again_place};
ghost use Rattle.storing_again.specs.Permitted.{Permitted};
ghost use Rattle.storing_again.specs.code.RowItems.{row_constant, row_subtype, row_value, row_item, row_items, table_put};

use stored::StoredValue;
use stored_reading::{ROW_WORDS, StoredRefusal};

// Why what was read isn't stored again: reading's refusal; 22, "output short", with the room there is.
#[derive(Clone, Copy)]
pub enum AgainRefusal {
    Reading(StoredRefusal),
    OutputShort(usize),
}

impl From<StoredRefusal> for AgainRefusal {
    ghost from_gives = { λ r e. e ≡ Reading r };

    fn from(r: StoredRefusal) -> AgainRefusal {
        AgainRefusal::Reading(r)
    }
}

// The number and the place of a refusal, 0 and 0 where it is stored.
pub fn again_number(a: Result<usize, AgainRefusal>) -> u64
    ensures { result ≡ again_number a }
{
    match a {
        Err(AgainRefusal::Reading(r)) => stored_reading::stored_number(r),
        Err(AgainRefusal::OutputShort(_)) => refusals::OUTPUT_SHORT,
        Ok(_) => 0,
    }
}

pub fn again_place(a: Result<usize, AgainRefusal>) -> usize
    ensures { result ≡ again_place a }
{
    match a {
        Err(AgainRefusal::Reading(r)) => stored_reading::stored_place(r),
        Err(AgainRefusal::OutputShort(room)) => room,
        Ok(_) => 0,
    }
}

// A constant's value, by the kind and the first number of its row.
fn constant_in(kind: u64, low: u64) -> StoredValue
    ensures { result ≡ row_constant kind low }
{
    if kind == integers::KIND_INTEGER {
        return StoredValue::Number(values::number(low));
    }
    StoredValue::Truth(low != 0)
}

// A subtype's.
fn subtype_in(kind: u64, low: u64, high: u64) -> StoredValue
    ensures { result ≡ row_subtype kind low high }
{
    if kind == integers::KIND_INTEGER {
        return StoredValue::Range(values::number(low), values::number(high));
    }
    StoredValue::Truths
}

fn value_in(row: &[u64]) -> StoredValue
    ensures { result ≡ row_value row.now }
{
    let class = lent_tables::word_at(row, stored_reading::CLASS);
    let kind = lent_tables::word_at(row, stored_reading::KIND);
    let low = lent_tables::word_at(row, stored_reading::LOW);
    let high = lent_tables::word_at(row, stored_reading::HIGH);
    if class == pieces::CONSTANT {
        return constant_in(kind, low);
    }
    subtype_in(kind, low, high)
}

// The field of a row's item. Its name has its case already, so that it is put as it stands.
fn put_row(bytes: &[u8], row: &[u64], out: &mut [u8], at: usize) -> usize
    ensures { Wrote out.old at (field_put (item_field (row_item bytes.now row.now))) out.new result }
{
    let v = value_in(row);
    let first = lent_tables::word_at(row, stored_reading::NAME_PLACE) as usize;
    let n = lent_tables::word_at(row, stored_reading::NAME_SIZE) as usize;
    let name = stored::part(bytes, first, n);
    stored_writing::put_item(v, false, name, out, at)
}

// Those of the first n rows.
fn put_rows(bytes: &[u8], rows: &[u64], n: usize, out: &mut [u8], at: usize) -> usize
    requires { stored_row_words * n ≤ length rows.now }
    ensures { Wrote out.old at (fields_put (map item_field (row_items bytes.now rows.now n))) out.new result }
{
    let mut w = puts::put_none(out, at);
    for i in 0..n {
        w = put_row(
            bytes,
            puts::words_from(rows, ROW_WORDS * i, ROW_WORDS),
            out,
            w,
        );
    }
    w
}

// The whole table: the package's name, which stands in the bytes, the items and the end.
fn put_table(
    bytes: &[u8],
    first: usize,
    size: usize,
    rows: &[u64],
    n: usize,
    out: &mut [u8],
) -> usize
    requires { stored_row_words * n ≤ length rows.now }
    ensures { Wrote out.old 0 (table_put bytes.now first size rows.now n) out.new result }
{
    let name = stored::part(bytes, first, size);
    let a = stored_writing::put_package(false, name, out, 0);
    let b = put_rows(bytes, rows, n, out, a);
    stored_writing::put_end(out, b)
}

// Reads a stored table and stores what was read: the rows are left as reading leaves them; on a refusal they are all zeros, and so is the output.
// What is put has as many bytes as what was read: so the room is asked for before any is put.
pub fn store_again(bytes: &[u8], items: &mut [u64], out: &mut [u8]) -> Result<usize, AgainRefusal>
    ensures { Permitted bytes.now (length items.old) (length out.old) result items.new out.new }
{
    puts::clear_from(out, 0);
    let table = stored_reading::read_stored(bytes, items)?;
    let room = out.len();
    if room < bytes.len() {
        lent_tables::clear(items);
        return Err(AgainRefusal::OutputShort(room));
    }
    let first = table.name.0;
    Ok(put_table(bytes, first, table.length, items, table.items, out))
}
