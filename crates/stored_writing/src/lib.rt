// The fields of a stored table, put one after the other into a lent output as `puts` puts bytes: what has no room is dropped, so that a caller
// asks for the sizes first. Every public function takes any bytes.
#![tactic(auto)]

ghost use Rattle.std.specs.Prelude.{◌≡◌, [], ◌∷◌, ◌++◌};
ghost use Rattle.puts.specs.Puts.{Wrote};
ghost use Rattle.stored.specs.Fields.{fields_bytes};
ghost use Rattle.stored.specs.StoredItems.{four_bytes, number_bytes, truth_byte, tag_of, value_bytes, item_field, name_field};
ghost use Rattle.stored_writing.specs.Written.{as_stored, head_bytes, field_put, field_size};

use stored::{ALL_BYTES, StoredValue, THREE_BYTES, TWO_BYTES};

// How many bytes stand before a field's contents, and how many numbers a byte of the length holds.
const HEAD_SIZE: usize = 3;

const LENGTH_BYTE: usize = ALL_BYTES as usize;

// How many words of 32 bits there are.
const HALVES: u64 = 4294967296;

// "four bytes, .. high byte first"
fn put_four(n: u32, out: &mut [u8], at: usize) -> usize
    ensures { Wrote out.old at (four_bytes n) out.new result }
{
    let a = puts::put_byte((n / THREE_BYTES) as u8, out, at);
    let b = puts::put_byte((n / TWO_BYTES % ALL_BYTES) as u8, out, a);
    let c = puts::put_byte((n / ALL_BYTES % ALL_BYTES) as u8, out, b);
    puts::put_byte((n % ALL_BYTES) as u8, out, c)
}

// "two's complement": the low half of the number's word.
fn put_number(z: i32, out: &mut [u8], at: usize) -> usize
    ensures { Wrote out.old at (number_bytes z) out.new result }
{
    let n = values::word(z) % HALVES;
    put_four(n as u32, out, at)
}

// "kind byte 0 integer or 1 boolean, low and high"
fn put_ends(kind: u8, low: i32, high: i32, out: &mut [u8], at: usize) -> usize
    ensures { Wrote out.old at (kind ∷ number_bytes low ++ number_bytes high) out.new result }
{
    let a = puts::put_byte(kind, out, at);
    let b = put_number(low, out, a);
    put_number(high, out, b)
}

fn tag_of(v: StoredValue) -> u8
    ensures { result ≡ tag_of v }
{
    match v {
        StoredValue::Number(_) => stored::NUMBER_TAG,
        StoredValue::Truth(_) => stored::TRUTH_TAG,
        StoredValue::Range(_, _) | StoredValue::Truths => stored::SUBTYPE_TAG,
    }
}

// What stands before the name.
fn put_value(v: StoredValue, out: &mut [u8], at: usize) -> usize
    ensures { Wrote out.old at (value_bytes v []) out.new result }
{
    match v {
        StoredValue::Number(z) => put_number(z, out, at),
        StoredValue::Truth(t) => puts::put_byte(u8::from(t), out, at),
        StoredValue::Range(low, high) => put_ends(stored::INTEGER_BYTE, low, high, out, at),
        StoredValue::Truths => put_ends(stored::BOOLEAN_BYTE, 0, 1, out, at),
    }
}

// "Names are stored in lower case unless extended."
fn put_name(basic: bool, name: &[u8], out: &mut [u8], at: usize) -> usize
    ensures { Wrote out.old at (as_stored basic name.now) out.new result }
{
    let mut w = puts::put_none(out, at);
    for b in name {
        w = puts::put_byte(same_names::counted(basic, *b), out, w);
    }
    w
}

// "a one-byte tag, a two-byte length (high byte first)"
fn put_head(tag: u8, n: usize, out: &mut [u8], at: usize) -> usize
    ensures { Wrote out.old at (head_bytes tag n) out.new result }
{
    let a = puts::put_byte(tag, out, at);
    let b = puts::put_byte((n / LENGTH_BYTE % LENGTH_BYTE) as u8, out, a);
    puts::put_byte((n % LENGTH_BYTE) as u8, out, b)
}

// "Tag 1 holds the package name.": its field, and how many bytes that has.
pub fn put_package(basic: bool, name: &[u8], out: &mut [u8], at: usize) -> usize
    ensures { Wrote out.old at (field_put (name_field (as_stored basic name.now))) out.new result }
{
    let a = put_head(stored::NAME_TAG, name.len(), out, at);
    put_name(basic, name, out, a)
}

pub fn package_size(name: &[u8]) -> usize
    ensures { result ≡ field_size (name_field name.now) }
{
    HEAD_SIZE + name.len()
}

// "one field to an item": the same of an item.
pub fn put_item(v: StoredValue, basic: bool, name: &[u8], out: &mut [u8], at: usize) -> usize
    ensures { Wrote out.old at (field_put (item_field (record { value = v; name = as_stored basic name.now }))) out.new result }
{
    let k = stored::value_size(v);
    let n = k + name.len();
    let tag = tag_of(v);
    let a = put_head(tag, n, out, at);
    let b = put_value(v, out, a);
    put_name(basic, name, out, b)
}

pub fn item_size(v: StoredValue, name: &[u8]) -> usize
    ensures { result ≡ field_size (item_field (record { value = v; name = name.now })) }
{
    let k = stored::value_size(v);
    let body = k + name.len();
    HEAD_SIZE + body
}

// "Tag 0 with length 0 ends it."
pub fn put_end(out: &mut [u8], at: usize) -> usize
    ensures { Wrote out.old at (fields_bytes []) out.new result }
{
    put_head(stored::END_TAG, 0, out, at)
}
