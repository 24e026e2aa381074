// A table of items kept as bytes: what an item's field holds, and which names are legal. Every public function takes any bytes.
#![tactic(auto)]

ghost use Rattle.std.specs.Prelude.{◌≡◌, ◌+◌, ◌≤◌, cond, Some, None, length, take, drop};
ghost use Rattle.std.proofs.Common.{to_z};
ghost use Rattle.std.specs.Int.{w32};
ghost use Rattle.names.specs.Language.{language_names};
ghost use Rattle.stored.specs.StoredItems.{number_size, subtype_size, value_size};
ghost use Rattle.stored.specs.LegalNames.{in_lower_case, named_by, legal_name};
ghost use Rattle.stored.specs.Stored.{same_bytes, among, form_one};
ghost use Rattle.stored.specs.code.Decode.{word_in, too_large, held_number, held_truth, held_range, held_truths, held_subtype, held_value, item_fits, kept_in};

use elements::{Front, Kind};

// What a stored item is: a number, a truth, a subtype of integer with its ends, a subtype of boolean.
#[derive(Clone, Copy)]
pub enum StoredValue {
    Number(i32),
    Truth(bool),
    Range(i32, i32),
    Truths,
}

// 02's tags, beside 0.
pub const END_TAG: u8 = 0;

pub const NAME_TAG: u8 = 1;

pub const NUMBER_TAG: u8 = 2;

pub const TRUTH_TAG: u8 = 3;

pub const SUBTYPE_TAG: u8 = 4;

// A table has at most so many items.
pub const MOST_ITEMS: usize = 1024;

// A subtype's kind byte.
pub const INTEGER_BYTE: u8 = 0;

pub const BOOLEAN_BYTE: u8 = 1;

// How many bytes stand before a name: a number's, a truth's, a subtype's.
pub const NUMBER_SIZE: usize = 4;

pub const TRUTH_SIZE: usize = 1;

pub const SUBTYPE_SIZE: usize = 9;

// What one, two and three bytes hold.
pub const ALL_BYTES: u32 = 256;

pub const TWO_BYTES: u32 = 65536;

pub const THREE_BYTES: u32 = 16777216;

// Where a subtype's ends stand.
const LOW_PLACE: usize = 1;

const HIGH_PLACE: usize = 5;

// The places of a word's third and fourth byte.
const THIRD_BYTE: usize = 2;

const FOURTH_BYTE: usize = 3;

// How many words are positive numbers, which is the word whose number is too large in size.
const POSITIVES: u32 = 2147483648;

// The four bytes from k, high byte first.
#[tactic(auto, unfolding(crate::specs::code::Decode::word_in))]
fn word_in(s: &[u8], k: usize) -> u32
    requires { k + number_size ≤ length s.now }
    ensures { result ≡ word_in s.now k }
{
    u32::from_be_bytes([s[k], s[k + 1], s[k + THIRD_BYTE], s[k + FOURTH_BYTE]])
}

// The number whose word stands at k, but for the one that is too large in size.
fn number_at(s: &[u8], k: usize) -> Option<i32>
    requires { k + number_size ≤ length s.now }
    ensures { result ≡ cond (too_large (word_in s.now k)) None (Some (to_z w32 (word_in s.now k))) }
{
    let n = word_in(s, k);
    if n == POSITIVES {
        return None;
    }
    Some(n.cast_signed())
}

#[tactic(auto, unfolding(crate::specs::code::Decode::held_number))]
fn number_in(s: &[u8]) -> Option<StoredValue>
    requires { number_size ≤ length s.now }
    ensures { result ≡ held_number s.now }
{
    let n = number_at(s, 0)?;
    Some(StoredValue::Number(n))
}

#[tactic(auto, unfolding(crate::specs::code::Decode::held_truth))]
fn truth_in(s: &[u8]) -> Option<StoredValue>
    requires { 1 ≤ length s.now }
    ensures { result ≡ held_truth s.now }
{
    match s[0] {
        0 => Some(StoredValue::Truth(false)),
        1 => Some(StoredValue::Truth(true)),
        _ => None,
    }
}

#[tactic(auto, unfolding(crate::specs::code::Decode::held_range))]
fn range_in(s: &[u8]) -> Option<StoredValue>
    requires { subtype_size ≤ length s.now }
    ensures { result ≡ held_range s.now }
{
    let low = number_at(s, LOW_PLACE)?;
    let high = number_at(s, HIGH_PLACE)?;
    Some(StoredValue::Range(low, high))
}

#[tactic(auto, unfolding(crate::specs::code::Decode::held_truths))]
fn truths_in(s: &[u8]) -> Option<StoredValue>
    requires { subtype_size ≤ length s.now }
    ensures { result ≡ held_truths s.now }
{
    let low = word_in(s, LOW_PLACE);
    if low != 0 {
        return None;
    }
    let high = word_in(s, HIGH_PLACE);
    if high != 1 {
        return None;
    }
    Some(StoredValue::Truths)
}

#[tactic(auto, unfolding(crate::specs::code::Decode::held_subtype))]
fn subtype_in(s: &[u8]) -> Option<StoredValue>
    requires { subtype_size ≤ length s.now }
    ensures { result ≡ held_subtype s.now }
{
    let b = s[0];
    if b == INTEGER_BYTE {
        return range_in(s);
    }
    if b == BOOLEAN_BYTE {
        return truths_in(s);
    }
    None
}

// What a field's contents begin with, by its tag.
#[tactic(auto, unfolding(crate::specs::code::Decode::held_value))]
pub fn value_in(tag: u8, s: &[u8]) -> Option<StoredValue>
    ensures { result ≡ held_value tag s.now }
{
    if tag == NUMBER_TAG {
        if s.len() < NUMBER_SIZE {
            return None;
        }
        return number_in(s);
    }
    if tag == TRUTH_TAG {
        if s.len() < TRUTH_SIZE {
            return None;
        }
        return truth_in(s);
    }
    if tag == SUBTYPE_TAG {
        if s.len() < SUBTYPE_SIZE {
            return None;
        }
        return subtype_in(s);
    }
    None
}

// How many bytes a value has before the name.
pub fn value_size(v: StoredValue) -> usize
    ensures { result ≡ value_size v }
{
    match v {
        StoredValue::Number(_) => NUMBER_SIZE,
        StoredValue::Truth(_) => TRUTH_SIZE,
        StoredValue::Range(_, _) | StoredValue::Truths => SUBTYPE_SIZE,
    }
}

// The same bytes. What it costs: the length, then the bytes up to the first that differs.
pub fn same(a: &[u8], b: &[u8]) -> bool
    ensures { result ≡ same_bytes a.now b.now }
{
    a == b
}

// The bytes from k, none where there are fewer.
pub fn rest(s: &[u8], k: usize) -> &[u8]
    ensures { result.now ≡ drop k s.now }
{
    if k <= s.len() {
        return &s[k..];
    }
    &s[..0]
}

// So many bytes from a place, fewer where there are fewer.
pub fn part(s: &[u8], first: usize, size: usize) -> &[u8]
    ensures { result.now ≡ take size (drop first s.now) }
{
    lent_tables::front(rest(s, first), size)
}

// Whether no letter could be in lower case and isn't.
fn in_lower_case(s: &[u8]) -> bool
    ensures { result ≡ in_lower_case s.now }
{
    s.iter().all(|b| classes::lower_case(*b) == *b)
}

fn named_by(kind: Kind, n: &[u8]) -> bool
    ensures { result ≡ named_by kind n.now }
{
    match kind {
        Kind::Identifier => in_lower_case(n),
        Kind::Extended => true,
        Kind::Literal(_) | Kind::Unreadable | Kind::Delimiter(_) | Kind::Reserved(_) => false,
    }
}

// Whether these bytes are a name as it is stored: one element, whole, in lower case unless extended.
#[tactic(auto, unfolding(crate::specs::LegalNames::legal_name))]
pub fn legal_name(n: &[u8]) -> bool
    ensures { result ≡ legal_name n.now }
{
    match elements::element_at(n, false) {
        Front::Skip(_) => false,
        Front::Element(kind, k) => {
            if k != n.len() {
                return false;
            }
            named_by(kind, n)
        },
    }
}

// One of the names that the language claims.
fn claimed(n: &[u8]) -> bool
    ensures { result ≡ among n.now language_names }
{
    let a = same(n, b"integer");
    let b = same(n, b"natural");
    let c = same(n, b"positive");
    let d = same(n, b"boolean");
    let e = same(n, b"true");
    let f = same(n, b"false");
    a | (b | (c | (d | (e | (f | false)))))
}

#[tactic(auto, unfolding(crate::specs::code::Decode::item_fits, crate::specs::Stored::form_one))]
fn item_fits(v: StoredValue, n: &[u8]) -> bool
    ensures { result ≡ item_fits form_one v n.now }
{
    let p = legal_name(n);
    let q = claimed(n);
    p & !q
}

// What a field holds, where it is a legal item.
#[tactic(auto, unfolding(crate::specs::code::Decode::kept_in, crate::specs::code::Decode::held_legal))]
pub fn kept_in(tag: u8, s: &[u8]) -> Option<StoredValue>
    ensures { result ≡ kept_in form_one tag s.now }
{
    let v = value_in(tag, s)?;
    let k = value_size(v);
    if item_fits(v, rest(s, k)) {
        return Some(v);
    }
    None
}
