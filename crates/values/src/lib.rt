// What an item comes to, how its record holds it, and what a name comes to by that record or by the language. Every public function takes any
// values.
#![tactic(auto)]

ghost use Rattle.std.specs.Prelude.{◌≡◌};
ghost use Rattle.values.specs.Values.{language_value};
ghost use Rattle.values.specs.ValueWords.{word_of, state_of, value_kind, low_of, high_of};
ghost use Rattle.values.specs.code.Used.{signed_number, used_constant, used_subtype, used_value};

// What an item comes to: a number, a truth, a subtype's ends, the truths as a type; or the state that it is without one.
#[derive(Clone, Copy)]
pub enum Value {
    Number(i32),
    Truth(bool),
    Range(i32, i32),
    Truths,
    Without(u8),
}

const LARGEST: i32 = integers::LARGEST as i32;

// How many numbers there are in half a word.
const HALVES: u64 = 4294967296;

// The names that the language claims, by number.
pub fn language_value(k: u64) -> Value
    ensures { result ≡ language_value k }
{
    match k {
        names::INTEGER => Value::Range(-LARGEST, LARGEST),
        names::NATURAL => Value::Range(0, LARGEST),
        names::POSITIVE => Value::Range(1, LARGEST),
        names::BOOLEAN => Value::Truths,
        names::TRUE => Value::Truth(true),
        names::FALSE => Value::Truth(false),
        _ => Value::Without(states::UNKNOWN),
    }
}

// A number as a word, in two's complement.
pub fn word(z: i32) -> u64
    ensures { result ≡ word_of z }
{
    i64::from(z).cast_unsigned()
}

// The number in a word's low half.
pub fn number(n: u64) -> i32
    ensures { result ≡ signed_number n }
{
    ((n % HALVES) as u32).cast_signed()
}

// The state of the record.
pub fn state_word(v: Value) -> u64
    ensures { result ≡ state_of v }
{
    match v {
        Value::Number(_) | Value::Truth(_) | Value::Range(_, _) | Value::Truths => 0,
        Value::Without(s) => u64::from(s),
    }
}

// Its kind.
pub fn kind_word(v: Value) -> u64
    ensures { result ≡ value_kind v }
{
    match v {
        Value::Number(_) | Value::Range(_, _) => integers::KIND_INTEGER,
        Value::Truth(_) | Value::Truths => integers::KIND_TRUTH,
        Value::Without(_) => 0,
    }
}

// Its first number.
pub fn low_word(v: Value) -> u64
    ensures { result ≡ low_of v }
{
    match v {
        Value::Number(z) => word(z),
        Value::Truth(t) => u64::from(t),
        Value::Range(low, _) => word(low),
        Value::Truths | Value::Without(_) => 0,
    }
}

// Its second.
pub fn high_word(v: Value) -> u64
    ensures { result ≡ high_of v }
{
    match v {
        Value::Number(_) | Value::Truth(_) | Value::Without(_) => 0,
        Value::Range(_, high) => word(high),
        Value::Truths => 1,
    }
}

fn used_constant(kind: u64, low: u64) -> Value
    ensures { result ≡ used_constant kind low }
{
    match kind {
        integers::KIND_INTEGER => Value::Number(number(low)),
        integers::KIND_TRUTH => Value::Truth(low != 0),
        _ => Value::Without(states::LEANS),
    }
}

fn used_subtype(kind: u64, low: u64, high: u64) -> Value
    ensures { result ≡ used_subtype kind low high }
{
    match kind {
        integers::KIND_INTEGER => Value::Range(number(low), number(high)),
        integers::KIND_TRUTH => Value::Truths,
        _ => Value::Without(states::LEANS),
    }
}

// What a name comes to where it is used, by its item's record.
pub fn used_value(class: u64, state: u64, kind: u64, low: u64, high: u64) -> Value
    ensures { result ≡ used_value class state kind low high }
{
    if state != 0 {
        return Value::Without(states::LEANS);
    }
    match class {
        pieces::CONSTANT => used_constant(kind, low),
        pieces::SUBTYPE => used_subtype(kind, low, high),
        _ => Value::Without(states::LEANS),
    }
}
