// How far an integer or real literal goes. Every function looks at the front of a line's rest, of any bytes.
#![tactic(auto)]

ghost use Rattle.std.specs.Prelude.{◌≡◌, true, false, ◌+◌, ◌≤◌, ◌<◌, min, length, drop};
ghost use Rattle.classes.specs.Bytes.{ten};
ghost use Rattle.numbers.specs.Numbers.{above_bases, digits, exponent, below_base, based, pointed, number};
ghost use Rattle.numbers.specs.Digits.{digit_in, value_spelled, exponent_head};

use classes::{GREATEST_BASE, Run, TEN};

// "base 2 to 16"; and a number that is no base.
pub const LEAST_BASE: u8 = 2;

const ABOVE_BASES: u8 = GREATEST_BASE + 1;

// How many bytes an exponent's head has where a sign stands after its E.
pub const SIGNED_HEAD: usize = 2;

// A number's size in bytes, or none: no digit in front, or a `#` or a point with nothing fitting after it.
#[derive(Clone, Copy)]
pub enum Number {
    Integer(usize),
    Real(usize),
    Neither,
}

// One digit more, where `most` stands for any number from there on.
fn with_digit(base: u8, most: u32, v: u32, b: u8) -> u32
    requires { v ≤ most }
    ensures { result ≡ min most (digit_in base v b) }
{
    if b == b'_' {
        return v;
    }
    let n = u64::from(v) * u64::from(base) + u64::from(classes::digit_value(b));
    n.min(u64::from(most)) as u32
}

// The number that digits and underscores spell, or `most` where it is larger.
pub fn capped_value(base: u8, most: u32, s: &[u8]) -> u32
    ensures { result ≡ min most (value_spelled base 0 s.now) }
{
    let mut v: u32 = 0;
    for b in s {
        v = with_digit(base, most, v, *b);
    }
    v
}

// The number that digits and underscores spell, or ABOVE_BASES where it is above the greatest base.
fn small_value(s: &[u8]) -> u8
    ensures { result ≡ min above_bases (value_spelled ten 0 s.now) }
{
    capped_value(TEN, u32::from(ABOVE_BASES), s) as u8
}

fn exponent_head(s: &[u8], either: bool) -> usize
    ensures { result ≡ exponent_head either s.now }
{
    let b = classes::byte_or(s, 1);
    if (b == b'+') | (either & (b == b'-')) {
        return SIGNED_HEAD;
    }
    1
}

// How many bytes an exponent has, 0 where there is none; `either` allows a minus.
fn exponent_length(s: &[u8], either: bool) -> usize
    ensures { result ≡ exponent either s.now }
{
    if classes::lower_case(classes::byte_or(s, 0)) != b'e' {
        return 0;
    }
    let n = exponent_head(s, either);
    if !classes::is_digit(classes::byte_or(s, n)) {
        return 0;
    }
    n + classes::run_length(Run::Below(TEN), &s[n..])
}

fn below_base(base: u8, s: &[u8]) -> Option<usize>
    ensures { result ≡ below_base base s.now }
{
    if !classes::in_run(Run::Below(base), classes::byte_or(s, 0)) {
        return None;
    }
    let n = classes::run_length(Run::Below(base), s);
    if classes::byte_or(s, n) != b'#' {
        return None;
    }
    let m = n + 1;
    Some(m + exponent_length(&s[m..], false))
}

// A number whose n digits stand before a `#`.
fn based_at(s: &[u8], n: usize) -> Number
    requires { (n ≡ digits s.now) × (n < length s.now) }
    ensures { result ≡ based s.now }
{
    let base = small_value(&s[..n]);
    if base < LEAST_BASE {
        return Number::Neither;
    }
    if GREATEST_BASE < base {
        return Number::Neither;
    }
    let m = n + 1;
    match below_base(base, &s[m..]) {
        Some(k) => Number::Integer(m + k),
        None => Number::Neither,
    }
}

// A number whose n digits stand before a point.
fn pointed_at(s: &[u8], n: usize) -> Number
    requires { (n ≡ digits s.now) × (n < length s.now) }
    ensures { result ≡ pointed s.now }
{
    let m = n + 1;
    if !classes::is_digit(classes::byte_or(s, m)) {
        return Number::Neither;
    }
    Number::Real(m + fraction_length(&s[m..]))
}

// How many bytes the digits after a point have, with the exponent after them.
fn fraction_length(s: &[u8]) -> usize
    ensures { result ≡ digits s.now + exponent true (drop (digits s.now) s.now) }
{
    let n = classes::run_length(Run::Below(TEN), s);
    n + exponent_length(&s[n..], true)
}

// The number at the front, or that none is there.
pub fn number_at(s: &[u8]) -> Number
    ensures { result ≡ number s.now }
{
    if !classes::is_digit(classes::byte_or(s, 0)) {
        return Number::Neither;
    }
    let n = classes::run_length(Run::Below(TEN), s);
    let b = classes::byte_or(s, n);
    if b == b'#' {
        return based_at(s, n);
    }
    if b == b'.' {
        return pointed_at(s, n);
    }
    Number::Integer(n + exponent_length(&s[n..], false))
}
