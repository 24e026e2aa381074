// The value of an integer literal, in time linear in its bytes. Every public function takes any bytes.
#![tactic(auto)]

ghost use Rattle.std.specs.Prelude.{◌≡◌, ◌+◌, ◌*◌, ◌^◌, ◌≤◌, ◌<◌, min, pos, drop};
ghost use Rattle.classes.specs.Bytes.{least_base, greatest_base};
ghost use Rattle.numbers.specs.Digits.{leading};
ghost use Rattle.integers.specs.Integers.{largest, sized_of};
ghost use Rattle.integers.specs.FoldedNumbers.{beyond};
ghost use Rattle.literals.specs.Literals.{exponent_of, number_in, literal_of};

use classes::{Run, TEN};
use integers::Folded;

// How large a literal is at most, and the first number beyond.
const LARGEST: u64 = integers::LARGEST as u64;

const BEYOND: u32 = integers::LARGEST as u32 + 1;

// "base 2 to 16"
const LEAST_BASE: u64 = numbers::LEAST_BASE as u64;

const GREATEST_BASE: u64 = classes::GREATEST_BASE as u64;

// The number that the digits at the front spell, or the first number beyond the largest where it is larger.
fn leading_value(base: u8, s: &[u8]) -> u64
    requires { (least_base ≤ base) × (base ≤ greatest_base) }
    ensures { result ≡ min beyond (leading base s.now) }
{
    let n = classes::run_length(Run::Below(base), s);
    u64::from(numbers::capped_value(base, BEYOND, &s[..n]))
}

fn exponent_at(s: &[u8], at: usize) -> u64
    ensures { result ≡ min beyond (exponent_of (drop at s.now)) }
{
    if classes::lower_case(classes::byte_or(s, at)) != b'e' {
        return 0;
    }
    let n = at + 1;
    if classes::byte_or(s, n) == b'+' {
        let m = at + numbers::SIGNED_HEAD;
        return leading_value(TEN, &s[m..]);
    }
    leading_value(TEN, &s[n..])
}

// m times the base to the e. A number other than 0 grows past the largest in at most 31 turns.
fn scaled(m: u64, base: u8, e: u64) -> Folded
    requires { (m ≤ largest) × (least_base ≤ base) × (base ≤ greatest_base) }
    ensures { result ≡ sized_of (pos (m * base ^ e)) }
{
    if m == 0 {
        return Folded::Whole(0);
    }
    let mut acc = m;
    for _turn in 0..e {
        let next = acc * u64::from(base);
        if LARGEST < next {
            return Folded::Stopped(states::SIZE);
        }
        acc = next;
    }
    Folded::Whole(acc as i32)
}

fn number_in(base: u8, closing: usize, s: &[u8]) -> Folded
    requires { (least_base ≤ base) × (base ≤ greatest_base) × (closing ≤ 1) }
    ensures { result ≡ sized_of (pos (number_in base closing s.now)) }
{
    let m = leading_value(base, s);
    if LARGEST < m {
        return Folded::Stopped(states::SIZE);
    }
    let n = classes::run_length(Run::Below(base), s);
    let e = exponent_at(s, n + closing);
    scaled(m, base, e)
}

// The value of the literal at the front of the bytes, or state 9.
pub fn literal(s: &[u8]) -> Folded
    ensures { result ≡ literal_of s.now }
{
    let n = classes::run_length(Run::Below(TEN), s);
    if classes::byte_or(s, n) != b'#' {
        return number_in(TEN, 0, s);
    }
    let base = leading_value(TEN, s);
    if base < LEAST_BASE {
        return number_in(TEN, 0, s);
    }
    if GREATEST_BASE < base {
        return number_in(TEN, 0, s);
    }
    let m = n + 1;
    number_in(base as u8, 1, &s[m..])
}
