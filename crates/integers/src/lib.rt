// Arithmetic on the integers of 01, which are at most 2147483647 in size. Every public function takes any two numbers of 32 bits.
#![tactic(auto)]

ghost use Rattle.std.specs.Prelude.{◌≡◌, ◌≤◌, pos, nat_abs, neg_ℤ, ◌+ℤ◌, ◌-ℤ◌, ◌*ℤ◌};
ghost use Rattle.std.proofs.Math.IntN.{pow};
ghost use Rattle.std.specs.Int.Signed.{quot_z, rem_z};
ghost use Rattle.integers.specs.Integers.{sized_of, divided_of, to_sign, power_of, arithmetic_of};
ghost use Rattle.integers.specs.FoldedNumbers.{beyond};

// How large an integer is at most, in size.
pub const LARGEST: i64 = 2147483647;

// What a value is.
#[derive(Clone, Copy)]
pub enum Kind {
    Integer,
    Truth,
}

// The kinds of a value in its record.
pub const KIND_INTEGER: u64 = 1;

pub const KIND_TRUTH: u64 = 2;

const SMALLEST: i64 = -LARGEST;

// "an integer, a truth, or the state that stopped it"
#[derive(Clone, Copy)]
pub enum Folded {
    Whole(i32),
    Truth(bool),
    Stopped(u8),
}

#[derive(Clone, Copy)]
pub enum Arithmetic {
    Add,
    Subtract,
    Multiply,
    Divide,
    Remainder,
    Modulo,
    Power,
}

// The number, or state 9 where it is too large.
fn sized(z: i64) -> Folded
    ensures { result ≡ sized_of z }
{
    if (SMALLEST..=LARGEST).contains(&z) {
        Folded::Whole(z as i32)
    } else {
        Folded::Stopped(states::SIZE)
    }
}

fn add(a: i32, b: i32) -> Folded
    ensures { result ≡ sized_of (a +ℤ b) }
{
    sized(i64::from(a) + i64::from(b))
}

fn subtract(a: i32, b: i32) -> Folded
    ensures { result ≡ sized_of (a -ℤ b) }
{
    sized(i64::from(a) - i64::from(b))
}

fn multiply(a: i32, b: i32) -> Folded
    ensures { result ≡ sized_of (a *ℤ b) }
{
    sized(i64::from(a) * i64::from(b))
}

fn divide(a: i32, b: i32) -> Folded
    ensures { result ≡ divided_of b (quot_z a b) }
{
    match b {
        0 => Folded::Stopped(states::DIVISOR),
        _ => sized(i64::from(a) / i64::from(b)),
    }
}

fn remainder(a: i32, b: i32) -> Folded
    ensures { result ≡ divided_of b (rem_z a b) }
{
    match b {
        0 => Folded::Stopped(states::DIVISOR),
        _ => sized(i64::from(a) % i64::from(b)),
    }
}

// A remainder moved by the divisor where their signs differ.
fn signed_as(r: i64, b: i64) -> i64
    requires { (nat_abs r ≤ beyond) × (nat_abs b ≤ beyond) }
    ensures { result ≡ to_sign r b }
{
    if r != 0 && (r < 0) != (b < 0) {
        r + b
    } else {
        r
    }
}

fn modulo(a: i32, b: i32) -> Folded
    ensures { result ≡ divided_of b (to_sign (rem_z a b) b) }
{
    match b {
        0 => Folded::Stopped(states::DIVISOR),
        _ => sized(signed_as(i64::from(a) % i64::from(b), i64::from(b))),
    }
}

// a to the n, for a base other than 0: at most 31 turns where a is not 1 or -1.
fn climb(a: i64, n: u64) -> Folded
    requires { (nat_abs a ≤ beyond) × (1 ≤ nat_abs a) }
    ensures { result ≡ sized_of (pow a n) }
{
    let mut acc: i64 = 1;
    for _ in 0..n {
        acc *= a;
        if acc.abs() > LARGEST {
            return Folded::Stopped(states::SIZE);
        }
    }
    sized(acc)
}

// a to the n. The bases 0, 1 and -1 never grow, so they take no turn.
fn raise(a: i64, n: u64) -> Folded
    requires { nat_abs a ≤ beyond }
    ensures { result ≡ sized_of (pow a n) }
{
    match a {
        0 => Folded::Whole(i32::from(n == 0)),
        1 => Folded::Whole(1),
        -1 => {
            if n % 2 == 0 {
                Folded::Whole(1)
            } else {
                Folded::Whole(-1)
            }
        }
        _ => climb(a, n),
    }
}

fn power(a: i32, e: i32) -> Folded
    ensures { result ≡ power_of a e }
{
    match u64::try_from(e) {
        Ok(n) => raise(i64::from(a), n),
        Err(_) => Folded::Stopped(states::EXPONENT),
    }
}

// The seven operators on two integers.
pub fn computed(op: Arithmetic, a: i32, b: i32) -> Folded
    ensures { result ≡ arithmetic_of op a b }
{
    match op {
        Arithmetic::Add => add(a, b),
        Arithmetic::Subtract => subtract(a, b),
        Arithmetic::Multiply => multiply(a, b),
        Arithmetic::Divide => divide(a, b),
        Arithmetic::Remainder => remainder(a, b),
        Arithmetic::Modulo => modulo(a, b),
        Arithmetic::Power => power(a, b),
    }
}

// A number after a sign.
pub fn kept(a: i32) -> Folded
    ensures { result ≡ sized_of a }
{
    sized(i64::from(a))
}

pub fn negated(a: i32) -> Folded
    ensures { result ≡ sized_of (neg_ℤ a) }
{
    sized(-i64::from(a))
}

pub fn absolute(a: i32) -> Folded
    ensures { result ≡ sized_of (pos (nat_abs a)) }
{
    sized(i64::from(a).abs())
}
