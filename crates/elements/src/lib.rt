// What stands at the front of a line's rest: a stretch that is no element, or an element of a kind and a length.
#![tactic(auto)]

ghost use Rattle.std.specs.Prelude.{◌≡◌, ◌||◌, ◌<◌, eqb, length};
ghost use Rattle.classes.specs.Bytes.{underscore};
ghost use Rattle.classes.specs.Signs.{quote};
ghost use Rattle.elements.specs.Kinds.{kind_number};
ghost use Rattle.elements.specs.Element.{unreadable_front, string_front, apostrophe_front, spoils_number, element_at, ticks_after};
ghost use Rattle.elements.specs.code.Ways.{letters_at, extended_at, numeral_at, single_at, delimiter_at, other_at, opens_of};

use classes::Run;
use numbers::Number;

#[derive(Clone, Copy)]
pub enum Literal {
    Integer,
    Real,
    Character,
    String,
}

#[derive(Clone, Copy)]
pub enum Kind {
    Identifier,
    Extended,
    Literal(Literal),
    Unreadable,
    Delimiter(u8),
    Reserved(u8),
}

// So many bytes that are no element, or an element of so many bytes.
#[derive(Clone, Copy)]
pub enum Front {
    Skip(usize),
    Element(Kind, usize),
}

// What a first byte opens.
#[derive(Clone, Copy)]
pub enum Opens {
    Separator,
    Letter,
    Digit,
    Quote,
    Backslash,
    Apostrophe,
    Other,
}

// The numbers of `'` and `)` among the delimiters.
const TICK: u8 = 8;

const CLOSE_PARENTHESIS: u8 = 10;

// A character literal: how far its second apostrophe is from the first, and how many bytes it has.
const SECOND_APOSTROPHE: usize = 2;

const CHARACTER_SIZE: usize = SECOND_APOSTROPHE + 1;

// How many bytes the longest delimiters have.
const LONG_DELIMITER: usize = 2;

pub fn kind_number(k: Kind) -> u64
    ensures { result ≡ kind_number k }
{
    match k {
        Kind::Identifier => places::IDENTIFIER,
        Kind::Extended => places::EXTENDED,
        Kind::Literal(l) => match l {
            Literal::Integer => places::INTEGER_LITERAL,
            Literal::Real => places::REAL,
            Literal::Character => places::CHARACTER,
            Literal::String => places::STRING,
        },
        Kind::Unreadable => places::UNREADABLE,
        Kind::Delimiter(n) => places::FIRST_DELIMITER + (n as u64),
        Kind::Reserved(n) => places::FIRST_WORD + (n as u64),
    }
}

// Whether an apostrophe after an element of this kind, on its line, is a tick.
pub fn ticks_after(k: Kind) -> bool
    ensures { result ≡ ticks_after k }
{
    match k {
        Kind::Identifier => true,
        Kind::Extended => true,
        Kind::Literal(_) => false,
        Kind::Unreadable => false,
        Kind::Delimiter(n) => n == CLOSE_PARENTHESIS,
        Kind::Reserved(_) => false,
    }
}

fn unreadable_at(s: &[u8]) -> Front
    ensures { result ≡ unreadable_front s.now }
{
    Front::Element(Kind::Unreadable, s.len())
}

fn word_at(s: &[u8]) -> Front
    ensures { result ≡ letters_at s.now }
{
    let n = classes::run_length(Run::Word, s);
    let next = classes::byte_or(s, n);
    if next == b'_' {
        return unreadable_at(s);
    }
    match words::reserved_word(&s[..n]) {
        Some(k) => Front::Element(Kind::Reserved(k as u8), n),
        None => {
            if next == b'"' {
                return unreadable_at(s);
            }
            Front::Element(Kind::Identifier, n)
        },
    }
}

// Whether nothing stands between the backslashes, or what stands after them makes the whole unreadable.
fn spoils_extended(n: usize, next: u8) -> bool
    ensures { result ≡ (eqb n 1 || eqb next underscore || eqb next quote) }
{
    (n == 1) | (next == b'_') | (next == b'"')
}

fn extended_at(s: &[u8]) -> Front
    requires { 0 < length s.now }
    ensures { result ≡ extended_at s.now }
{
    match quoted::closing(b'\\', &s[1..]) {
        Some(n) => {
            let m = n + 1;
            if spoils_extended(n, classes::byte_or(s, m)) {
                return unreadable_at(s);
            }
            Front::Element(Kind::Extended, m)
        },
        None => unreadable_at(s),
    }
}

fn follows_none(b: u8) -> bool
    ensures { result ≡ spoils_number b }
{
    classes::is_letter(b)
        | classes::is_digit(b)
        | (b == b'_')
        | (b == b'.')
        | (b == b'#')
        | (b == b'"')
}

fn numeral_at(s: &[u8]) -> Front
    ensures { result ≡ numeral_at s.now }
{
    match numbers::number_at(s) {
        Number::Integer(n) => {
            if follows_none(classes::byte_or(s, n)) {
                return unreadable_at(s);
            }
            Front::Element(Kind::Literal(Literal::Integer), n)
        },
        Number::Real(n) => {
            if follows_none(classes::byte_or(s, n)) {
                return unreadable_at(s);
            }
            Front::Element(Kind::Literal(Literal::Real), n)
        },
        Number::Neither => unreadable_at(s),
    }
}

fn string_at(s: &[u8]) -> Front
    requires { 0 < length s.now }
    ensures { result ≡ string_front s.now }
{
    match quoted::closing(b'"', &s[1..]) {
        Some(n) => Front::Element(Kind::Literal(Literal::String), n + 1),
        None => unreadable_at(s),
    }
}

fn apostrophe_at(s: &[u8], ticks: bool) -> Front
    ensures { result ≡ apostrophe_front ticks s.now }
{
    if ticks {
        return Front::Element(Kind::Delimiter(TICK), 1);
    }
    if classes::byte_or(s, SECOND_APOSTROPHE) != b'\'' {
        return Front::Element(Kind::Delimiter(TICK), 1);
    }
    if classes::is_graphic(classes::byte_or(s, 1)) {
        return Front::Element(Kind::Literal(Literal::Character), CHARACTER_SIZE);
    }
    unreadable_at(s)
}

fn single_at(s: &[u8]) -> Front
    requires { 0 < length s.now }
    ensures { result ≡ single_at s.now }
{
    match words::delimiter_one(classes::byte_or(s, 0)) {
        Some(k) => Front::Element(Kind::Delimiter(k as u8), 1),
        None => unreadable_at(s),
    }
}

fn delimiter_at(s: &[u8]) -> Front
    requires { 0 < length s.now }
    ensures { result ≡ delimiter_at s.now }
{
    if s.len() < LONG_DELIMITER {
        return single_at(s);
    }
    match words::delimiter_two(classes::byte_or(s, 0), classes::byte_or(s, 1)) {
        Some(k) => Front::Element(Kind::Delimiter(k as u8), LONG_DELIMITER),
        None => single_at(s),
    }
}

fn other_at(s: &[u8]) -> Front
    requires { 0 < length s.now }
    ensures { result ≡ other_at s.now }
{
    let b = classes::byte_or(s, 0);
    let d = classes::byte_or(s, 1);
    if (b == b'-') & (d == b'-') {
        return Front::Skip(s.len());
    }
    if (b == b'/') & (d == b'*') {
        return unreadable_at(s);
    }
    delimiter_at(s)
}

fn opens_with(b: u8) -> Opens
    ensures { result ≡ opens_of b }
{
    if classes::separator(b) {
        return Opens::Separator;
    }
    if classes::is_letter(b) {
        return Opens::Letter;
    }
    if classes::is_digit(b) {
        return Opens::Digit;
    }
    if b == b'"' {
        return Opens::Quote;
    }
    if b == b'\\' {
        return Opens::Backslash;
    }
    if b == b'\'' {
        return Opens::Apostrophe;
    }
    Opens::Other
}

// What stands at the front of a line's rest. An empty rest is an unreadable element of no bytes: no reader of lines asks for it.
pub fn element_at(s: &[u8], ticks: bool) -> Front
    ensures { result ≡ element_at ticks s.now }
{
    if s.len() == 0 {
        return unreadable_at(s);
    }
    match opens_with(classes::byte_or(s, 0)) {
        Opens::Separator => Front::Skip(1),
        Opens::Letter => word_at(s),
        Opens::Digit => numeral_at(s),
        Opens::Quote => string_at(s),
        Opens::Backslash => extended_at(s),
        Opens::Apostrophe => apostrophe_at(s, ticks),
        Opens::Other => other_at(s),
    }
}
