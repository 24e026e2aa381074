// The classes of bytes and the runs of bytes that elements are made of. Every function takes any bytes.
#![tactic(auto)]

ghost use Rattle.std.specs.Prelude.{◌≡◌, get_or};
ghost use Rattle.classes.specs.Bytes.{is_letter, lower, is_digit, digit_value};
ghost use Rattle.classes.specs.Signs.{ends_line, separates, is_graphic};
ghost use Rattle.classes.specs.Runs.{in_run, goes_on, run};

// 01's bytes that no sign stands for: those that end a line, the separator 160, the last byte.
const FIRST_LINE_END: u8 = 10;

const LAST_LINE_END: u8 = 13;

const NO_BREAK_SPACE: u8 = 160;

const LAST_BYTE: u8 = 255;

// Digits are decimal, and those of a base at most the greatest go on with letters.
pub const TEN: u8 = 10;

pub const GREATEST_BASE: u8 = 16;

// How far a letter's lower case is from it; where the letters that are digits begin, less the ten digits before them; what no digit is below.
const LOWER_BY: u8 = b'a' - b'A';

const LARGE_TEN: u8 = b'A' - TEN;

const SMALL_TEN: u8 = b'a' - TEN;

const NO_DIGIT: u8 = GREATEST_BASE;

// Which bytes a run holds: letters and digits, or digits below a base.
#[derive(Clone, Copy)]
pub enum Run {
    Word,
    Below(u8),
}

pub fn ends_line(b: u8) -> bool
    ensures { result ≡ ends_line b }
{
    (FIRST_LINE_END <= b) & (b <= LAST_LINE_END)
}

pub fn separator(b: u8) -> bool
    ensures { result ≡ separates b }
{
    (b == b'\t') | (b == b' ') | (b == NO_BREAK_SPACE)
}

pub fn is_letter(b: u8) -> bool
    ensures { result ≡ is_letter b }
{
    ((b'A' <= b) & (b <= b'Z')) | ((b'a' <= b) & (b <= b'z'))
}

pub fn lower_case(b: u8) -> u8
    ensures { result ≡ lower b }
{
    if b'A' <= b {
        if b <= b'Z' {
            return b + LOWER_BY;
        }
    }
    b
}

pub fn is_digit(b: u8) -> bool
    ensures { result ≡ is_digit b }
{
    (b'0' <= b) & (b <= b'9')
}

pub fn is_graphic(b: u8) -> bool
    ensures { result ≡ is_graphic b }
{
    ((b' ' <= b) & (b <= b'~')) | ((NO_BREAK_SPACE <= b) & (b <= LAST_BYTE))
}

pub fn digit_value(b: u8) -> u8
    ensures { result ≡ digit_value b }
{
    if is_digit(b) {
        return b - b'0';
    }
    if (b'A' <= b) & (b <= b'F') {
        return b - LARGE_TEN;
    }
    if (b'a' <= b) & (b <= b'f') {
        return b - SMALL_TEN;
    }
    NO_DIGIT
}

pub fn in_run(c: Run, b: u8) -> bool
    ensures { result ≡ in_run c b }
{
    match c {
        Run::Word => is_letter(b) | is_digit(b),
        Run::Below(base) => digit_value(b) < base,
    }
}

// The byte at a place, 0 past the end.
pub fn byte_or(s: &[u8], at: usize) -> u8
    ensures { result ≡ get_or s.now at 0 }
{
    lent_tables::item_or(s, at, 0)
}

// Whether a run goes on at the front of what is left.
fn goes_on(c: Run, s: &[u8]) -> bool
    ensures { result ≡ goes_on c s.now }
{
    let b = byte_or(s, 0);
    if in_run(c, b) {
        return true;
    }
    if b != b'_' {
        return false;
    }
    in_run(c, byte_or(s, 1))
}

// How many bytes at the front are of a run, single underscores between them.
pub fn run_length(c: Run, s: &[u8]) -> usize
    ensures { result ≡ run c s.now }
{
    for i in 0..s.len() {
        if !goes_on(c, &s[i..]) {
            return i;
        }
    }
    s.len()
}
