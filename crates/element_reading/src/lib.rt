// Reads a text's elements into a table that the caller lends, line by line, in one pass. Any bytes and any table may be given.
#![tactic(auto)]

ghost use Rattle.std.specs.Prelude.{◌≡◌, false, ◌+◌, ◌≤◌, length};
ghost use Rattle.places.specs.Sizes.{most_bytes};
ghost use Rattle.classes.specs.Runs.{count_while};
ghost use Rattle.element_reading.specs.Rows.{line_rows, rows_of};
ghost use Rattle.element_reading.specs.code.LineEnds.{in_line};
ghost use Rattle.element_reading.specs.Table.{puts};
ghost use Rattle.element_reading.specs.Permitted.{Permitted};

use elements::Front;
use places::{BytePlace, ElementNumber, MOST_BYTES, MOST_ELEMENTS};
use refusals::Refusal;

// Reads a line that begins at a byte place; n elements stand before it. Answers how many stand after it.
fn read_line(l: &[u8], at: BytePlace, t: &mut [u64], before: ElementNumber) -> ElementNumber
    requires { (at.0 + length l.now ≤ most_bytes) × (before.0 ≤ at.0) }
    ensures result_value { result.0 ≡ before.0 + length (line_rows 0 at.0 false l.now) }
    ensures t_after { t.new ≡ puts t.old before.0 (line_rows 0 at.0 false l.now) }
{
    let from = at.0;
    let first = before.0;
    let mut i = 0;
    let mut n = first;
    let mut ticks = false;
    // A while: each turn goes on by what the element took.
    while i < l.len() {
        match elements::element_at(&l[i..], ticks) {
            Front::Skip(k) => {
                i += k;
            },
            Front::Element(kind, k) => {
                places::put_row(
                    t,
                    ElementNumber(n),
                    elements::kind_number(kind),
                    BytePlace(from + i),
                    k,
                );
                ticks = elements::ticks_after(kind);
                n += 1;
                i += k;
            },
        }
    }
    ElementNumber(n)
}

// How many bytes the line at the front has.
fn line_length(s: &[u8]) -> usize
    ensures { result ≡ count_while in_line s.now }
{
    s.iter()
        .position(|byte| classes::ends_line(*byte))
        .unwrap_or(s.len())
}

// Reads line after line. Answers how many elements there are.
fn read_lines(s: &[u8], t: &mut [u64]) -> usize
    requires { length s.now ≤ most_bytes }
    ensures value { result ≡ length (rows_of s.now) }
    ensures t_after { t.new ≡ puts t.old 0 (rows_of s.now) }
{
    let mut at = 0;
    let mut n = 0;
    // A while: each turn goes on by the line's length.
    while at < s.len() {
        let end = at + line_length(&s[at..]);
        let m = read_line(&s[at..end], BytePlace(at), t, ElementNumber(n));
        n = m.0;
        at = end + 1;
    }
    n
}

pub fn read_elements(s: &[u8], t: &mut [u64]) -> Result<ElementNumber, Refusal>
    ensures { Permitted s.now (length t.old) result t.new }
{
    lent_tables::clear(t);
    if MOST_BYTES < s.len() {
        return Err(Refusal::TextTooLong(BytePlace(MOST_BYTES)));
    }
    let n = read_lines(s, t);
    if MOST_ELEMENTS < n {
        lent_tables::clear(t);
        return Err(Refusal::TooManyElements(ElementNumber(MOST_ELEMENTS)));
    }
    let rows = places::rows_in(t);
    if rows < n {
        lent_tables::clear(t);
        return Err(Refusal::TableShort(ElementNumber(rows)));
    }
    Ok(ElementNumber(n))
}
