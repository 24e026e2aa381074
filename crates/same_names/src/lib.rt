// Names compared: case aside, unless extended.
#![tactic(auto)]

ghost use Rattle.std.specs.Prelude.{◌≡◌, ◌+◌, ◌-◌, ◌≤◌, ◌<◌, length};
ghost use Rattle.same_names.specs.Alike.{agree, spelled_same, same_name, spelled_as};
ghost use Rattle.same_names.specs.Spelling.{spelt, counts};

use places::{BytePlace, ElementNumber};

// A byte as it counts in a name, basic or not.
pub fn counted(basic: bool, b: u8) -> u8
    ensures { result ≡ counts basic b }
{
    if basic {
        return classes::lower_case(b);
    }
    b
}

// The n bytes from x and from y count the same.
fn agrees(s: &[u8], x: BytePlace, y: BytePlace, n: usize, basic: bool) -> bool
    requires { (x.0 + n ≤ length s.now) × (y.0 + n ≤ length s.now) }
    ensures { result ≡ agree basic s.now x.0 y.0 n }
{
    let a = x.0;
    let b = y.0;
    for i in 0..n {
        let p = counted(basic, s[a + i]);
        let q = counted(basic, s[b + i]);
        if p != q {
            return false;
        }
    }
    true
}

fn spelled_same(s: &[u8], table: &[u64], a: ElementNumber, b: ElementNumber, basic: bool) -> bool
    ensures { result ≡ spelled_same basic s.now table.now a.0 b.0 }
{
    let n = places::size_of(table, a);
    let m = places::size_of(table, b);
    if n != m {
        return false;
    }
    let x = places::place_of(table, a);
    let y = places::place_of(table, b);
    let p = places::stands(s, x, n);
    let q = places::stands(s, y, n);
    if p & q {
        return agrees(s, x, y, n as usize, basic);
    }
    false
}

// Elements a and b are names, and the same. No element, or bytes outside the text: no.
pub fn same_name(s: &[u8], table: &[u64], a: ElementNumber, b: ElementNumber) -> bool
    ensures { result ≡ same_name s.now table.now a.0 b.0 }
{
    let p = places::kind_of(table, a);
    let q = places::kind_of(table, b);
    if p != q {
        return false;
    }
    match p {
        places::IDENTIFIER => spelled_same(s, table, a, b, true),
        places::EXTENDED => spelled_same(s, table, a, b, false),
        _ => false,
    }
}

fn spells(basic: bool, a: &[u8], b: &[u8]) -> bool
    ensures { result ≡ spelt basic a.now b.now }
{
    if a.len() != b.len() {
        return false;
    }
    for (i, c) in a.iter().enumerate() {
        let x = counted(basic, *c);
        let y = counted(basic, b[i]);
        if x != y {
            return false;
        }
    }
    true
}

// Element e stands in the text and is spelled as the name.
pub fn spelled_as(basic: bool, text: &[u8], elements: &[u64], e: ElementNumber, name: &[u8]) -> bool
    ensures { result ≡ spelled_as basic text.now elements.now e.0 name.now }
{
    let place = places::place_of(elements, e);
    let first = place.0;
    let n = places::size_of(elements, e) as usize;
    if text.len() < first {
        return false;
    }
    if text.len() - first < n {
        return false;
    }
    let end = first + n;
    spells(basic, &text[first..end], name)
}
