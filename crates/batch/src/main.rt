// Many texts in one run, for comparing with a second program. A case on standard input is ten bytes and then the text: the mode, then three
// numbers of three bytes each, high byte first: element rows, other rows, length. Where bytes are stored, the text begins with such a number more,
// the room, and the bytes are printed as hexadecimal digits. After what a case prints stands a line with a point.
#![tactic(auto)]

use console::{MOST_ROOM, OUT_ROOM, Shown};
use kawhiluhe::Kept;

// Where the three numbers of a case's head stand, the last byte of a number, and how many bytes a number and the head have.
const ROWS_AT: usize = 1;

const OTHER_ROWS_AT: usize = 4;

const LENGTH_AT: usize = 7;

const LAST: usize = 2;

const NUMBER: usize = 3;

const HEAD: usize = 10;

// How many numbers a byte has.
const BYTES: usize = 256;

// Room for the longest stored table that a program reads, which is twice as long as a text may be, after a number.
const TEXT_ROOM: usize = NUMBER + MOST_ROOM;

// The digits' base, and the first digit that is a letter.
const SIXTEEN: u8 = 16;

const TEN: u8 = 10;

// A run has fewer cases.
const MOST_CASES: u64 = 1000000000;

// A number of three bytes, 0 where they don't stand there.
fn number_at(s: &[u8], at: usize) -> usize {
    if s.len() < NUMBER {
        return 0;
    }
    if s.len() - NUMBER < at {
        return 0;
    }
    usize::from(s[at]) * BYTES * BYTES + usize::from(s[at + 1]) * BYTES + usize::from(s[at + LAST])
}

fn listed(
    rt: &HostRuntime,
    text: &[u8],
    table: &mut [u64],
    rows: usize,
    others: &mut [u64],
    other_rows: usize,
    shown: Shown,
    out: &mut [u8],
) {
    console::survey(
        rt, b"batch", text, table, rows, others, other_rows, shown, out,
    );
}

fn digit_of(n: u8) -> u8 {
    let d = n % SIXTEEN;
    if d < TEN {
        return b'0' + d;
    }
    b'A' + (d - TEN)
}

// Bytes as hexadecimal digits, two to a byte, and a line feed.
fn print_hexadecimal(rt: &HostRuntime, bytes: &[u8], out: &mut [u8]) {
    let mut w = 0;
    for b in bytes {
        w = puts::put_byte(digit_of(*b / SIXTEEN), out, w);
        w = puts::put_byte(digit_of(*b), out, w);
        if out.len() - w < NUMBER {
            console::write_out(rt, b"batch", lent_tables::front(out, w));
            w = 0;
        }
    }
    w = puts::put_byte(puts::LINE_FEED, out, w);
    console::write_out(rt, b"batch", lent_tables::front(out, w));
}

fn print_kept(rt: &HostRuntime, k: Kept, kept: &[u8], out: &mut [u8]) {
    if k.refusal == 0 {
        print_hexadecimal(rt, lent_tables::front(kept, k.bytes as usize), out);
        return;
    }
    let n = console::refusal_line(k, out);
    console::write_out(rt, b"batch", lent_tables::front(out, n));
}

fn stored_of(
    rt: &HostRuntime,
    text: &[u8],
    table: &mut [u64],
    rows: usize,
    others: &mut [u64],
    other_rows: usize,
    kept: &mut [u8],
    out: &mut [u8],
) {
    let k = console::store(
        stored::rest(text, NUMBER),
        table,
        rows,
        others,
        other_rows,
        kept,
        number_at(text, 0),
    );
    print_kept(rt, k, kept, out);
}

fn stored_again(
    rt: &HostRuntime,
    text: &[u8],
    others: &mut [u64],
    rows: usize,
    kept: &mut [u8],
    out: &mut [u8],
) {
    let room = number_at(text, 0);
    let k = console::store_again(stored::rest(text, NUMBER), others, rows, kept, room);
    print_kept(rt, k, kept, out);
}

// What a case asks for: the mode `e` lists elements, `s` the tree, `l` a survey's items, `r` its records, `q` the first line of its listing
// alone, so that its cost is that of the reading; `t` stores a survey, `u` lists a stored table, `a` stores it again. One table serves for trees
// and items.
fn show(
    rt: &HostRuntime,
    head: &[u8],
    text: &[u8],
    table: &mut [u64],
    others: &mut [u64],
    kept: &mut [u8],
    out: &mut [u8],
) {
    if head.len() < HEAD {
        return;
    }
    let rows = number_at(head, ROWS_AT);
    let other_rows = number_at(head, OTHER_ROWS_AT);
    let mode = head[0];
    match mode {
        b'e' => console::elements(rt, b"batch", text, table, rows, out),
        b's' => console::tree(rt, b"batch", text, table, rows, others, other_rows, out),
        b'q' => listed(rt, text, table, rows, others, other_rows, Shown::Head, out),
        b'r' => listed(
            rt,
            text,
            table,
            rows,
            others,
            other_rows,
            Shown::Records,
            out,
        ),
        b't' => stored_of(rt, text, table, rows, others, other_rows, kept, out),
        b'u' => console::unstore(rt, b"batch", text, others, other_rows, out),
        b'a' => stored_again(rt, text, others, other_rows, kept, out),
        _ => listed(rt, text, table, rows, others, other_rows, Shown::Items, out),
    }
}

// The text of a case, and what it prints: false where it can't be read or written.
fn answered(
    rt: &HostRuntime,
    head: &[u8],
    text: &mut [u8],
    table: &mut [u64],
    others: &mut [u64],
    kept: &mut [u8],
    out: &mut [u8],
) -> bool {
    let size = number_at(head, LENGTH_AT).min(text.len());
    let Ok(k) = console::read_text(&mut rt.stdin(), &mut text[..size]) else {
        return false;
    };
    show(
        rt,
        head,
        lent_tables::front(text, k),
        table,
        others,
        kept,
        out,
    );
    console::write_out(rt, b"batch", b".\n")
}

// One case: false where there is none.
fn one(
    rt: &HostRuntime,
    head: &mut [u8],
    text: &mut [u8],
    table: &mut [u64],
    others: &mut [u64],
    kept: &mut [u8],
    out: &mut [u8],
) -> bool {
    let Ok(n) = console::read_text(&mut rt.stdin(), head) else {
        return false;
    };
    if n < HEAD {
        return false;
    }
    answered(rt, head, text, table, others, kept, out)
}

// At most so many cases.
fn cases(
    rt: &HostRuntime,
    head: &mut [u8],
    text: &mut [u8],
    table: &mut [u64],
    others: &mut [u64],
    kept: &mut [u8],
    out: &mut [u8],
) {
    for _ in 0..MOST_CASES {
        if !one(rt, head, text, table, others, kept, out) {
            return;
        }
    }
}

// The tables travel one by one: a struct of them is lent field by field, which the borrow checker does not cover.
fn main(rt: HostRuntime) {
    let mut head = [0u8; HEAD];
    let mut text = [0u8; TEXT_ROOM];
    let mut table = [0u64; places::ROW_WORDS * places::MOST_ELEMENTS];
    let mut others = [0u64; form_numbers::ROW_NUMBERS * places::MOST_ELEMENTS];
    let mut kept = [0u8; MOST_ROOM];
    let mut out = [0u8; OUT_ROOM];
    cases(
        &rt,
        &mut head,
        &mut text,
        &mut table,
        &mut others,
        &mut kept,
        &mut out,
    );
}
