// What the programs read and write. Each line is put into a buffer by the library, whose bytes are proved, and the buffer goes out in one
// write: what is left here, reading and writing, is tested, not proved, since no contract can speak of a file.
#![tactic(auto)]

ghost use Rattle.std.specs.Prelude.{◌≤◌, ◌≡◌, IfOk, length};

use form_numbers::ROW_NUMBERS;
use kawhiluhe::{Kept, Surveyed};
use puts::Filled;
use std::io;
use std::io::{Cursor, Print, Read, Write};

// Room for every line of any text, which is never longer than the text by more than 100 bytes, and for many short ones.
pub const OUT_ROOM: usize = 81920;

// How much room there is for bytes that are stored, and how many a stored table may have that a program reads.
pub const MOST_ROOM: usize = 131072;

// A listing has fewer lines than this.
const MOST_TURNS: u64 = 100000;

// Room for what std says of an error: the system's reason, and after it the error's number.
const REASON_ROOM: usize = 256;

const BEFORE_NUMBER: &[u8] = b" (os error ";

// Reads until the buffer is full or the input ends: how many bytes. A read that failed is the error, and the buffer then holds what was read
// before.
pub fn read_text<R: Read>(input: &mut R, text: &mut [u8]) -> io::Result<usize>
    ensures { IfOk result (λ n. n ≤ length text.new) }
{
    let mut n = 0;
    // a while: each turn goes on by what the read took
    while n < text.len() {
        let k = input.read(&mut text[n..])?;
        if k == 0 {
            return Ok(n);
        }
        n += k;
    }
    Ok(n)
}

// Bytes on standard error. Where they can't be written nothing more can be said.
fn say(rt: &HostRuntime, bytes: &[u8]) {
    let _ = rt.stderr().write_all(bytes);
}

// One line on standard error: the program's name, what is wrong, and of what.
pub fn complain(rt: &HostRuntime, program: &[u8], what: &[u8], name: &[u8]) {
    say(rt, program);
    say(rt, b": ");
    say(rt, what);
    say(rt, b": ");
    say(rt, name);
    say(rt, b"\n");
}

// The same of what the system refused, with its reason.
pub fn fail(rt: &HostRuntime, program: &[u8], name: &[u8], e: &io::Error) {
    let mut line = Cursor::new([0u8; REASON_ROOM]);
    let _ = write!(line, "{e}");
    let said = lent_tables::front(line.get_ref(), line.position() as usize);
    complain(
        rt,
        program,
        name,
        lent_tables::front(said, reason_size(said)),
    );
}

// How long the system's reason is, without the error's number.
fn reason_size(said: &[u8]) -> usize
    ensures { result ≤ length said.now }
{
    for i in 0..said.len() {
        if said[i..].starts_with(BEFORE_NUMBER) {
            return i;
        }
    }
    said.len()
}

// Writes bytes; where they can't be written says so.
pub fn write_out(rt: &HostRuntime, program: &[u8], bytes: &[u8]) -> bool {
    match rt.stdout().write_all(bytes) {
        Ok(()) => true,
        Err(e) => {
            fail(rt, program, b"standard output", &e);
            false
        }
    }
}

// Writes a part of a listing that began at a line: false where it can't be written, or the next line has no room.
fn write_part(rt: &HostRuntime, program: &[u8], from: usize, f: Filled, out: &[u8]) -> bool {
    if f.next == from && 0 < f.left {
        complain(rt, program, b"listing", b"a line is longer than the buffer");
        return false;
    }
    write_out(rt, program, lent_tables::front(out, f.used))
}

// Writes a listing, each part of which a function puts into the buffer from a line on.
fn print_parts<F: Fn(usize, &mut [u8]) -> Filled>(
    rt: &HostRuntime,
    program: &[u8],
    fill: F,
    out: &mut [u8],
)
    requires { F.IsAlwaysCallable fill }
{
    let mut from = 0;
    for _ in 0..MOST_TURNS {
        let f = fill(from, out);
        if !write_part(rt, program, from, f, out) {
            return;
        }
        if f.left == 0 {
            return;
        }
        from = f.next;
    }
}

// The rows of a table that are lent: so many, each of so many words, and no more than there may be or than the table has.
fn lent(table: &mut [u64], rows: usize, most: usize, words: usize) -> &mut [u64] {
    let size = rows.min(most).saturating_mul(words).min(table.len());
    &mut table[..size]
}

fn lent_elements(table: &mut [u64], rows: usize) -> &mut [u64] {
    lent(table, rows, places::MOST_ELEMENTS, places::ROW_WORDS)
}

fn lent_records(items: &mut [u64], rows: usize) -> &mut [u64] {
    lent(items, rows, places::MOST_PIECES, pieces::RECORD_WORDS)
}

fn lent_items(table: &mut [u64], rows: usize) -> &mut [u64] {
    lent(table, rows, stored::MOST_ITEMS, stored_reading::ROW_WORDS)
}

// The listing of a text's elements, or the refusal, with so many rows of a table lent.
pub fn elements(
    rt: &HostRuntime,
    program: &[u8],
    text: &[u8],
    table: &mut [u64],
    rows: usize,
    out: &mut [u8],
) {
    let answer = kawhiluhe::element_words(kawhiluhe::kawhiluhe_elements(
        text,
        lent_elements(table, rows),
    ));
    let table: &[u64] = table;
    print_parts(
        rt,
        program,
        |from, out| kawhiluhe::kawhiluhe_element_lines(table, &answer, from, out),
        out,
    );
}

// The listing of a text's tree, or the refusal, with so many rows of each table lent.
pub fn tree(
    rt: &HostRuntime,
    program: &[u8],
    text: &[u8],
    table: &mut [u64],
    rows: usize,
    trees: &mut [u64],
    tree_rows: usize,
    out: &mut [u8],
) {
    let answer = kawhiluhe::judged_words(kawhiluhe::kawhiluhe_strict(
        text,
        lent_elements(table, rows),
        lent(trees, tree_rows, places::MOST_ELEMENTS, ROW_NUMBERS),
    ));
    let trees: &[u64] = trees;
    print_parts(
        rt,
        program,
        |from, out| kawhiluhe::kawhiluhe_tree_lines(trees, &answer, from, out),
        out,
    );
}

// What is shown of a survey: its items, its records, or the listing's first line alone.
#[derive(Clone, Copy)]
pub enum Shown {
    Items,
    Records,
    Head,
}

// What the survey of a package says, or the refusal, with so many rows of each table lent.
pub fn survey(
    rt: &HostRuntime,
    program: &[u8],
    text: &[u8],
    table: &mut [u64],
    rows: usize,
    items: &mut [u64],
    item_rows: usize,
    shown: Shown,
    out: &mut [u8],
) {
    let s = kawhiluhe::kawhiluhe_survey(
        text,
        lent_elements(table, rows),
        lent_records(items, item_rows),
    );
    show(rt, program, text, table, items, s, shown, out);
}

fn show(
    rt: &HostRuntime,
    program: &[u8],
    text: &[u8],
    table: &[u64],
    items: &[u64],
    s: Surveyed,
    shown: Shown,
    out: &mut [u8],
) {
    let answer = kawhiluhe::surveyed_words(s);
    match shown {
        Shown::Items => print_items(rt, program, text, table, items, &answer, out),
        Shown::Records => print_parts(
            rt,
            program,
            |from, out| kawhiluhe::kawhiluhe_record_lines(items, &answer, from, out),
            out,
        ),
        // no more records are listed than the table has: of an empty one, none
        Shown::Head => print_items(rt, program, text, table, &[], &answer, out),
    }
}

fn print_items(
    rt: &HostRuntime,
    program: &[u8],
    text: &[u8],
    table: &[u64],
    items: &[u64],
    answer: &[u64],
    out: &mut [u8],
) {
    print_parts(
        rt,
        program,
        |from, out| kawhiluhe::kawhiluhe_survey_lines(text, table, items, answer, from, out),
        out,
    );
}

// The survey of a package stored in so much room, with so many rows of each table lent.
pub fn store(
    text: &[u8],
    table: &mut [u64],
    rows: usize,
    items: &mut [u64],
    item_rows: usize,
    kept: &mut [u8],
    room: usize,
) -> Kept {
    let end = room.min(kept.len());
    kawhiluhe::kawhiluhe_store(
        text,
        lent_elements(table, rows),
        lent_records(items, item_rows),
        &mut kept[..end],
    )
}

// A stored table read and stored again in so much room, with so many rows of a table lent.
pub fn store_again(
    bytes: &[u8],
    table: &mut [u64],
    rows: usize,
    kept: &mut [u8],
    room: usize,
) -> Kept {
    let end = room.min(kept.len());
    kawhiluhe::kawhiluhe_store_again(bytes, lent_items(table, rows), &mut kept[..end])
}

// What was stored, on standard output; or the refusal, on standard error.
pub fn print_kept(rt: &HostRuntime, program: &[u8], k: Kept, kept: &[u8], out: &mut [u8]) {
    if k.refusal == 0 {
        write_out(rt, program, lent_tables::front(kept, k.bytes as usize));
        return;
    }
    let n = refusal_line(k, out);
    say(rt, lent_tables::front(out, n));
}

// A refusal's line in the buffer: how many bytes it has.
pub fn refusal_line(k: Kept, out: &mut [u8]) -> usize {
    let answer = kawhiluhe::kept_words(k);
    let f = kawhiluhe::kawhiluhe_stored_lines(&[], &[], &answer, 0, out);
    f.used
}

// What stands in a stored table, or the refusal, with so many rows of a table lent.
pub fn unstore(
    rt: &HostRuntime,
    program: &[u8],
    bytes: &[u8],
    table: &mut [u64],
    rows: usize,
    out: &mut [u8],
) {
    let answer = kawhiluhe::unstored_words(kawhiluhe::kawhiluhe_read_stored(
        bytes,
        lent_items(table, rows),
    ));
    let table: &[u64] = table;
    print_parts(
        rt,
        program,
        |from, out| kawhiluhe::kawhiluhe_stored_lines(bytes, table, &answer, from, out),
        out,
    );
}
