// Byte places and element numbers, and the rows of the element table: what they hold of an element, and how they are put. No other crate
// knows what the words of a row are. Any table and any number may be given.
#![tactic(auto)]

ghost use Rattle.std.specs.Prelude.{◌≡◌, ◌<◌};
ghost use Rattle.places.specs.Places.{row_words, kind_column, first_column, size_column, rows_in, rows_from, cell_at, put_row, within};

// 01's sizes: how many bytes and elements a text has at most, and how many pieces a survey.
pub const MOST_BYTES: usize = 65536;

pub const MOST_ELEMENTS: usize = 8192;

pub const MOST_PIECES: usize = 1024;

// The kinds of elements that carry no number of their own: identifiers, basic and extended, the four literals, and what is unreadable.
pub const IDENTIFIER: u64 = 1;

pub const EXTENDED: u64 = 2;

pub const INTEGER_LITERAL: u64 = 3;

pub const REAL: u64 = 4;

pub const CHARACTER: u64 = 5;

pub const STRING: u64 = 6;

pub const UNREADABLE: u64 = 7;

// From which numbers the kinds of delimiters and of reserved words are counted.
pub const FIRST_DELIMITER: u64 = 8;

pub const FIRST_WORD: u64 = 33;

// How many words a row of the element table has.
pub const ROW_WORDS: usize = 3;

// Its columns: kind, first byte, length.
const KIND: usize = 0;

const FIRST: usize = 1;

const SIZE: usize = 2;

// A place in the text, counted in bytes.
#[derive(Clone, Copy)]
pub struct BytePlace(pub usize);

// A number of an element, or a count of elements.
#[derive(Clone, Copy)]
pub struct ElementNumber(pub usize);

// How many rows a table has.
pub fn rows_in(table: &[u64]) -> usize
    ensures { result ≡ rows_in table.now }
{
    table.len() / ROW_WORDS
}

// The rows from an element's on.
pub fn rows_from(table: &[u64], e: ElementNumber) -> &[u64]
    ensures { result.now ≡ rows_from table.now e.0 }
{
    let i = e.0;
    if i <= table.len() / ROW_WORDS {
        return &table[ROW_WORDS * i..];
    }
    &table[table.len()..]
}

// Word j of row i, 0 where there is no such row.
fn cell(table: &[u64], i: usize, j: usize) -> u64
    requires { j < row_words }
    ensures { result ≡ cell_at table.now i j }
{
    lent_tables::word_in::<ROW_WORDS>(table, i, j)
}

// Puts a row at its number, where the table has room for it.
pub fn put_row(t: &mut [u64], e: ElementNumber, kind: u64, first: BytePlace, size: usize)
    ensures { t.new ≡ put_row t.old e.0 kind first.0 size }
{
    let n = e.0;
    if n < t.len() / ROW_WORDS {
        let w = n * ROW_WORDS;
        t[w] = kind;
        t[w + FIRST] = first.0 as u64;
        t[w + SIZE] = size as u64;
    }
}

// The kind of an element, 0 where there is none.
pub fn kind_of(table: &[u64], e: ElementNumber) -> u64
    ensures { result ≡ cell_at table.now e.0 kind_column }
{
    cell(table, e.0, KIND)
}

// How many bytes an element has.
pub fn size_of(table: &[u64], e: ElementNumber) -> u64
    ensures { result ≡ cell_at table.now e.0 size_column }
{
    cell(table, e.0, SIZE)
}

// The byte place of an element: the only way from one counting to the other.
pub fn place_of(table: &[u64], e: ElementNumber) -> BytePlace
    ensures { result.0 ≡ cell_at table.now e.0 first_column }
{
    BytePlace(cell(table, e.0, FIRST) as usize)
}

// The n bytes from x stand in the text.
pub fn stands(s: &[u8], x: BytePlace, n: u64) -> bool
    ensures { result ≡ within s.now x.0 n }
{
    let size = s.len();
    let first = x.0;
    if size < first {
        return false;
    }
    n <= (size - first) as u64
}
