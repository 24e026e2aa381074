// The pieces of an element table: where each begins and ends, its class and its name. Every public function takes any table.
#![tactic(auto)]

ghost use Rattle.std.specs.Prelude.{◌≡◌, ◌+◌, ◌*◌, ◌/◌, ◌≤◌, ◌<◌, min, length, get_or, drop};
ghost use Rattle.std.proofs.lemmas.List.Edits.{sets};
ghost use Rattle.pieces.specs.Cutting.{piece_size};
ghost use Rattle.pieces.specs.Kinds.{kinds_at, closes_piece, opens_piece, kind_pieces, is_heading, behind_both, behind_word, ends_at, claim_class, piece_class};
ghost use Rattle.places.specs.Kinds.{is_name};
ghost use Rattle.places.specs.Places.{all_words, row_words, rows_in, kinds_of};
ghost use Rattle.pieces.specs.Records.{record_words, name_of, pending_record, pending_records, pieces_in, recording, record_table};
ghost use Rattle.pieces.specs.Classes.{is_either};
ghost use Rattle.pieces.specs.Frames.{closing_name, last_framed, framed_from, frame_of};

use places::ElementNumber;

// The words of an item record, by their places, and how many there are.
pub const CLASS: usize = 0;

pub const FIRST: usize = 1;

pub const COUNT: usize = 2;

pub const NAME: usize = 3;

pub const STATE: usize = 4;

pub const KIND: usize = 5;

pub const LOW: usize = 6;

pub const HIGH: usize = 7;

pub const RECORD_WORDS: usize = 8;

// The classes of pieces.
pub const HEADING: u64 = 1;

pub const CLOSING: u64 = 2;

pub const CONSTANT: u64 = 3;

pub const SUBTYPE: u64 = 4;

pub const UNCLAIMED: u64 = 5;

// The kinds by which pieces are told: each is computed from its spelling in `spellings`.
const SEMICOLON: u64 = 26;

pub const WORD_CONSTANT: u64 = 53;

pub const WORD_DOWNTO: u64 = 58;

const WORD_END: u64 = 61;

const WORD_IS: u64 = 78;

const WORD_PACKAGE: u64 = 98;

pub const WORD_SUBTYPE: u64 = 129;

// A heading's three elements, of which `is` is the last; and the place after `end` and `package`.
const HEADING_SIZE: usize = 3;

const HEADING_END: usize = HEADING_SIZE - 1;

const BEHIND_BOTH: usize = 2;

// Why no piece was marked: refusal 9; or refusal 10 with the rows that the table has.
#[derive(Clone, Copy)]
pub enum NotRecorded {
    TooMany,
    TableShort(usize),
}

fn is_name(k: u64) -> bool
    ensures { result ≡ is_name k }
{
    (k == places::IDENTIFIER) | (k == places::EXTENDED)
}

fn closes_piece(k: u64) -> bool
    ensures { result ≡ closes_piece k }
{
    k == SEMICOLON
}

fn opens_piece(k: u64) -> bool
    ensures { result ≡ opens_piece k }
{
    (k == WORD_CONSTANT) | (k == WORD_SUBTYPE) | (k == WORD_END)
}

// The kind of an element, 0 past the last.
fn kind_at(elements: &[u64], n: usize, e: ElementNumber) -> u64
    requires { row_words * n ≤ length elements.now }
    ensures { result ≡ get_or (kinds_of n elements.now) e.0 0 }
{
    if e.0 < n {
        places::kind_of(elements, e)
    } else {
        0
    }
}

// How many elements the piece has that begins at an element that there is.
fn size_at(elements: &[u64], n: usize, first: ElementNumber) -> usize
    requires { (row_words * n ≤ length elements.now) × (first.0 < n) }
    ensures { result ≡ piece_size closes_piece opens_piece (drop first.0 (kinds_of n elements.now)) }
{
    let mut closed = closes_piece(kind_at(elements, n, first));
    let most = n - first.0;
    for m in 1..most {
        let next = first.0 + m;
        let k = kind_at(elements, n, ElementNumber(next));
        if closed | opens_piece(k) {
            return m;
        }
        closed = closes_piece(k);
    }
    most
}

// How many elements the piece has that begins at an element, 0 past the last.
pub fn piece_size(elements: &[u64], count: usize, first: ElementNumber) -> usize
    ensures { result ≡ piece_size closes_piece opens_piece (drop first.0 (kinds_of (min count (rows_in elements.now)) elements.now)) }
{
    let n = count.min(places::rows_in(elements));
    if n <= first.0 {
        return 0;
    }
    size_at(elements, n, first)
}

fn count_pieces(elements: &[u64], n: usize) -> usize
    requires { row_words * n ≤ length elements.now }
    ensures { result ≡ length (kind_pieces (kinds_of n elements.now)) }
{
    let mut at: usize = 0;
    let mut c: usize = 0;
    // A while: each turn goes on by the piece's size.
    while at < n {
        at += size_at(elements, n, ElementNumber(at));
        c += 1;
    }
    c
}

// The kind of the i-th element of a piece, 0 past its last.
fn kind_in(elements: &[u64], n: usize, first: ElementNumber, count: usize, i: usize) -> u64
    requires { (row_words * n ≤ length elements.now) × (first.0 + count ≤ n) }
    ensures { result ≡ get_or (kinds_at n elements.now first.0 count) i 0 }
{
    if i < count {
        let e = first.0 + i;
        places::kind_of(elements, ElementNumber(e))
    } else {
        0
    }
}

fn is_heading(elements: &[u64], n: usize, first: ElementNumber, count: usize) -> bool
    requires { (row_words * n ≤ length elements.now) × (first.0 + count ≤ n) }
    ensures { result ≡ is_heading (kinds_at n elements.now first.0 count) }
{
    if count != HEADING_SIZE {
        return false;
    }
    let one = kind_in(elements, n, first, count, 0);
    let two = kind_in(elements, n, first, count, 1);
    let three = kind_in(elements, n, first, count, HEADING_END);
    (one == WORD_PACKAGE) & is_name(two) & (three == WORD_IS)
}

// Where the name of a closing would stand: after `end` and perhaps `package`.
fn behind_word(elements: &[u64], n: usize, first: ElementNumber, count: usize) -> usize
    requires { (row_words * n ≤ length elements.now) × (first.0 + count ≤ n) }
    ensures { result ≡ behind_word (kinds_at n elements.now first.0 count) }
{
    if kind_in(elements, n, first, count, 1) == WORD_PACKAGE {
        BEHIND_BOTH
    } else {
        1
    }
}

// What a piece is: its class, and its name's place in it, 0 where there is none.
#[derive(Clone, Copy)]
pub struct PieceClass {
    pub class: u64,
    pub place: usize,
}

// A piece that begins with `end`, its name's place aside.
fn closes_with(elements: &[u64], n: usize, first: ElementNumber, count: usize, at: usize) -> bool
    requires { (row_words * n ≤ length elements.now) × (first.0 + count ≤ n) × (at ≤ behind_both + 1) }
    ensures { result ≡ ends_at (kinds_at n elements.now first.0 count) at }
{
    let begun = kind_in(elements, n, first, count, 0);
    let last = kind_in(elements, n, first, count, at);
    (begun == WORD_END) & (last == SEMICOLON) & (count == at + 1)
}

fn claim_class(elements: &[u64], n: usize, first: ElementNumber, count: usize) -> PieceClass
    requires { (row_words * n ≤ length elements.now) × (first.0 + count ≤ n) }
    ensures { result ≡ claim_class (kinds_at n elements.now first.0 count) }
{
    if !is_name(kind_in(elements, n, first, count, 1)) {
        return PieceClass {
            class: UNCLAIMED,
            place: 0,
        };
    }
    let k = kind_in(elements, n, first, count, 0);
    if k == WORD_CONSTANT {
        return PieceClass {
            class: CONSTANT,
            place: 1,
        };
    }
    if k == WORD_SUBTYPE {
        return PieceClass {
            class: SUBTYPE,
            place: 1,
        };
    }
    PieceClass {
        class: UNCLAIMED,
        place: 0,
    }
}

fn piece_class(elements: &[u64], n: usize, first: ElementNumber, count: usize) -> PieceClass
    requires { (row_words * n ≤ length elements.now) × (first.0 + count ≤ n) }
    ensures { result ≡ piece_class (kinds_at n elements.now first.0 count) }
{
    if is_heading(elements, n, first, count) {
        return PieceClass {
            class: HEADING,
            place: 1,
        };
    }
    let w = behind_word(elements, n, first, count);
    if is_name(kind_in(elements, n, first, count, w)) {
        if closes_with(elements, n, first, count, w + 1) {
            return PieceClass {
                class: CLOSING,
                place: w,
            };
        }
        return claim_class(elements, n, first, count);
    }
    if closes_with(elements, n, first, count, w) {
        return PieceClass {
            class: CLOSING,
            place: 0,
        };
    }
    claim_class(elements, n, first, count)
}

// The name's element, 0 where there is none.
fn name_element(first: ElementNumber, place: usize) -> ElementNumber
    requires { first.0 + place < all_words }
    ensures { result.0 ≡ name_of first.0 place }
{
    if place == 0 {
        return ElementNumber(0);
    }
    let e = first.0 + place;
    ElementNumber(e)
}

// The record of a piece: class, first element, count, name element; nothing is known of its state yet.
fn write_record(items: &mut [u64], w: usize, first: ElementNumber, count: usize, m: PieceClass)
    requires { (w + record_words ≤ length items.old) × (first.0 + m.place < all_words) }
    ensures { items.new ≡ sets items.old w (pending_record first.0 count m) }
{
    let name = name_element(first, m.place);
    items[w] = m.class;
    items[w + FIRST] = first.0 as u64;
    items[w + COUNT] = count as u64;
    items[w + NAME] = name.0 as u64;
    items[w + STATE] = 0;
    items[w + KIND] = 0;
    items[w + LOW] = 0;
    items[w + HIGH] = 0;
}

// Classing every piece: its record stands at its number.
fn write_records(elements: &[u64], n: usize, items: &mut [u64])
    requires { (row_words * n ≤ length elements.now) × (record_words * length (kind_pieces (kinds_of n elements.now)) ≤ length items.old) }
    ensures { items.new ≡ sets items.old 0 (pending_records 0 (kind_pieces (kinds_of n elements.now))) }
{
    let mut at: usize = 0;
    let mut w: usize = 0;
    // A while: each turn goes on by the piece's size.
    while at < n {
        let first = ElementNumber(at);
        let count = size_at(elements, n, first);
        let m = piece_class(elements, n, first, count);
        write_record(items, w, first, count, m);
        at += count;
        w += RECORD_WORDS;
    }
}

// Cuts the elements into pieces and marks each, and answers how many they are; the item table holds the records, and zeros after them or on a refusal.
pub fn record_pieces(
    elements: &[u64],
    count: usize,
    items: &mut [u64],
) -> Result<usize, NotRecorded>
    ensures value { result ≡ recording (length (pieces_in elements.now count)) (length items.old) }
    ensures after { items.new ≡ record_table (pieces_in elements.now count) (length items.old) }
{
    let rows = items.len() / RECORD_WORDS;
    lent_tables::clear(items);
    let n = count.min(places::rows_in(elements));
    let pieces = count_pieces(elements, n);
    if places::MOST_PIECES < pieces {
        return Err(NotRecorded::TooMany);
    }
    if rows < pieces {
        return Err(NotRecorded::TableShort(rows));
    }
    write_records(elements, n, items);
    Ok(pieces)
}

// Where the first piece is a heading, the last a closing and no other is either: the elements of their names, of which a closing may have none.
#[derive(Clone, Copy)]
pub struct Frame {
    pub heading: ElementNumber,
    pub closing: Option<ElementNumber>,
}

fn is_either(class: u64) -> bool
    ensures { result ≡ is_either class }
{
    (class == HEADING) | (class == CLOSING)
}

// The element of a closing's name, if it has one.
fn closing_name(first: ElementNumber, place: usize) -> Option<ElementNumber>
    requires { first.0 + place < all_words }
    ensures { result ≡ closing_name first.0 place }
{
    if place == 0 {
        return None;
    }
    let e = first.0 + place;
    Some(ElementNumber(e))
}

// The last piece, which begins at an element: a closing, or there is no frame.
fn last_piece(heading: ElementNumber, first: ElementNumber, m: PieceClass) -> Option<Frame>
    requires { first.0 + m.place < all_words }
    ensures { result ≡ last_framed heading.0 first.0 m }
{
    if m.class != CLOSING {
        return None;
    }
    let closing = closing_name(first, m.place);
    Some(Frame { heading, closing })
}

// The pieces after a heading, from the one on that begins at an element.
fn frame_from(
    elements: &[u64],
    n: usize,
    heading: ElementNumber,
    from: ElementNumber,
) -> Option<Frame>
    requires { (row_words * n ≤ length elements.now) × (from.0 ≤ n) }
    ensures { result ≡ framed_from heading.0 from.0 (kind_pieces (drop from.0 (kinds_of n elements.now))) }
{
    let mut at = from.0;
    // A while: each turn goes on by the piece's size.
    while at < n {
        let first = ElementNumber(at);
        let count = size_at(elements, n, first);
        let m = piece_class(elements, n, first, count);
        let next = at + count;
        if next == n {
            return last_piece(heading, first, m);
        }
        if is_either(m.class) {
            return None;
        }
        at = next;
    }
    None
}

// What the pieces of the elements say of the frame.
pub fn frame_of(elements: &[u64], count: usize) -> Option<Frame>
    ensures { result ≡ frame_of (pieces_in elements.now count) }
{
    let n = count.min(places::rows_in(elements));
    if n == 0 {
        return None;
    }
    let first = ElementNumber(0);
    let size = size_at(elements, n, first);
    let m = piece_class(elements, n, first, size);
    if m.class != HEADING {
        return None;
    }
    let heading = name_element(first, m.place);
    frame_from(elements, n, heading, ElementNumber(size))
}
