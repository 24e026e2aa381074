// Names resolved: each name used, to the first record that claims it. Names are hashed and chained once, so that a search compares few.
// Every public function takes any text and tables.
#![tactic(auto)]

ghost use Rattle.std.specs.Prelude.{◌≡◌, true, cond, ℕ, ◌+◌, ◌≤◌, ◌<◌, length, get_or, replicate};
ghost use Rattle.places.specs.Sizes.{most_pieces};
ghost use Rattle.same_names.specs.Alike.{spelled_as};
ghost use Rattle.names.specs.code.Links.{records_in, link_of, own_of, up_to, filled, links_table, owns_table, twins_table, any_twin};
ghost use Rattle.names.specs.code.Language.{language_of};
ghost use Rattle.names.specs.code.Chains.{hashes, buckets, mixed_with, hash_from, bucket_of, in_bucket, Chained, First, Flagging, seven_of};

use pieces::RECORD_WORDS;
use places::{BytePlace, ElementNumber, MOST_PIECES};

// How many chains the names are hashed into.
const BUCKETS: usize = 1024;

// How many hashes there are, what one is multiplied by, and how many go to a chain.
const HASHES: u64 = 4294967296;

const MULTIPLIER: u64 = 2654435761;

const PER_CHAIN: u64 = HASHES / (BUCKETS as u64);

// The names that the language claims, by number. They stay numbers, with 0 for none: `language_of` says them so, and by it the definitions and
// theorems of the crates above.
pub const INTEGER: u64 = 1;

pub const NATURAL: u64 = 2;

pub const POSITIVE: u64 = 3;

pub const BOOLEAN: u64 = 4;

pub const TRUE: u64 = 5;

pub const FALSE: u64 = 6;

// How many letters they have; natural and boolean have as many as integer.
const TRUE_SIZE: u64 = 4;

const FALSE_SIZE: u64 = 5;

const INTEGER_SIZE: u64 = 7;

const POSITIVE_SIZE: u64 = 8;

// The records that claim names, chained by the hashes of the names in a text: the first record of each chain and the one after each, and one
// more; 0 where there is none.
#[derive(Clone, Copy)]
struct Chains<'a> {
    text: &'a [u8],
    elements: &'a [u64],
    items: &'a [u64],
    heads: &'a [u64; BUCKETS],
    next: &'a [u64; MOST_PIECES],
    ghost chained: { Chained (in_bucket text.now elements.now items.now) (records_in items.now) 0 heads.now next.now },
}

fn mixed(h: u64, b: u8) -> u64
    requires { h < hashes }
    ensures { (result ≡ mixed_with h b) × (result < hashes) }
{
    (h + u64::from(b)) * MULTIPLIER % HASHES
}

fn hashed(text: &[u8], first: BytePlace, n: usize, basic: bool) -> u64
    requires { first.0 + n ≤ length text.now }
    ensures { (result ≡ hash_from basic text.now first.0 n 0) × (result < hashes) }
{
    let from = first.0;
    let mut h: u64 = 0;
    for b in &text[from..from + n] {
        h = mixed(h, same_names::counted(basic, *b));
    }
    h
}

// Which chain element e's name is of.
fn bucket(text: &[u8], elements: &[u64], e: ElementNumber) -> usize
    ensures { (result ≡ bucket_of text.now elements.now e.0) × (result < buckets) }
{
    let first = places::place_of(elements, e);
    let n = places::size_of(elements, e);
    if places::stands(text, first, n) {
        let kind = places::kind_of(elements, e);
        let h = hashed(text, first, n as usize, kind == places::IDENTIFIER);
        return (h / PER_CHAIN) as usize;
    }
    0
}

// The chains of the first n records, from the last to the first.
fn chain_names(
    text: &[u8],
    elements: &[u64],
    items: &[u64],
    n: usize,
    heads: &mut [u64; BUCKETS],
    next: &mut [u64; MOST_PIECES],
)
    requires { (n ≤ most_pieces) × (heads.old ≡ replicate buckets 0) × (next.old ≡ replicate most_pieces 0) }
    ensures { Chained (in_bucket text.now elements.now items.now) n 0 heads.new next.new }
{
    for i in (0..n).rev() {
        if records::is_claim(records::word(items, i, pieces::CLASS)) {
            let b = bucket(
                text,
                elements,
                ElementNumber(records::word(items, i, pieces::NAME) as usize),
            );
            next[i] = heads[b];
            heads[b] = (i + 1) as u64;
        }
    }
}

// The first record that claims element e's name, and one more; 0 where none does: the lent tables hold it so.
fn find(chains: &Chains, e: ElementNumber) -> u64
    ensures { result ≡ link_of chains.now.text.now chains.now.elements.now chains.now.items.now e.0 }
{
    let mut h = chains.heads[bucket(chains.text, chains.elements, e)];
    // a while: each turn goes on by what the chain says
    while h != 0 {
        let j = (h - 1) as usize;
        if same_names::same_name(
            chains.text,
            chains.elements,
            ElementNumber(records::word(chains.items, j, pieces::NAME) as usize),
            e,
        ) {
            return h;
        }
        h = chains.next[j];
    }
    0
}

// Element e's link: only a name has one.
fn link_at(chains: &Chains, rows: usize, e: ElementNumber) -> u64
    ensures { result ≡ up_to (link_of chains.now.text.now chains.now.elements.now chains.now.items.now) rows e.0 }
{
    if e.0 < rows {
        let kind = places::kind_of(chains.elements, e);
        if (kind == places::IDENTIFIER) | (kind == places::EXTENDED) {
            return find(chains, e);
        }
    }
    0
}

fn write_links(chains: &Chains, rows: usize, links: &mut [u64])
    ensures { links.new ≡ filled (link_of chains.now.text.now chains.now.elements.now chains.now.items.now) rows (length links.old) }
{
    for (e, link) in links.iter_mut().enumerate() {
        *link = link_at(chains, rows, ElementNumber(e));
    }
}

// A claim's name is an element, and linked already where the links reach it.
fn own_link(chains: &Chains, rows: usize, links: &[u64], i: usize) -> u64
    requires { links.now ≡ filled (link_of chains.now.text.now chains.now.elements.now chains.now.items.now) rows (length links.now) }
    ensures { result ≡ own_of chains.now.text.now chains.now.elements.now chains.now.items.now i }
{
    if records::is_claim(records::word(chains.items, i, pieces::CLASS)) {
        let e = records::word(chains.items, i, pieces::NAME) as usize;
        if e < rows.min(links.len()) {
            return links[e];
        }
        return find(chains, ElementNumber(e));
    }
    0
}

fn own_links(chains: &Chains, n: usize, rows: usize, links: &[u64], own: &mut [u64; MOST_PIECES])
    requires { (n ≤ most_pieces) × (own.old ≡ replicate most_pieces 0) × (links.now ≡ filled (link_of chains.now.text.now chains.now.elements.now chains.now.items.now) rows (length links.now)) }
    ensures { (i : ℕ) → i < n → get_or own.new i 0 ≡ own_of chains.now.text.now chains.now.elements.now chains.now.items.now i }
{
    for i in 0..n {
        own[i] = own_link(chains, rows, links, i);
    }
}

// A record that is not the first to claim its name, and that first: each has a twin.
fn find_twins(own: &[u64; MOST_PIECES], n: usize, flags: &mut [u64; MOST_PIECES]) -> bool
    requires { (n ≤ most_pieces) × First own.now n × (flags.old ≡ replicate most_pieces 0) }
    ensures { Flagging own.now n n flags.new result }
{
    let mut any = false;
    for i in 0..n {
        let f = own[i];
        if (f != 0) & (f != (i as u64) + 1) {
            flags[i] = 1;
            flags[(f - 1) as usize] = 1;
            any = true;
        }
    }
    any
}

fn word_at(from: &[u64; MOST_PIECES], n: usize, i: usize) -> u64
    requires { n ≤ most_pieces }
    ensures { result ≡ up_to (λ (k : ℕ). get_or from.now k 0) n i }
{
    if i < n { from[i] } else { 0 }
}

// The first n words, then zeros. Word by word, since a copy of slices is a `memcpy`, which an archive for C would need from outside.
fn write_words(from: &[u64; MOST_PIECES], n: usize, to: &mut [u64])
    requires { n ≤ most_pieces }
    ensures { to.new ≡ filled (λ (k : ℕ). get_or from.now k 0) n (length to.old) }
{
    for (i, word) in to.iter_mut().enumerate() {
        *word = word_at(from, n, i);
    }
}

// For each element, the first record that claims its name and one more, 0 where none does or it is no name; for each record the same of
// its own name, 0 where it claims none; for each record 1 where another claims its name too. Whether any name is claimed twice.
pub fn link_names(
    text: &[u8],
    elements: &[u64],
    count: usize,
    items: &[u64],
    links: &mut [u64],
    owns: &mut [u64],
    twins: &mut [u64],
) -> bool
    ensures value { result ≡ any_twin text.now elements.now items.now }
    ensures links_after { links.new ≡ links_table text.now elements.now count items.now (length links.old) }
    ensures owns_after { owns.new ≡ owns_table text.now elements.now items.now (length owns.old) }
    ensures twins_after { twins.new ≡ twins_table text.now elements.now items.now (length twins.old) }
{
    let n = (items.len() / RECORD_WORDS).min(MOST_PIECES);
    let mut heads = [0u64; BUCKETS];
    let mut next = [0u64; MOST_PIECES];
    chain_names(text, elements, items, n, &mut heads, &mut next);
    let rows = count.min(places::rows_in(elements));
    let chains = Chains {
        text,
        elements,
        items,
        heads: &heads,
        next: &next,
    };
    write_links(&chains, rows, links);
    let mut own = [0u64; MOST_PIECES];
    own_links(&chains, n, rows, links, &mut own);
    let mut flags = [0u64; MOST_PIECES];
    let any = find_twins(&own, n, &mut flags);
    write_words(&own, n, owns);
    write_words(&flags, n, twins);
    any
}

// The number, where element e is spelled as the name; else 0.
fn told(text: &[u8], elements: &[u64], e: ElementNumber, name: &[u8], number: u64) -> u64
    ensures { result ≡ cond (spelled_as true text.now elements.now e.0 name.now) number 0 }
{
    if same_names::spelled_as(true, text, elements, e, name) {
        number
    } else {
        0
    }
}

// The names of seven letters.
fn seven(text: &[u8], elements: &[u64], e: ElementNumber) -> u64
    ensures { result ≡ seven_of (spelled_as true text.now elements.now e.0) }
{
    if same_names::spelled_as(true, text, elements, e, b"integer") {
        return INTEGER;
    }
    if same_names::spelled_as(true, text, elements, e, b"natural") {
        return NATURAL;
    }
    told(text, elements, e, b"boolean", BOOLEAN)
}

// The number of the language's name that an element is; 0 for any other element.
pub fn language(text: &[u8], elements: &[u64], e: ElementNumber) -> u64
    ensures { result ≡ language_of text.now elements.now e.0 }
{
    if places::kind_of(elements, e) != places::IDENTIFIER {
        return 0;
    }
    let size = places::size_of(elements, e);
    match size {
        TRUE_SIZE => told(text, elements, e, b"true", TRUE),
        FALSE_SIZE => told(text, elements, e, b"false", FALSE),
        INTEGER_SIZE => seven(text, elements, e),
        POSITIVE_SIZE => told(text, elements, e, b"positive", POSITIVE),
        _ => 0,
    }
}
