// Lookup by name over the text, the element table and the item rows, all of any content; and the same over a lent slice of item structs.
#![tactic(auto)]

ghost use Rattle.std.specs.Prelude.{◌≡◌};
ghost use Rattle.lookup.specs.Lookup.{is_named, claims_name};
ghost use Rattle.lookup.specs.Finds.{Finds};
ghost use Rattle.lookup.specs.Structs.{claims_by, struct_words};

use pieces::RECORD_WORDS;
use places::ElementNumber;

// One record of the item table.
#[repr(C)]
#[derive(Clone, Copy)]
pub struct Item {
    pub class: u64,
    pub first: u64,
    pub count: u64,
    pub name: u64,
    pub state: u64,
    pub kind: u64,
    pub low: u64,
    pub high: u64,
}

fn named(text: &[u8], elements: &[u64], e: ElementNumber, name: &[u8]) -> bool
    ensures { result ≡ is_named text.now elements.now e.0 name.now }
{
    match places::kind_of(elements, e) {
        places::IDENTIFIER => same_names::spelled_as(true, text, elements, e, name),
        places::EXTENDED => same_names::spelled_as(false, text, elements, e, name),
        _ => false,
    }
}

fn claims(text: &[u8], elements: &[u64], name: &[u8], items: &[u64], i: usize) -> bool
    ensures { result ≡ claims_name text.now elements.now name.now items.now i }
{
    records::is_claim(records::word(items, i, pieces::CLASS))
        && named(
            text,
            elements,
            ElementNumber(records::word(items, i, pieces::NAME) as usize),
            name,
        )
}

// The first record that claims the name.
pub fn lookup(text: &[u8], elements: &[u64], name: &[u8], items: &[u64]) -> Option<usize>
    ensures { Finds text.now elements.now name.now items.now result }
{
    (0..items.len() / RECORD_WORDS).find(|i| claims(text, elements, name, items, *i))
}

fn claims_by(text: &[u8], elements: &[u64], name: &[u8], item: &Item) -> bool
    ensures { result ≡ claims_by text.now elements.now name.now item.now }
{
    records::is_claim(item.class) && named(text, elements, ElementNumber(item.name as usize), name)
}

// The same over item structs: the answer is the one on their words.
pub fn lookup_items(text: &[u8], elements: &[u64], name: &[u8], items: &[Item]) -> Option<usize>
    ensures { Finds text.now elements.now name.now (struct_words items.now) result }
{
    items
        .iter()
        .position(|item| claims_by(text, elements, name, item))
}
