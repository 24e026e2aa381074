// 01's refusals, their numbers and their places: of the element reader, of the strict reading and of the survey; and the numbers of 02's.
#![tactic(auto)]

ghost use Rattle.std.specs.Prelude.{◌≡◌};
ghost use Rattle.refusals.specs.Refusals.{refusal_number, refusal_place, strict_number, strict_place, survey_number, survey_place};

use places::{BytePlace, ElementNumber, MOST_PIECES};

// The element reader's: 1, 3, and 4 with the rows that the table has.
#[derive(Clone, Copy)]
pub enum Refusal {
    TextTooLong(BytePlace),
    TooManyElements(ElementNumber),
    TableShort(ElementNumber),
}

// The strict reading's: the element reader's, 2, 5, 6 and 7 with their element, and 8 with the rows that the tree table has.
#[derive(Clone, Copy)]
pub enum StrictRefusal {
    Elements(Refusal),
    Unreadable(ElementNumber),
    NoFile(ElementNumber),
    NameDiffers(ElementNumber),
    TooDeep(ElementNumber),
    TreeShort(usize),
}

// The survey's: the element reader's, 9, and 10 with the records that the item table has.
#[derive(Clone, Copy)]
pub enum SurveyRefusal {
    Elements(Refusal),
    TooMany,
    ItemsShort(usize),
}

// The numbers that more than one reader gives: an item table that is short; 02's, a survey that is not whole, an output that is short, bytes that
// are no stored table.
pub const ITEMS_SHORT: u64 = 10;

pub const NOT_WHOLE: u64 = 21;

pub const OUTPUT_SHORT: u64 = 22;

pub const NOT_STORED: u64 = 24;

pub fn refusal_number(r: Refusal) -> u64
    ensures { result ≡ refusal_number r }
{
    match r {
        Refusal::TextTooLong(_) => 1,
        Refusal::TooManyElements(_) => 3,
        Refusal::TableShort(_) => 4,
    }
}

pub fn refusal_place(r: Refusal) -> usize
    ensures { result ≡ refusal_place r }
{
    match r {
        Refusal::TextTooLong(p) => p.0,
        Refusal::TooManyElements(e) => e.0,
        Refusal::TableShort(e) => e.0,
    }
}

pub fn strict_number(r: StrictRefusal) -> u64
    ensures { result ≡ strict_number r }
{
    match r {
        StrictRefusal::Elements(e) => refusal_number(e),
        StrictRefusal::Unreadable(_) => 2,
        StrictRefusal::NoFile(_) => 5,
        StrictRefusal::NameDiffers(_) => 6,
        StrictRefusal::TooDeep(_) => 7,
        StrictRefusal::TreeShort(_) => 8,
    }
}

pub fn strict_place(r: StrictRefusal) -> usize
    ensures { result ≡ strict_place r }
{
    match r {
        StrictRefusal::Elements(e) => refusal_place(e),
        StrictRefusal::Unreadable(k) => k.0,
        StrictRefusal::NoFile(k) => k.0,
        StrictRefusal::NameDiffers(k) => k.0,
        StrictRefusal::TooDeep(k) => k.0,
        StrictRefusal::TreeShort(n) => n,
    }
}

pub fn survey_number(r: SurveyRefusal) -> u64
    ensures { result ≡ survey_number r }
{
    match r {
        SurveyRefusal::Elements(e) => refusal_number(e),
        SurveyRefusal::TooMany => 9,
        SurveyRefusal::ItemsShort(_) => ITEMS_SHORT,
    }
}

pub fn survey_place(r: SurveyRefusal) -> usize
    ensures { result ≡ survey_place r }
{
    match r {
        SurveyRefusal::Elements(e) => refusal_place(e),
        SurveyRefusal::TooMany => MOST_PIECES,
        SurveyRefusal::ItemsShort(n) => n,
    }
}
