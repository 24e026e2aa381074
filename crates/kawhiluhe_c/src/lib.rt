// What C programs link: each function of the library under its own name and with its own clauses, since one crate is not both a library and an
// archive. include/kawhiluhe.h describes the tables' rows.
#![tactic(auto)]

ghost use Rattle.std.specs.Prelude.{◌≡◌, ◌/◌, length};
ghost use Rattle.element_reading.specs.Reading.{reading_of, table_of};
ghost use Rattle.lookup.specs.Lookup.{found_of};
ghost use Rattle.lookup.specs.Structs.{struct_words};
ghost use Rattle.pieces.specs.Records.{record_words};
ghost use Rattle.puts.specs.Lines.{Part};
ghost use Rattle.item_lines.specs.Lines.{survey_line, survey_lines};
ghost use Rattle.record_lines.specs.Lines.{record_line, record_lines};
ghost use Rattle.tree_lines.specs.Lines.{tree_line, tree_lines};
ghost use Rattle.element_lines.specs.Lines.{element_line, element_lines};
ghost use Rattle.stored_lines.specs.Lines.{stored_line, stored_lines};
ghost use Rattle.kawhiluhe.specs.AnswerNumbers.{element_numbers, StrictPermitted, SurveyPermitted, found_number};
ghost use Rattle.kawhiluhe.specs.StoredNumbers.{StorePermitted, UnstorePermitted, AgainPermitted};

use kawhiluhe::{Elements, Judged, Kept, Surveyed, Unstored};
use lookup::Item;
use puts::Filled;

// The elements of a text, a row of the table to each.
#[unsafe(no_mangle)]
pub extern "C" fn kawhiluhe_elements(text: &[u8], elements: &mut [u64]) -> Elements
    ensures value { result ≡ element_numbers (reading_of text.now (length elements.old)) }
    ensures elements_after { elements.new ≡ table_of text.now (length elements.old) }
{
    kawhiluhe::kawhiluhe_elements(text, elements)
}

// The strict reading of a text: its elements, and its tree in a table of five words a row.
#[unsafe(no_mangle)]
pub extern "C" fn kawhiluhe_strict(text: &[u8], elements: &mut [u64], tree: &mut [u64]) -> Judged
    ensures { StrictPermitted text.now (length elements.old) (length tree.old) result elements.new tree.new }
{
    kawhiluhe::kawhiluhe_strict(text, elements, tree)
}

// The survey of a package: its elements, and a record of eight words to each piece.
#[unsafe(no_mangle)]
pub extern "C" fn kawhiluhe_survey(text: &[u8], elements: &mut [u64], items: &mut [u64]) -> Surveyed
    ensures { SurveyPermitted text.now (length elements.old) (length items.old) result elements.new items.new }
{
    kawhiluhe::kawhiluhe_survey(text, elements, items)
}

// The first record of a table, eight words to a record, that claims a name; how many records the table has, where none does.
#[unsafe(no_mangle)]
pub extern "C" fn kawhiluhe_lookup(text: &[u8], elements: &[u64], name: &[u8], items: &[u64]) -> u64
    ensures { result ≡ found_number (found_of text.now elements.now name.now items.now) (length items.now / record_words) }
{
    kawhiluhe::kawhiluhe_lookup(text, elements, name, items)
}

// The same over records lent as structs of eight words.
#[unsafe(no_mangle)]
pub extern "C" fn kawhiluhe_lookup_items<'a>(
    text: &'a [u8],
    elements: &'a [u64],
    name: &'a [u8],
    items: &'a [Item],
) -> u64
    ensures { result ≡ found_number (found_of text.now elements.now name.now (struct_words items.now)) (length items.now) }
{
    kawhiluhe::kawhiluhe_lookup_items(text, elements, name, items)
}

// A whole survey as the bytes of a stored table.
#[unsafe(no_mangle)]
pub extern "C" fn kawhiluhe_store(
    text: &[u8],
    elements: &mut [u64],
    items: &mut [u64],
    out: &mut [u8],
) -> Kept
    ensures { StorePermitted text.now (length elements.old) (length items.old) (length out.old) result elements.new items.new out.new }
{
    kawhiluhe::kawhiluhe_store(text, elements, items, out)
}

// The items of a stored table, a row of six words to each.
#[unsafe(no_mangle)]
pub extern "C" fn kawhiluhe_read_stored(bytes: &[u8], rows: &mut [u64]) -> Unstored
    ensures { UnstorePermitted bytes.now (length rows.old) result rows.new }
{
    kawhiluhe::kawhiluhe_read_stored(bytes, rows)
}

// A stored table read, and what was read stored again.
#[unsafe(no_mangle)]
pub extern "C" fn kawhiluhe_store_again(bytes: &[u8], rows: &mut [u64], out: &mut [u8]) -> Kept
    ensures { AgainPermitted bytes.now (length rows.old) (length out.old) result rows.new out.new }
{
    kawhiluhe::kawhiluhe_store_again(bytes, rows, out)
}

// What is printed of an answer, lent as its words, from a line on: as many whole lines as the buffer has room for, and zeros after them. Of
// the elements:
#[unsafe(no_mangle)]
pub extern "C" fn kawhiluhe_element_lines(
    elements: &[u64],
    answer: &[u64],
    from: usize,
    out: &mut [u8],
) -> Filled
    ensures { Part (element_line elements.now answer.now) from (element_lines elements.now answer.now) (length out.old) result out.new }
{
    kawhiluhe::kawhiluhe_element_lines(elements, answer, from, out)
}

// Of the tree.
#[unsafe(no_mangle)]
pub extern "C" fn kawhiluhe_tree_lines(
    tree: &[u64],
    answer: &[u64],
    from: usize,
    out: &mut [u8],
) -> Filled
    ensures { Part (tree_line tree.now answer.now) from (tree_lines tree.now answer.now) (length out.old) result out.new }
{
    kawhiluhe::kawhiluhe_tree_lines(tree, answer, from, out)
}

// Of a survey's items.
#[unsafe(no_mangle)]
pub extern "C" fn kawhiluhe_survey_lines(
    text: &[u8],
    elements: &[u64],
    items: &[u64],
    answer: &[u64],
    from: usize,
    out: &mut [u8],
) -> Filled
    ensures { Part (survey_line text.now elements.now items.now answer.now) from (survey_lines items.now answer.now) (length out.old) result out.new }
{
    kawhiluhe::kawhiluhe_survey_lines(text, elements, items, answer, from, out)
}

// Of its records, its tally and its pair.
#[unsafe(no_mangle)]
pub extern "C" fn kawhiluhe_record_lines(
    items: &[u64],
    answer: &[u64],
    from: usize,
    out: &mut [u8],
) -> Filled
    ensures { Part (record_line items.now answer.now) from (record_lines items.now answer.now) (length out.old) result out.new }
{
    kawhiluhe::kawhiluhe_record_lines(items, answer, from, out)
}

// Of a stored table.
#[unsafe(no_mangle)]
pub extern "C" fn kawhiluhe_stored_lines(
    bytes: &[u8],
    rows: &[u64],
    answer: &[u64],
    from: usize,
    out: &mut [u8],
) -> Filled
    ensures { Part (stored_line bytes.now rows.now answer.now) from (stored_lines rows.now answer.now) (length out.old) result out.new }
{
    kawhiluhe::kawhiluhe_stored_lines(bytes, rows, answer, from, out)
}
