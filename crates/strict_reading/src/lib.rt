// The strict reading of a text: elements, tree and verdict, with two lent tables. Any bytes and any tables may be given.
#![tactic(auto)]

ghost use Rattle.std.specs.Prelude.{◌≡◌, ◌+◌, ◌*◌, ◌≤◌, length};
ghost use Rattle.places.specs.Places.{row_words, kinds_of};
ghost use Rattle.strict_reading.specs.Permitted.{Permitted};
ghost use Rattle.strict_reading.specs.code.Strict.{unreadable_from, elements_as, file_of, tree_table, kept_by_strict, tree_as};

use places::ElementNumber;
use refusals::StrictRefusal;
use verdict::Verdict;

// How many rows the tree has, and the verdict on them.
#[derive(Clone, Copy)]
pub struct Judgement {
    pub rows: usize,
    pub verdict: Verdict,
}

// The first unreadable of a table's elements.
fn first_unreadable(elements: &[u64], count: usize) -> Option<usize>
    requires { row_words * count ≤ length elements.now }
    ensures { result ≡ unreadable_from 0 (kinds_of count elements.now) }
{
    for i in 0..count {
        if places::kind_of(elements, ElementNumber(i)) == places::UNREADABLE {
            return Some(i);
        }
    }
    None
}

// Elements that are all readable, as a file.
fn read_file(
    text: &[u8],
    elements: &mut [u64],
    count: usize,
    tree: &mut [u64],
) -> Result<Judgement, StrictRefusal>
    ensures value { result ≡ file_of text.now elements.old count (length tree.old) }
    ensures elements_after { elements.new ≡ kept_by_strict (file_of text.now elements.old count (length tree.old)) elements.old }
    ensures tree_after { tree.new ≡ tree_table text.now elements.old count (length tree.old) }
{
    match tree::read_tree(text, elements, count, tree) {
        Ok(rows) => Ok(Judgement {
            rows,
            verdict: verdict::judge(tree, rows),
        }),
        Err(r) => {
            lent_tables::clear(elements);
            Err(r)
        },
    }
}

// Elements, readable or not, as a file.
fn read_all(
    text: &[u8],
    elements: &mut [u64],
    count: usize,
    tree: &mut [u64],
) -> Result<Judgement, StrictRefusal>
    requires { row_words * count ≤ length elements.old }
    ensures value { result ≡ elements_as text.now elements.old count (length tree.old) }
    ensures elements_after { elements.new ≡ kept_by_strict (elements_as text.now elements.old count (length tree.old)) elements.old }
    ensures tree_after { tree.new ≡ tree_as text.now elements.old count (length tree.old) }
{
    match first_unreadable(elements, count) {
        Some(k) => {
            lent_tables::clear(elements);
            lent_tables::clear(tree);
            Err(StrictRefusal::Unreadable(ElementNumber(k)))
        },
        None => read_file(text, elements, count, tree),
    }
}

pub fn read_strict(
    text: &[u8],
    elements: &mut [u64],
    tree: &mut [u64],
) -> Result<Judgement, StrictRefusal>
    ensures { Permitted text.now (length elements.old) (length tree.old) result elements.new tree.new }
{
    match element_reading::read_elements(text, elements) {
        Ok(count) => read_all(text, elements, count.0, tree),
        Err(r) => {
            lent_tables::clear(tree);
            Err(StrictRefusal::Elements(r))
        },
    }
}
