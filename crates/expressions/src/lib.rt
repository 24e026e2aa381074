// Expressions folded over their rows, from the last to the first, so that each row finds its operands folded. Every public function takes
// any tables.
#![tactic(auto)]

ghost use Rattle.std.specs.Prelude.{◌≡◌, ◌+◌, ◌-◌, ◌*◌, ◌/◌, ◌≤◌, ◌<◌, length, get_or};
ghost use Rattle.places.specs.Sizes.{most_elements};
ghost use Rattle.states.specs.States as state;
ghost use Rattle.forms.specs.RowWords.{row_numbers, row_at, tree_rows_in};
ghost use Rattle.operands.specs.code.Leaves.{wrong_leaf};
ghost use Rattle.expressions.specs.Folds.{element_in, name_value, name_in, literal_at, kind_in_piece, expression_in, folded_row, right_of, fold_of, folded_of};

use folding::Outcome;
use form_numbers::{FIRST, OPERATOR, ROW_NUMBERS, ROWS};
use integers::Folded;
use places::{ElementNumber, MOST_ELEMENTS};
use values::Value;

// Of how many rows an expression is small.
const FEW: usize = 32;

// Where element j of piece i stands in the element table; after the table's last, where the piece has none.
fn element_in(elements: &[u64], items: &[u64], i: usize, j: u64) -> ElementNumber
    ensures { result.0 ≡ element_in elements.now items.now i j }
{
    let n = places::rows_in(elements);
    let from = records::word(items, i, pieces::FIRST) as usize;
    let count = records::word(items, i, pieces::COUNT) as usize;
    let at = j as usize;
    if at < count.min(n.saturating_sub(from)) {
        ElementNumber(from + at)
    } else {
        ElementNumber(n)
    }
}

// Element j of piece i used as a name.
pub fn name_value(
    text: &[u8],
    elements: &[u64],
    items: &[u64],
    links: &[u64],
    i: usize,
    j: u64,
) -> Value
    ensures { result ≡ name_value text.now elements.now items.now links.now i j }
{
    let e = element_in(elements, items, i, j);
    uses::use_of(text, elements, items, links, i, e)
}

fn name_outcome(
    text: &[u8],
    elements: &[u64],
    items: &[u64],
    links: &[u64],
    i: usize,
    j: u64,
) -> Outcome
    ensures { result ≡ name_in text.now elements.now items.now links.now i j }
{
    marks::operand(name_value(text, elements, items, links, i, j))
}

fn literal_outcome(text: &[u8], elements: &[u64], items: &[u64], i: usize, j: u64) -> Outcome
    ensures { result ≡ literal_at text.now elements.now items.now i j }
{
    let e = element_in(elements, items, i, j);
    operands::literal_outcome(text, elements, e)
}

fn kind_in(elements: &[u64], items: &[u64], i: usize, j: u64) -> u64
    ensures { result ≡ kind_in_piece elements.now items.now i j }
{
    places::kind_of(elements, element_in(elements, items, i, j))
}

// What row k comes to, by what its operands do.
fn row_outcome(
    text: &[u8],
    elements: &[u64],
    items: &[u64],
    links: &[u64],
    i: usize,
    rows: &[u64],
    k: usize,
    x: Outcome,
    y: Outcome,
) -> Outcome
    requires { row_numbers * k + row_numbers ≤ length rows.now }
    ensures { result ≡ folded_row text.now elements.now items.now links.now i (row_at rows.now k) x y }
{
    let at = ROW_NUMBERS * k;
    match rows[at] {
        form_numbers::NAME => name_outcome(text, elements, items, links, i, rows[at + FIRST]),
        form_numbers::LITERAL => literal_outcome(text, elements, items, i, rows[at + FIRST]),
        form_numbers::UNARY => {
            let kind = kind_in(elements, items, i, rows[at + OPERATOR]);
            folding::signed(operands::sign_of(kind), x)
        }
        form_numbers::BINARY => {
            let kind = kind_in(elements, items, i, rows[at + OPERATOR]);
            folding::combined(operands::operator_of(kind), x, y)
        }
        _ => operands::wrong_leaf(states::UNFOLDED),
    }
}

// Row k's outcome; a row past the last has no operand.
fn outcome_at(outs: &[Outcome], k: usize) -> Outcome
    ensures { result ≡ get_or outs.now k (wrong_leaf state.unfolded) }
{
    outs.get(k)
        .copied()
        .unwrap_or(operands::wrong_leaf(states::UNFOLDED))
}

// Where the right operand of row k stands.
fn right_of(rows: &[u64], n: usize, k: usize) -> usize
    requires { (row_numbers * n ≤ length rows.now) × (k < n) }
    ensures { result ≡ right_of rows.now n k }
{
    let left = k + 1;
    if left < n {
        let size = rows[ROW_NUMBERS * left + ROWS] as usize;
        left.saturating_add(size).min(n)
    } else {
        n
    }
}

// The rows from the last to the first: each finds its operands done.
fn fold_rows(
    text: &[u8],
    elements: &[u64],
    items: &[u64],
    links: &[u64],
    i: usize,
    rows: &[u64],
    outs: &mut [Outcome],
) -> Outcome
    requires { row_numbers * length outs.old ≤ length rows.now }
    ensures { result ≡ expression_in text.now elements.now items.now links.now i (tree_rows_in (length outs.old) rows.now) }
{
    let n = outs.len();
    for k in (0..n).rev() {
        let x = outcome_at(outs, k + 1);
        let y = outcome_at(outs, right_of(rows, n, k));
        outs[k] = row_outcome(text, elements, items, links, i, rows, k, x, y);
    }
    outcome_at(outs, 0)
}

// The expression of the first n rows, with room for so many outcomes: a function pays at its beginning for the room that it takes.
fn fold_within<const ROOM: usize>(
    text: &[u8],
    elements: &[u64],
    items: &[u64],
    links: &[u64],
    i: usize,
    rows: &[u64],
    n: usize,
) -> Outcome
    requires { (n ≤ ROOM) × (ROOM ≤ most_elements) × (row_numbers * n ≤ length rows.now) }
    ensures { result ≡ expression_in text.now elements.now items.now links.now i (tree_rows_in n rows.now) }
{
    let mut outs = [operands::wrong_leaf(states::UNFOLDED); ROOM];
    fold_rows(text, elements, items, links, i, rows, &mut outs[..n])
}

// The expression of piece i whose rows are lent. Most have few rows, and then the outcomes take little room.
pub fn fold(
    text: &[u8],
    elements: &[u64],
    items: &[u64],
    links: &[u64],
    i: usize,
    rows: &[u64],
) -> Outcome
    ensures { result ≡ fold_of text.now elements.now items.now links.now i rows.now }
{
    let n = (rows.len() / ROW_NUMBERS).min(MOST_ELEMENTS);
    if n <= FEW {
        return fold_within::<FEW>(text, elements, items, links, i, rows, n);
    }
    fold_within::<MOST_ELEMENTS>(text, elements, items, links, i, rows, n)
}

// "The folded result of an expression is an integer, a truth, or the state that stopped it."
pub fn folded(
    text: &[u8],
    elements: &[u64],
    items: &[u64],
    links: &[u64],
    i: usize,
    rows: &[u64],
) -> Folded
    ensures { result ≡ folded_of text.now elements.now items.now links.now i rows.now }
{
    let outcome = fold(text, elements, items, links, i, rows);
    folding::settled(outcome)
}
