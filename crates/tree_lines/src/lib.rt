// The lines of a tree's listing, put into a lent buffer. Every function takes any table, numbers and buffer, and puts what specs/Lines.antt
// defines.
#![tactic(auto)]

ghost use Rattle.std.specs.Prelude.{◌≡◌, length};
ghost use Rattle.puts.specs.Puts.{Wrote};
ghost use Rattle.puts.specs.Lines.{Part};
ghost use Rattle.tree_lines.specs.Lines.{fails_of, verdict_text, head_of, row_text, tree_line, tree_lines};

use form_numbers::ROW_NUMBERS;
use puts::{Filled, Listing};
use refused_line::COUNT;

// Where the strict reading's answer has whether the file passes, and the first row that is not supported.
const PASSES: usize = 3;

const ROW: usize = 4;

fn put_fails(row: u64, out: &mut [u8], at: usize) -> usize
    ensures { Wrote out.old at (fails_of row) out.new result }
{
    let a = puts::put_bytes(b" passes no at ", out, at);
    let b = puts::put_decimal(row, out, a);
    puts::put_byte(puts::LINE_FEED, out, b)
}

fn put_verdict(passes: u64, row: u64, out: &mut [u8], at: usize) -> usize
    ensures { Wrote out.old at (verdict_text passes row) out.new result }
{
    if passes == 1 {
        return puts::put_bytes(b" passes yes\n", out, at);
    }
    put_fails(row, out, at)
}

// The listing's first line.
pub fn put_head(rows: u64, passes: u64, row: u64, out: &mut [u8], at: usize) -> usize
    ensures { Wrote out.old at (head_of rows passes row) out.new result }
{
    let a = puts::put_bytes(b"rows ", out, at);
    let b = puts::put_decimal(rows, out, a);
    put_verdict(passes, row, out, b)
}

// The line of a row: its number and its five numbers.
pub fn put_row(tree: &[u64], i: usize, out: &mut [u8], at: usize) -> usize
    ensures { Wrote out.old at (row_text tree.now i) out.new result }
{
    let a = puts::put_decimal(i as u64, out, at);
    let b = puts::put_fields(puts::numbers_at(tree, ROW_NUMBERS, i), out, a);
    puts::put_byte(puts::LINE_FEED, out, b)
}

// A line by its number: a refusal's, the head, or that of the row before.
fn put_tree_line(tree: &[u64], answer: &[u64], i: usize, out: &mut [u8], at: usize) -> usize
    ensures { Wrote out.old at (tree_line tree.now answer.now i) out.new result }
{
    if let Some(end) = refused_line::put_refusal(answer, out, at) {
        return end;
    }
    if i == 0 {
        let rows = lent_tables::word_at(answer, COUNT);
        let passes = lent_tables::word_at(answer, PASSES);
        return put_head(rows, passes, lent_tables::word_at(answer, ROW), out, at);
    }
    put_row(tree, i - 1, out, at)
}

// How many lines there are.
fn tree_lines(tree: &[u64], answer: &[u64]) -> usize
    ensures { result ≡ tree_lines tree.now answer.now }
{
    let rows = lent_tables::word_at(answer, COUNT) as usize;
    let listed = rows.min(tree.len() / ROW_NUMBERS);
    refused_line::lines_by(answer, listed + 1)
}

// A tree to list, and the answer that it was given with.
#[derive(Clone, Copy)]
struct TreeListing<'a> {
    tree: &'a [u64],
    answer: &'a [u64],
}

impl<'a> Listing for TreeListing<'a> {
    ghost line = { λ x. tree_line x.tree.now x.answer.now };

    fn put_line(&self, i: usize, out: &mut [u8], at: usize) -> usize
        ensures { Wrote out.old at (tree_line self.now.tree.now self.now.answer.now i) out.new result }
    {
        put_tree_line(self.tree, self.answer, i, out, at)
    }
}

// The listing of a tree from a line on, as many whole lines as the buffer has room for. The answer is lent as its words.
pub fn fill_tree(tree: &[u64], answer: &[u64], from: usize, out: &mut [u8]) -> Filled
    ensures { Part (tree_line tree.now answer.now) from (tree_lines tree.now answer.now) (length out.old) result out.new }
{
    let listing = TreeListing { tree, answer };
    puts::fill(&listing, from, tree_lines(tree, answer), out)
}
