// The synthesis verdict on a tree: passes, or the first row that is not supported.
#![tactic(auto)]

ghost use Rattle.std.specs.Prelude.{◌≡◌, ◌+◌, ◌/◌, ◌<◌, ◌*◌};
ghost use Rattle.verdict.specs.code.Judging.{unsupported, verdict_of};

use form_numbers::{BARE_LOOP, BLOCK_IS, EXIT, GUARD, LABEL, NEXT, NULL, ROW_NUMBERS, WHILE_LOOP};

// An enum of its own and no Option: `passes` and `not supported` are the subject's own two words for it.
#[derive(Clone, Copy)]
pub enum Verdict {
    Passes,
    NotSupported(usize),
}

// A row of this form, after a row of form before, is not supported.
fn fails(before: u64, form: u64) -> bool
    ensures { result ≡ unsupported before form }
{
    (form == WHILE_LOOP)
        | (form == BARE_LOOP)
        | (form == GUARD)
        | (form == BLOCK_IS)
        | ((form == LABEL) & ((before == NEXT) | (before == EXIT) | (before == NULL)))
}

// The first of the tree's rows that is not supported. Rows that the table does not have are not there.
pub fn judge(tree: &[u64], rows: usize) -> Verdict
    ensures { result ≡ verdict_of tree.now rows }
{
    let mut before: u64 = 0;
    for i in 0..rows.min(tree.len() / ROW_NUMBERS) {
        let form = tree[ROW_NUMBERS * i];
        if fails(before, form) {
            return Verdict::NotSupported(i);
        }
        before = form;
    }
    Verdict::Passes
}
