// Elements to a tree: the machine over the table of the forms, with its rows. Rows are complete innermost first and stand parent first:
// they are kept in the order of completion, in a list to each base, and written out at the end, so that a text costs by its elements. The
// table and the arrays are made once, in `read_tree` and `read_items`, and lent: made anew at each use, or for each piece of a package,
// they would cost more than all else.
#![tactic(auto)]

ghost use Rattle.std.specs.Prelude.{◌≡◌, List, [], ◌∷◌, ◌++◌, Ok, MatchOption, ℕ, ◌+◌, ◌-◌, ◌*◌, ◌/◌, ◌≤◌, ◌<◌, min, length, drop, get_or, set, replicate};
ghost use Rattle.std.proofs.lemmas.List.Edits.{sets};
ghost use Rattle.places.specs.Sizes.{most_elements};
ghost use Rattle.grammars.specs.code.Grammar.{look};
ghost use Rattle.forms.specs.code.Kinds.{kind_count};
ghost use Rattle.forms.specs.code.RuleNames.{name_count};
ghost use Rattle.forms.specs.code.Rules.{body, forms as grammar};
ghost use Rattle.forms.specs.code.Picks.{predict};
ghost use Rattle.forms.specs.RowWords.{row_numbers};
ghost use Rattle.forms.specs.code.RuleActions.{State, frame_is_named, does};
ghost use Rattle.forms.specs.Tree.{Row, most_open};
ghost use Rattle.forms.specs.code.Reading.{reading_from};
ghost use Rattle.same_names.specs.Alike.{same_name};
ghost use Rattle.form_table.specs.code.Symbols.{sym_of, syms};
ghost use Rattle.form_table.specs.code.FormBytes.{form_bytes};
ghost use Rattle.tree.specs.code.Answers.{elements_counted, terminals_of, reading_in, tree_answer_of, tree_table_of};
ghost use Rattle.forms.specs.RowWords.{words_of};
ghost use Rattle.pieces.specs.Kinds.{kind_pieces};
ghost use Rattle.places.specs.Places.{row_words, kinds_of};
ghost use Rattle.tree.specs.code.Room.{bottom, stack_words, frame_words, frame_operator, frame_base, frame_name, outermost, frames_words, most_rows};
ghost use Rattle.tree.specs.code.PieceRows.{scan_start_of, rows_of_piece, pieces_words, item_rows};
ghost use Rattle.tree.specs.code.Held.{Held, Spans, ActionDone, Tells, ScanStarts, used_after};

use form_numbers::{COUNT, FIRST, OPERATOR, ROW_NUMBERS, ROWS};
use form_table::{KINDS, NAMES};
use places::{ElementNumber, MOST_ELEMENTS};
use refusals::StrictRefusal;

// The stack's words, and the last of them; those of a frame, of which the first is its first element; those of the frames, and where the
// outermost stands; and how many rows there may be.
const STACK: usize = 2176;

const BOTTOM: usize = STACK - 1;

const FRAME: usize = 4;

const FRAME_OPERATOR: usize = 1;

const FRAME_BASE: usize = 2;

const FRAME_NAME: usize = 3;

const TWO_FRAMES: usize = FRAME + FRAME;

const FRAMES: usize = FRAME * (STACK + 1);

const OUTERMOST: usize = FRAMES - FRAME;

const MOST_ROWS: usize = 10368;

// Where the names and the actions begin among the symbols, and the names from which is read: a file, a constant and a subtype.
const FIRST_NAME: u64 = KINDS as u64;

const FIRST_ACTION: u64 = (KINDS + NAMES) as u64;

const FILE: u64 = FIRST_NAME;

const CONSTANT: u64 = FIRST_NAME + 14;

const SUBTYPE: u64 = FIRST_NAME + 15;

// The kind of the forms that is any other.
const OTHER: u64 = 67;

// The actions, by the names that the rules give them; from `ROW_OF` on, a row of each form.
const OPENS: u64 = 0;

const CLOSES: u64 = 1;

const MARKS: u64 = 2;

const NAMED: u64 = 3;

const SAME: u64 = 4;

const DEEPER: u64 = 5;

const SHALLOWER: u64 = 6;

const ROW_OF: u64 = 7;

// How many may stand open together.
const MOST_OPEN: usize = 32;

// The machine's arrays: its stack; its frames; the numbers of the rows; the row after each in the list of its base; the first row of each base.
#[derive(Drop)]
struct Machine {
    stk: [u64; STACK],
    frames: [u64; FRAMES],
    cells: [u64; ROW_NUMBERS * MOST_ROWS],
    next: [u64; MOST_ROWS],
    heads: [u64; MOST_ROWS],
}

// Where the frames begin, how many stand open, how many rows there are.
#[derive(Clone, Copy)]
pub struct Moved {
    pub fp: usize,
    pub depth: usize,
    pub used: usize,
}

// The element just read, when k were read.
fn last_read(k: u64) -> ElementNumber
    ensures { result.0 ≡ k - 1 }
{
    ElementNumber(k.saturating_sub(1) as usize)
}

// What the next element is to the forms, 0 at the end.
fn next_kind(forms: &[u8], elements: &[u64], count: usize, e: ElementNumber) -> u64
    requires { (forms.now ≡ form_bytes) × (row_words * count ≤ length elements.now) }
    ensures { result ≡ look (drop e.0 (terminals_of count elements.now)) }
{
    if count <= e.0 {
        return 0;
    }
    let kind = places::kind_of(elements, e);
    if kind < form_table::ELEMENT_KINDS as u64 {
        return u64::from(forms[kind as usize]);
    }
    OTHER
}

// The rule for name n at the next kind t.
fn pick(forms: &[u8], n: usize, t: u64) -> Option<usize>
    requires { (forms.now ≡ form_bytes) × (n < name_count) × (t < kind_count) }
    ensures { MatchOption result (predict n t ≡ 0) (λ p. predict n t ≡ p + 1) }
{
    let j = t as usize;
    usize::from(forms[form_table::PICKS + n * KINDS + j]).checked_sub(1)
}

// How many symbols rule p has.
fn body_len(forms: &[u8], p: usize) -> usize
    requires { (forms.now ≡ form_bytes) × (p < grammar.count) }
    ensures { result ≡ length (body p) }
{
    usize::from(forms[form_table::SIZES + p])
}

// Puts rule p's symbols on the stack, which grows downwards.
fn push(forms: &[u8], stk: &mut [u64], sp: usize, p: usize, m: usize)
    requires { (m ≡ length (body p)) × (m ≤ sp) × (sp ≤ length stk.old) × (forms.now ≡ form_bytes) }
    ensures { syms (drop (sp - m) stk.new) ≡ body p ++ syms (drop sp stk.old) }
{
    let base = sp - m;
    for i in (0..m).rev() {
        let x = u64::from(forms[form_table::BODIES + p * form_table::LINE + i]);
        stk[base + i] = x;
    }
}

// A row more: appended to the cells, and put in front of the list of its base. The list of the next base is empty.
fn put_row(
    cells: &mut [u64],
    next: &mut [u64],
    heads: &mut [u64],
    used: usize,
    base: usize,
    form: u64,
    first: u64,
    count: u64,
    rows: u64,
    operator: u64,
)
    requires { (row_numbers * used + row_numbers ≤ length cells.old) × (used < length next.old) × (used + 1 < length heads.old) × (base ≤ used) }
    ensures { (cells.new ≡ sets cells.old (row_numbers * used) (form ∷ first ∷ count ∷ rows ∷ operator ∷ [])) × (next.new ≡ set next.old used (get_or heads.old base 0)) × (heads.new ≡ set (set heads.old base (used + 1)) (used + 1) 0) }
{
    let at = ROW_NUMBERS * used;
    cells[at] = form;
    cells[at + FIRST] = first;
    cells[at + COUNT] = count;
    cells[at + ROWS] = rows;
    cells[at + OPERATOR] = operator;
    next[used] = heads[base];
    heads[base] = (used + 1) as u64;
    heads[used + 1] = 0;
}

// A frame more, below the others.
fn open_frame(k: u64, frames: &mut [u64], fp: usize, used: usize)
    requires { (frame_words ≤ fp) × (fp ≤ length frames.old) }
    ensures { frames.new ≡ set (set (set (set frames.old (fp - frame_words) k) (fp - frame_words + frame_operator) k) (fp - frame_words + frame_base) used) (fp - frame_words + frame_name) 0 }
{
    let p = fp - FRAME;
    frames[p] = k;
    frames[p + FRAME_OPERATOR] = k;
    frames[p + FRAME_BASE] = used as u64;
    frames[p + FRAME_NAME] = 0;
}

// Whether the element just read is the name of the innermost frame.
fn is_named(text: &[u8], elements: &[u64], frames: &[u64], fp: usize, k: u64) -> bool
    requires { fp + frame_words ≤ length frames.now }
    ensures { result ≡ frame_is_named (same_name text.now elements.now) (get_or frames.now (fp + frame_name) 0) (k - 1) }
{
    let n = frames[fp + FRAME_NAME];
    if n == 0 {
        return false;
    }
    let name = n - 1;
    same_names::same_name(text, elements, ElementNumber(name as usize), last_read(k))
}

// The row of a form: what the innermost frame holds.
fn complete_row(
    form: u64,
    k: u64,
    frames: &[u64],
    cells: &mut [u64],
    next: &mut [u64],
    heads: &mut [u64],
    fp: usize,
    used: usize,
)
    requires { (fp + frame_words ≤ length frames.now) × (row_numbers * used + row_numbers ≤ length cells.old) × (used < length next.old) × (used + 1 < length heads.old) × (get_or frames.now (fp + frame_base) 0 ≤ used) }
    ensures { (cells.new ≡ sets cells.old (row_numbers * used) (form ∷ get_or frames.now fp 0 ∷ (k - get_or frames.now fp 0) ∷ (used - get_or frames.now (fp + frame_base) 0 + 1) ∷ get_or frames.now (fp + frame_operator) 0 ∷ [])) × (next.new ≡ set next.old used (get_or heads.old (get_or frames.now (fp + frame_base) 0) 0)) × (heads.new ≡ set (set heads.old (get_or frames.now (fp + frame_base) 0) (used + 1)) (used + 1) 0) }
{
    let i = frames[fp];
    let o = frames[fp + FRAME_OPERATOR];
    let base = frames[fp + FRAME_BASE] as usize;
    let rows = (used - base + 1) as u64;
    put_row(
        cells,
        next,
        heads,
        used,
        base,
        form,
        i,
        k.saturating_sub(i),
        rows,
        o,
    );
}

fn went(fp: usize, depth: usize, used: usize) -> Result<Moved, StrictRefusal>
    ensures { result ≡ Ok (record { fp = fp; depth = depth; used = used }) }
{
    Ok(Moved { fp, depth, used })
}

// An action when k elements were read: the machine goes on, or refusal 6 or 7.
fn do_act(
    a: u64,
    k: u64,
    text: &[u8],
    elements: &[u64],
    frames: &mut [u64],
    cells: &mut [u64],
    next: &mut [u64],
    heads: &mut [u64],
    fp: usize,
    depth: usize,
    used: usize,
) -> Result<Moved, StrictRefusal>
    requires { (frame_words ≤ fp) × (fp + frame_words ≤ length frames.old) × (row_numbers * used + row_numbers ≤ length cells.old) × (used < length next.old) × (used + 1 < length heads.old) × (used < most_rows) × (depth ≤ most_open) × (get_or frames.old (fp + frame_base) 0 ≤ used) }
    ensures { (s : State) → Held frames.old cells.old next.old heads.old fp used s.frames → s.depth ≡ depth → ActionDone result frames.new cells.new next.new heads.new (used_after a used) k (does (same_name text.now elements.now) a k s) }
{
    if a == OPENS {
        open_frame(k, frames, fp, used);
        return went(fp - FRAME, depth, used);
    }
    if a == CLOSES {
        if fp + TWO_FRAMES <= frames.len() {
            return went(fp + FRAME, depth, used);
        }
        return went(fp, depth, used);
    }
    if a == MARKS {
        frames[fp + FRAME_OPERATOR] = k.saturating_sub(1);
        return went(fp, depth, used);
    }
    if a == NAMED {
        frames[fp + FRAME_NAME] = k;
        return went(fp, depth, used);
    }
    if a == SAME {
        if is_named(text, elements, frames, fp, k) {
            return went(fp, depth, used);
        }
        return Err(StrictRefusal::NameDiffers(last_read(k)));
    }
    if a == DEEPER {
        if depth < MOST_OPEN {
            return went(fp, depth + 1, used);
        }
        return Err(StrictRefusal::TooDeep(last_read(k)));
    }
    if a == SHALLOWER {
        return went(fp, depth.saturating_sub(1), used);
    }
    complete_row(a - ROW_OF, k, frames, cells, next, heads, fp, used);
    went(fp, depth, used + 1)
}

// The machine before its first turn: the symbol at which it starts, the outermost frame, no rows.
fn begin(from: u64, stk: &mut [u64], frames: &mut [u64], heads: &mut [u64])
    requires { (length stk.old ≡ stack_words) × (length frames.old ≡ frames_words) × (length heads.old ≡ most_rows) }
    ensures { (syms (drop bottom stk.new) ≡ sym_of from ∷ []) × (drop outermost frames.new ≡ 0 ∷ 0 ∷ 0 ∷ 0 ∷ []) × (get_or heads.new 0 0 ≡ 0) }
{
    stk[BOTTOM] = from;
    frames[OUTERMOST] = 0;
    frames[OUTERMOST + FRAME_OPERATOR] = 0;
    frames[OUTERMOST + FRAME_BASE] = 0;
    frames[OUTERMOST + FRAME_NAME] = 0;
    heads[0] = 0;
}

// The machine's turns over the first count elements, from a symbol on. The stack grows downwards, and so do the frames, four words to each.
fn scan(
    from: u64,
    text: &[u8],
    elements: &[u64],
    count: usize,
    machine: &mut Machine,
    forms: &[u8],
) -> Result<usize, StrictRefusal>
    requires { (row_words * count ≤ length elements.now) × (count ≤ most_elements) × ScanStarts from × (forms.now ≡ form_bytes) }
    ensures { Tells result machine.new.cells machine.new.next machine.new.heads (reading_from (sym_of from) (same_name text.now elements.now) (terminals_of count elements.now)) }
{
    begin(
        from,
        &mut machine.stk,
        &mut machine.frames,
        &mut machine.heads,
    );
    let mut sp: usize = BOTTOM;
    let mut fp: usize = OUTERMOST;
    let mut depth: usize = 0;
    let mut used: usize = 0;
    let mut at: usize = 0;
    // a while: a turn goes on by what it takes off the stack and puts on it
    while sp < STACK {
        let top = machine.stk[sp];
        if top < FIRST_NAME {
            if count <= at {
                return Err(StrictRefusal::NoFile(ElementNumber(at)));
            }
            let t = next_kind(forms, elements, count, ElementNumber(at));
            if top != t {
                return Err(StrictRefusal::NoFile(ElementNumber(at)));
            }
            sp += 1;
            at += 1;
        } else if top < FIRST_ACTION {
            let t = next_kind(forms, elements, count, ElementNumber(at));
            let Some(p) = pick(forms, (top - FIRST_NAME) as usize, t) else {
                return Err(StrictRefusal::NoFile(ElementNumber(at)));
            };
            let m = body_len(forms, p);
            push(forms, &mut machine.stk, sp + 1, p, m);
            sp = sp + 1 - m;
        } else {
            let w = do_act(
                top - FIRST_ACTION,
                at as u64,
                text,
                elements,
                &mut machine.frames,
                &mut machine.cells,
                &mut machine.next,
                &mut machine.heads,
                fp,
                depth,
                used,
            )?;
            fp = w.fp;
            depth = w.depth;
            used = w.used;
            sp += 1;
        }
    }
    if at < count {
        return Err(StrictRefusal::NoFile(ElementNumber(at)));
    }
    Ok(used)
}

// The rows in order: the list of each base, from the first base on.
fn write_out(cells: &[u64], next: &[u64], heads: &[u64], used: usize, tab: &mut [u64])
    requires { ((rows : List Row) × (Spans cells.now next.now heads.now used 0 rows × (length rows ≡ used))) × (row_numbers * used ≤ length tab.old) × (row_numbers * used ≤ length cells.now) × (used ≤ length next.now) × (used ≤ length heads.now) × (used ≤ most_elements) × ((i : ℕ) → i ≤ used → get_or heads.now i 0 ≤ used) }
    ensures { (rows : List Row) → Spans cells.now next.now heads.now used 0 rows → tab.new ≡ sets tab.old 0 (words_of rows) }
{
    let mut base: usize = 0;
    let mut link: usize = 0;
    let mut out: usize = 0;
    // a while: it follows the lists, and a base may have none
    while out < used {
        if link == 0 {
            link = heads[base] as usize;
            base += 1;
        } else {
            let from = ROW_NUMBERS * (link - 1);
            let to = ROW_NUMBERS * out;
            tab[to] = cells[from];
            tab[to + FIRST] = cells[from + FIRST];
            tab[to + COUNT] = cells[from + COUNT];
            tab[to + ROWS] = cells[from + ROWS];
            tab[to + OPERATOR] = cells[from + OPERATOR];
            link = next[link - 1] as usize;
            out += 1;
        }
    }
}

// Elements to a tree: the first count elements, as far as the table has them and 01's sizes go, as a file. The rows go into `tree`, and
// zeros after them; on a refusal, one of 01's 5 to 8, it is all zeros. The answer is how many rows there are.
pub fn read_tree(
    text: &[u8],
    elements: &[u64],
    count: usize,
    tree: &mut [u64],
) -> Result<usize, StrictRefusal>
    ensures value { result ≡ tree_answer_of (length tree.old) (reading_in text.now elements.now (elements_counted elements.now count)) }
    ensures tree_after { tree.new ≡ tree_table_of (length tree.old) (reading_in text.now elements.now (elements_counted elements.now count)) }
{
    lent_tables::clear(tree);
    let n = count
        .min(elements.len() / places::ROW_WORDS)
        .min(MOST_ELEMENTS);
    let mut machine = Machine {
        stk: [0; STACK],
        frames: [0; FRAMES],
        cells: [0; ROW_NUMBERS * MOST_ROWS],
        next: [0; MOST_ROWS],
        heads: [0; MOST_ROWS],
    };
    let forms = form_table::forms();
    let used = scan(FILE, text, elements, n, &mut machine, &forms)?;
    let rows = tree.len() / ROW_NUMBERS;
    if rows < used {
        return Err(StrictRefusal::TreeShort(rows));
    }
    write_out(&machine.cells, &machine.next, &machine.heads, used, tree);
    Ok(used)
}

// The symbol from which a piece is read that begins with this kind, if it is read.
fn start_of(kind: u64) -> Option<u64>
    ensures { result ≡ scan_start_of kind }
{
    match kind {
        pieces::WORD_CONSTANT => Some(CONSTANT),
        pieces::WORD_SUBTYPE => Some(SUBTYPE),
        _ => None,
    }
}

// The rows of the piece that the elements begin with, at the front of `rows`. No name is compared in it, so no text is needed.
fn read_piece(elements: &[u64], size: usize, machine: &mut Machine, forms: &[u8], rows: &mut [u64])
    requires { (1 ≤ size) × (row_words * size ≤ length elements.now) × (size ≤ most_elements) × (row_numbers * size ≤ length rows.old) × (forms.now ≡ form_bytes) }
    ensures { rows.new ≡ sets rows.old 0 (words_of (rows_of_piece (kinds_of size elements.now))) }
{
    let Some(from) = start_of(places::kind_of(elements, ElementNumber(0))) else {
        return;
    };
    let no_text = [0u8; 1];
    let Ok(used) = scan(from, &no_text, elements, size, machine, forms) else {
        return;
    };
    write_out(&machine.cells, &machine.next, &machine.heads, used, rows);
}

// The rows of each piece of the first n elements, those of a piece from its first element's row on.
fn read_pieces(elements: &[u64], n: usize, machine: &mut Machine, forms: &[u8], rows: &mut [u64])
    requires { (row_words * n ≤ length elements.now) × (n ≤ most_elements) × (row_numbers * n ≤ length rows.old) × (rows.old ≡ replicate (length rows.old) 0) × (forms.now ≡ form_bytes) }
    ensures { rows.new ≡ pieces_words (kind_pieces (kinds_of n elements.now)) ++ replicate (length rows.old - row_numbers * n) 0 }
{
    let mut at: usize = 0;
    // a while: each turn goes on by the size of a piece
    while at < n {
        let size = pieces::piece_size(elements, n, ElementNumber(at));
        let row = ROW_NUMBERS * at;
        read_piece(
            places::rows_from(elements, ElementNumber(at)),
            size,
            machine,
            forms,
            &mut rows[row..],
        );
        at += size;
    }
}

// The rows of each constant and subtype of a package, by the forms: those of a piece from its first element's row on, and zeros after
// them; zeros for any other piece and for one that no form fits.
pub fn read_items(elements: &[u64], count: usize, rows: &mut [u64])
    ensures { rows.new ≡ item_rows elements.now count (length rows.old) }
{
    lent_tables::clear(rows);
    let n = count
        .min(elements.len() / places::ROW_WORDS)
        .min(rows.len() / ROW_NUMBERS)
        .min(MOST_ELEMENTS);
    let mut machine = Machine {
        stk: [0; STACK],
        frames: [0; FRAMES],
        cells: [0; ROW_NUMBERS * MOST_ROWS],
        next: [0; MOST_ROWS],
        heads: [0; MOST_ROWS],
    };
    let forms = form_table::forms();
    read_pieces(elements, n, &mut machine, &forms, rows);
}
