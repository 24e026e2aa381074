// The survey of a package from standard input or a file: the listing of its items, or its records, tally and pair.
#![tactic(auto)]

use console::{OUT_ROOM, Shown};
use options::{Lends, Options, Program, WORD_ROOM};
use pieces::RECORD_WORDS;
use places::{MOST_BYTES, MOST_ELEMENTS, MOST_PIECES, ROW_WORDS};

fn run(rt: &HostRuntime, program: &Program, text: &[u8], o: Options) {
    let mut table = [0u64; ROW_WORDS * MOST_ELEMENTS];
    let mut items = [0u64; RECORD_WORDS * MOST_PIECES];
    let mut out = [0u8; OUT_ROOM];
    let shown = if o.other {
        Shown::Records
    } else {
        Shown::Items
    };
    console::survey(
        rt,
        program.name,
        text,
        &mut table,
        o.element_rows,
        &mut items,
        o.other_rows,
        shown,
        &mut out,
    );
}

fn main(rt: HostRuntime) {
    let program = Program {
        name: b"survey",
        help: b"usage: survey [--records] [--element-rows N] [--item-rows N] [--] [FILE]\nThe items of a package: each constant with its number, or the reason it has none; or the records of all pieces.\nNo FILE, or -: standard input. N lends a smaller table. The program needs 2 MB of stack.\n",
        other: b"--records",
        rows: b"--item-rows",
        most: MOST_PIECES as u32,
        lends: Lends::Elements,
    };
    let mut word = [0u8; WORD_ROOM];
    let Some(o) = options::read_options(&rt, &program, &mut word) else {
        return;
    };
    let mut text = [0u8; MOST_BYTES + 1];
    let Some(n) = options::read_input(&rt, &program, o.file, &mut word, &mut text) else {
        return;
    };
    run(&rt, &program, lent_tables::front(&text, n), o);
}
