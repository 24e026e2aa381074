// The strict reading of a text from standard input or a file: its tree with the verdict, or its elements.
#![tactic(auto)]

use console::OUT_ROOM;
use form_numbers::ROW_NUMBERS;
use options::{Lends, Options, Program, WORD_ROOM};
use places::{MOST_BYTES, MOST_ELEMENTS, ROW_WORDS};

fn run(rt: &HostRuntime, program: &Program, text: &[u8], o: Options) {
    let mut table = [0u64; ROW_WORDS * MOST_ELEMENTS];
    let mut out = [0u8; OUT_ROOM];
    if o.other {
        console::elements(rt, program.name, text, &mut table, o.element_rows, &mut out);
        return;
    }
    let mut trees = [0u64; ROW_NUMBERS * MOST_ELEMENTS];
    console::tree(
        rt,
        program.name,
        text,
        &mut table,
        o.element_rows,
        &mut trees,
        o.other_rows,
        &mut out,
    );
}

fn main(rt: HostRuntime) {
    let program = Program {
        name: b"strict",
        help: b"usage: strict [--elements] [--element-rows N] [--tree-rows N] [--] [FILE]\nThe tree of packages, entities and architectures, and whether it passes for synthesis; or the elements.\nNo FILE, or -: standard input. N lends a smaller table. The program needs 2 MB of stack.\n",
        other: b"--elements",
        rows: b"--tree-rows",
        most: MOST_ELEMENTS as u32,
        lends: Lends::Elements,
    };
    let mut word = [0u8; WORD_ROOM];
    let Some(o) = options::read_options(&rt, &program, &mut word) else {
        return;
    };
    let mut text = [0u8; MOST_BYTES + 1];
    let Some(n) = options::read_input(&rt, &program, o.file, &mut word, &mut text) else {
        return;
    };
    run(&rt, &program, lent_tables::front(&text, n), o);
}
