// A whole survey of a package from standard input or a file, stored as bytes.
#![tactic(auto)]

use console::{MOST_ROOM, OUT_ROOM};
use options::{Lends, Options, Program, WORD_ROOM};
use pieces::RECORD_WORDS;
use places::{MOST_BYTES, MOST_ELEMENTS, MOST_PIECES, ROW_WORDS};

fn run(rt: &HostRuntime, program: &Program, text: &[u8], o: Options) {
    let mut table = [0u64; ROW_WORDS * MOST_ELEMENTS];
    let mut items = [0u64; RECORD_WORDS * MOST_PIECES];
    let mut kept = [0u8; MOST_ROOM];
    let mut out = [0u8; OUT_ROOM];
    let k = console::store(
        text,
        &mut table,
        o.element_rows,
        &mut items,
        o.other_rows,
        &mut kept,
        o.room,
    );
    console::print_kept(rt, program.name, k, &kept, &mut out);
}

fn main(rt: HostRuntime) {
    let program = Program {
        name: b"store",
        help: b"usage: store [--room N] [--element-rows N] [--item-rows N] [--] [FILE]\nThe stored table of a package whose survey is whole, as bytes.\nNo FILE, or -: standard input. N lends less room, or a smaller table. The program needs 2 MB of stack.\n",
        other: b"",
        rows: b"--item-rows",
        most: MOST_PIECES as u32,
        lends: Lends::Both,
    };
    let mut word = [0u8; WORD_ROOM];
    let Some(o) = options::read_options(&rt, &program, &mut word) else {
        return;
    };
    let mut text = [0u8; MOST_BYTES + 1];
    let Some(n) = options::read_input(&rt, &program, o.file, &mut word, &mut text) else {
        return;
    };
    run(&rt, &program, lent_tables::front(&text, n), o);
}
