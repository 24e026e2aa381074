// What stands in a stored table from standard input or a file: its lines; or the bytes that storing what was read gives.
#![tactic(auto)]

use console::{MOST_ROOM, OUT_ROOM};
use options::{Lends, Options, Program, WORD_ROOM};
use stored::MOST_ITEMS;
use stored_reading::ROW_WORDS;

fn run(rt: &HostRuntime, program: &Program, bytes: &[u8], o: Options) {
    let mut table = [0u64; ROW_WORDS * MOST_ITEMS];
    let mut out = [0u8; OUT_ROOM];
    if !o.other {
        console::unstore(rt, program.name, bytes, &mut table, o.other_rows, &mut out);
        return;
    }
    let mut kept = [0u8; MOST_ROOM];
    let k = console::store_again(bytes, &mut table, o.other_rows, &mut kept, o.room);
    console::print_kept(rt, program.name, k, &kept, &mut out);
}

fn main(rt: HostRuntime) {
    let program = Program {
        name: b"unstore",
        help: b"usage: unstore [--again] [--room N] [--item-rows N] [--] [FILE]\nThe items of a stored table; or, again, the bytes that storing what was read gives.\nNo FILE, or -: standard input. N lends less room, or a smaller table. The program needs 2 MB of stack.\n",
        other: b"--again",
        rows: b"--item-rows",
        most: MOST_ITEMS as u32,
        lends: Lends::Room,
    };
    let mut word = [0u8; WORD_ROOM];
    let Some(o) = options::read_options(&rt, &program, &mut word) else {
        return;
    };
    let mut bytes = [0u8; MOST_ROOM + 1];
    let Some(n) = options::read_input(&rt, &program, o.file, &mut word, &mut bytes) else {
        return;
    };
    if MOST_ROOM < n {
        options::complain_of(
            &rt,
            &program,
            b"a stored table of more than 131072 bytes",
            o.file,
            &mut word,
        );
        return;
    }
    run(&rt, &program, lent_tables::front(&bytes, n), o);
}
