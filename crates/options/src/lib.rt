// What the arguments of a program ask for. A program may have a word of its own that asks for its other job, and has one for the rows of its
// second table; the rest they share. What is said on standard error is tested, not proved.
#![tactic(auto)]

use console::MOST_ROOM;
use std::env::FillError;
use std::fs::File;
use std::io::{Print, Read};
use std::rt::Env;
use std::{fs, io};

// What the programs print of themselves.
pub const VERSION: [u8; 6] = [b'1', b'.', b'2', b'.', b'0', b'\n'];

// Room for an argument.
pub const WORD_ROOM: usize = 4096;

// Two hyphens begin an option.
const HYPHENS: usize = 2;

// An option and its value.
const BOTH_WORDS: usize = 2;

// No call has so many arguments.
const MOST_ARGUMENTS: usize = 1000000;

// The system's error for bytes that are no text.
const NO_TEXT: i32 = 84;

// How much of an argument that is too long names it.
const NAMED: usize = 64;

// What a program's arguments may lend beside the rows of its second table: those of its element table, room for its output, or both.
#[derive(Clone, Copy)]
pub enum Lends {
    Elements,
    Room,
    Both,
}

// What a program is, as its arguments meet it: its name, what it prints as help, the word that asks for its other job, empty where it has none,
// the word for the rows of its second table, how many rows that has at most, and what else may be lent.
#[derive(Clone, Copy)]
pub struct Program<'a> {
    pub name: &'a [u8],
    pub help: &'a [u8],
    pub other: &'a [u8],
    pub rows: &'a [u8],
    pub most: u32,
    pub lends: Lends,
}

// `other` is that the other job is asked for, `other_rows` the rows of the second table, `room` that of the output; `file` is the number of the
// argument that names one; `next` is the argument to look at next; after `--` every argument names a file.
#[derive(Clone, Copy)]
pub struct Options {
    pub other: bool,
    pub element_rows: usize,
    pub other_rows: usize,
    pub room: usize,
    pub file: Option<usize>,
    pub next: usize,
    pub only_files: bool,
}

#[derive(Clone, Copy)]
enum Asked {
    Other,
    ElementRows,
    OtherRows,
    Room,
    Help,
    Version,
    OnlyFiles,
    File,
    Unknown,
}

fn asked_by(program: &Program, word: &[u8]) -> Asked {
    if word.is_empty() {
        return Asked::File;
    }
    if arguments::same_bytes(word, program.other) {
        return Asked::Other;
    }
    if arguments::same_bytes(word, program.rows) {
        return Asked::OtherRows;
    }
    if arguments::same_bytes(word, b"--element-rows") && !matches!(program.lends, Lends::Room) {
        return Asked::ElementRows;
    }
    if arguments::same_bytes(word, b"--room") && !matches!(program.lends, Lends::Elements) {
        return Asked::Room;
    }
    if !arguments::same_bytes(lent_tables::front(word, HYPHENS), b"--") {
        return Asked::File;
    }
    said_by(word)
}

// The words that every program knows.
fn said_by(word: &[u8]) -> Asked {
    if arguments::same_bytes(word, b"--help") {
        return Asked::Help;
    }
    if arguments::same_bytes(word, b"--version") {
        return Asked::Version;
    }
    if arguments::same_bytes(word, b"--") {
        return Asked::OnlyFiles;
    }
    Asked::Unknown
}

// The rows that a value asks for; one that is no number is named on standard error, with its option.
fn rows_of(
    rt: &HostRuntime,
    program: &Program,
    option: &[u8],
    word: &[u8],
    most: u32,
) -> Option<usize> {
    let rows = arguments::value_of(word, most);
    if rows.is_none() {
        let _ = rt.stderr().write_all(program.name);
        let _ = rt.stderr().write_all(b": ");
        console::complain(rt, option, b"not a number", word);
    }
    rows
}

// An argument into the buffer: its length, 0 where there is none; or nothing and a line on standard error where it is longer than the buffer.
fn argument(rt: &HostRuntime, program: &Program, i: usize, word: &mut [u8]) -> Option<usize> {
    match rt.arg(i, word) {
        Ok(n) => Some(n),
        Err(FillError::NotPresent) => Some(0),
        Err(FillError::TooLong) => {
            console::complain(
                rt,
                program.name,
                b"an argument is too long, it begins with",
                lent_tables::front(word, NAMED),
            );
            None
        }
    }
}

// How many arguments there are, the program's name among them.
fn argument_count(rt: &HostRuntime, word: &mut [u8]) -> usize {
    for i in 0..usize::MAX {
        if let Err(FillError::NotPresent) = rt.arg(i, word) {
            return i;
        }
    }
    usize::MAX
}

impl Options {
    fn new(most: usize) -> Self {
        Options {
            other: false,
            element_rows: places::MOST_ELEMENTS,
            other_rows: most,
            room: MOST_ROOM,
            file: None,
            next: 1,
            only_files: false,
        }
    }

    // The argument names a file: there may be one.
    fn take_file(
        &mut self,
        rt: &HostRuntime,
        program: &Program,
        i: usize,
        word: &[u8],
    ) -> Option<()> {
        if self.file.is_some() {
            console::complain(rt, program.name, b"one file at a time, a second one", word);
            return None;
        }
        if MOST_ARGUMENTS < i {
            return None;
        }
        self.file = Some(i);
        self.next = i + 1;
        Some(())
    }

    // An option's value, which is the next argument. A value that is missing is no number.
    fn take_value(
        &mut self,
        rt: &HostRuntime,
        program: &Program,
        option: &[u8],
        most: u32,
        word: &mut [u8],
    ) -> Option<usize> {
        let i = self.next;
        if MOST_ARGUMENTS < i {
            return None;
        }
        self.next = i + BOTH_WORDS;
        let n = argument(rt, program, i + 1, word)?;
        rows_of(rt, program, option, lent_tables::front(word, n), most)
    }

    // Takes in the next argument, and its value where it has one. Nothing is to be read where the call is wrong, or asked for help or the
    // version, and was answered.
    fn take(&mut self, rt: &HostRuntime, program: &Program, word: &mut [u8]) -> Option<()> {
        let i = self.next;
        if MOST_ARGUMENTS < i {
            return None;
        }
        let n = argument(rt, program, i, word)?;
        if self.only_files {
            return self.take_file(rt, program, i, lent_tables::front(word, n));
        }
        match asked_by(program, lent_tables::front(word, n)) {
            Asked::Other => {
                self.other = true;
                self.next = i + 1;
            }
            Asked::ElementRows => {
                let most = places::MOST_ELEMENTS as u32;
                self.element_rows = self.take_value(rt, program, b"--element-rows", most, word)?;
            }
            Asked::OtherRows => {
                self.other_rows = self.take_value(rt, program, program.rows, program.most, word)?;
            }
            Asked::Room => {
                self.room = self.take_value(rt, program, b"--room", MOST_ROOM as u32, word)?;
            }
            Asked::Help => {
                console::write_out(rt, program.name, program.help);
                return None;
            }
            Asked::Version => {
                if console::write_out(rt, program.name, program.name) {
                    console::write_out(rt, program.name, b" ");
                    console::write_out(rt, program.name, &VERSION);
                }
                return None;
            }
            Asked::OnlyFiles => {
                self.only_files = true;
                self.next = i + 1;
            }
            Asked::File => return self.take_file(rt, program, i, lent_tables::front(word, n)),
            Asked::Unknown => {
                console::complain(
                    rt,
                    program.name,
                    b"unknown option",
                    lent_tables::front(word, n),
                );
                return None;
            }
        }
        Some(())
    }
}

// What all the arguments ask for; nothing where nothing is to be read.
pub fn read_options(rt: &HostRuntime, program: &Program, word: &mut [u8]) -> Option<Options> {
    let count = argument_count(rt, word);
    let mut o = Options::new(program.most as usize);
    for _ in 0..count {
        if count <= o.next {
            return Some(o);
        }
        o.take(rt, program, word)?;
    }
    Some(o)
}

fn read_or_complain<R: Read>(
    rt: &HostRuntime,
    program: &Program,
    input: &mut R,
    name: &[u8],
    text: &mut [u8],
) -> Option<usize> {
    match console::read_text(input, text) {
        Ok(n) => Some(n),
        Err(e) => {
            console::fail(rt, program.name, name, &e);
            None
        }
    }
}

// The file of that name, to be read. std's names are UTF-8: of any other there is no file.
fn opened(rt: &HostRuntime, name: &[u8]) -> io::Result<File> {
    match str::from_utf8(name) {
        Ok(path) => fs::open(rt, path),
        Err(_) => Err(io::Error::from_raw_os_error(NO_TEXT)),
    }
}

// The text of standard input, or of the file that an argument names; `-` is standard input too. How many bytes it has, or nothing and a line on
// standard error where it can't be read.
pub fn read_input(
    rt: &HostRuntime,
    program: &Program,
    file: Option<usize>,
    word: &mut [u8],
    text: &mut [u8],
) -> Option<usize> {
    let Some(i) = file else {
        return read_or_complain(rt, program, &mut rt.stdin(), b"standard input", text);
    };
    let n = rt.arg(i, word).unwrap_or(0);
    let name = lent_tables::front(word, n);
    if arguments::same_bytes(name, b"-") {
        return read_or_complain(rt, program, &mut rt.stdin(), b"standard input", text);
    }
    match opened(rt, name) {
        Ok(input) => {
            let mut input = input;
            read_or_complain(rt, program, &mut input, name, text)
        }
        Err(e) => {
            console::fail(rt, program.name, name, &e);
            None
        }
    }
}

// One line on standard error of what was read: what is wrong with it.
pub fn complain_of(
    rt: &HostRuntime,
    program: &Program,
    what: &[u8],
    file: Option<usize>,
    word: &mut [u8],
) {
    let Some(i) = file else {
        console::complain(rt, program.name, what, b"standard input");
        return;
    };
    let n = rt.arg(i, word).unwrap_or(0);
    console::complain(rt, program.name, what, lent_tables::front(word, n));
}
