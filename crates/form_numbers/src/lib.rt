// The numbers of 01's table of forms ("Forms of the strict reading") that the code goes by, each under its name, and the places of a row's
// numbers: form, first element, element count, rows in its subtree, operator element. There is no code here.
#![tactic(auto)]

pub const WHILE_LOOP: u64 = 19;

pub const BARE_LOOP: u64 = 20;

pub const NEXT: u64 = 21;

pub const EXIT: u64 = 22;

pub const NULL: u64 = 23;

pub const NAME: u64 = 24;

pub const LITERAL: u64 = 27;

pub const UNARY: u64 = 28;

pub const BINARY: u64 = 29;

pub const LABEL: u64 = 30;

pub const GUARD: u64 = 32;

pub const BLOCK_IS: u64 = 33;

// A row's numbers.
pub const FORM: usize = 0;

pub const FIRST: usize = 1;

pub const COUNT: usize = 2;

pub const ROWS: usize = 3;

pub const OPERATOR: usize = 4;

pub const ROW_NUMBERS: usize = 5;
