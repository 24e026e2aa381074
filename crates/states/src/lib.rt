// The states of 01's table ("Pieces, items, states"), each under its word there; 0 is that of an item with its value. There is no code here.
// Numbers, and no enum: of two states the smaller wins, and C reads the number in a record, so that an enum would be turned into it everywhere.
#![tactic(auto)]

pub const BROKEN: u8 = 1;

pub const DOUBLED: u8 = 2;

pub const UNFOLDED: u8 = 3;

pub const UNKNOWN: u8 = 4;

pub const LEANS: u8 = 5;

pub const KIND: u8 = 6;

pub const DIVISOR: u8 = 7;

pub const EXPONENT: u8 = 8;

pub const SIZE: u8 = 9;

pub const RANGE: u8 = 10;

// How many states there are, 0 among them.
pub const STATES: usize = 11;
