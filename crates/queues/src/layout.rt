// Where the words of a queue stand: how many values were read, how many were written, then a ring of values.
pub const READ: usize = 0;

pub const WRITE: usize = 1;

// A value is a pair of words, its kind and its payload. The counts are the pair before the first place of the ring.
pub const PAIR: usize = 2;

pub const FIRST: usize = 1;

// How many values there is room for.
pub const ROOM: usize = 64;

// All of the words.
pub const WORDS: usize = 130;
