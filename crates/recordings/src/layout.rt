// Where the bytes of a block and of a record stand (docs/LAYOUT.md, 'Recordings').

// ---- A block: its place in the recording, the count of its records, zeros, the records, the sum.
pub const BLOCK: usize = 512;

pub const PLACE_BYTES: usize = 4;

pub const COUNT: usize = 4;

pub const HEAD_ZEROS: usize = 5;

pub const HEAD_ZERO_BYTES: usize = 23;

pub const HEAD: usize = 28;

pub const RECORDS: usize = 15;

pub const RECORD: usize = 32;

pub const SUM: usize = 508;

pub const SUM_BYTES: usize = 4;

// ---- A record: kind, graph, number of posts, zero, action or delta, posts, word, answer, zeros.
pub const KIND: usize = 0;

pub const GRAPH: usize = 1;

pub const POST_COUNT: usize = 2;

pub const ZERO: usize = 3;

pub const AMOUNT: usize = 4;

pub const AMOUNT_BYTES: usize = 4;

pub const FIRST_POST: usize = 8;

pub const POST_BYTES: usize = 2;

pub const POSTS: usize = 4;

pub const POSTS_BYTES: usize = 8;

pub const WORD: usize = 16;

pub const WORD_BYTES: usize = 8;

pub const ANSWER: usize = 24;

pub const TAIL: usize = 25;

pub const TAIL_BYTES: usize = 7;

// ---- The two kinds.
pub const STEP: u8 = 1;

pub const WAIT: u8 = 2;
