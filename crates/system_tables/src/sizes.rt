// How many of each a system's table has room for. One more answers 28.
pub const GRAPHS: usize = 8;

pub const CHANNELS: usize = 8;

// The words of a system's table.
pub const WORDS: usize = 375434;
