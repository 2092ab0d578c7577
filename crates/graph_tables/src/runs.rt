// Where the words of a run stand: counts of its processes, variables and clocks, then its parts.
pub const PROCESSES: usize = 0;

pub const VARIABLES: usize = 1;

pub const TIMERS: usize = 2;

// The location of each process.
pub const PLACES: usize = 3;

// A kind and a payload for each variable.
pub const VARS: usize = 7;

pub const CLOCKS: usize = 39;

// All of them.
pub const WORDS: usize = 47;
