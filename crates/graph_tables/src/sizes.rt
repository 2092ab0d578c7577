// How many of each a table has room for. One more answers 28.
pub const PROCESSES: usize = 4;

pub const LOCATIONS: usize = 32;

pub const ACTIONS: usize = 32;

pub const TRANSITIONS: usize = 128;

pub const VARIABLES: usize = 16;

pub const CLOCKS: usize = 8;

// Per transition, and per location.
pub const LIMITS: usize = 8;

// Per action.
pub const EFFECTS: usize = 16;

pub const RESETS: usize = 16;

pub const DRAWS: usize = 64;

// Values of a message, and items of an expression.
pub const MESSAGE: usize = 4;

pub const ITEMS: usize = 64;

// The words of a graph's table.
pub const WORDS: usize = 46890;
