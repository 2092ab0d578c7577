// Where words stand in the two tables that are lent: the regions of each graph, one graph after the other.

// The region of one graph: a slot of items for each guard, and all its limits.
pub const GUARD_WORDS: usize = 8192;

pub const LIMIT_WORDS: usize = 3840;

// All words of each table.
pub const ALL_GUARDS: usize = 65536;

pub const ALL_LIMITS: usize = 30720;
