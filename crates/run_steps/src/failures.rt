// What fails of a candidate, in the order of its test: nothing, its guard, one of its limits, or an invariant of its post-location.
pub const NOTHING: u64 = 0;

pub const GUARD: u64 = 1;

pub const LIMIT: u64 = 2;

pub const INVARIANT: u64 = 3;
