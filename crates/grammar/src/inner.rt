// For the crates above: functions that ask something of their caller.
pub mod digits;
pub mod evaluation;
pub mod slots;
