// For the crates above: each function asks for a table that is sound. The parts of a run are lent as words.
pub mod candidates;
pub mod copies;
pub mod effects;
pub mod limits;
pub mod listing;
pub mod messages;
pub mod waiting;
pub mod waits;
