// For the crates above: each function asks for a table that is sound and a run that fits it, lent as words or, in `by_value`, handed in.
pub mod by_value;
pub mod fits;
pub mod fresh;
pub mod fresh_words;
pub mod listing;
pub mod messages;
pub mod steps;
pub mod used;
pub mod waits;
pub mod words;
