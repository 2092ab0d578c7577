// The words of a state, by name, and what is asked of them. Functions ask for a table that is sound.
pub mod fits;
pub mod fresh;
pub mod words;
