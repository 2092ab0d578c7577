// Calls on a table and a state that are known to fit.
pub mod channels;
pub mod listing;
pub mod posts;
pub mod runs;
pub mod spoken;
pub mod steps;
pub mod transfers;
pub mod waits;
