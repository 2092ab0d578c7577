// What lines on a graph hand over beside plain tokens, limits, guards and messages, read by a cursor; and what is written of
// the calls' answers.
#![tactic(auto)]

pub mod faults;
pub mod guards;
pub mod inner;
pub mod limits;
pub mod lines;
pub mod lists;
pub mod messages;
pub mod pairs;
pub mod replies;
