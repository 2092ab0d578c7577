// What a program graph is made of: the numbers that name its parts, the refusals, the words of its table, and the test of
// a table that is handed in.
#![tactic(auto)]

pub mod answers;
pub mod formed;
pub mod handed;
pub mod ids;
pub mod inner;
pub mod layout;
pub mod refusals;
pub mod runs;
pub mod sizes;
