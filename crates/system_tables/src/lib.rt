// What a channel system is made of: the numbers that name its parts, the words of its table, and the test of a table that
// is handed in.
#![tactic(auto)]

pub mod formed;
pub mod ids;
pub mod inner;
pub mod layout;
pub mod sizes;
