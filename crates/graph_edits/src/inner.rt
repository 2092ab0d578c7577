// For the crates above: each function asks for what the check before it has found.
pub mod actions;
pub mod limits;
pub mod locations;
pub mod rows;
pub mod transitions;
pub mod variables;
