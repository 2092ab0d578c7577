// Lines on a run of a graph. Each is answered by the public call that it names.
#![tactic(auto)]

pub mod answers;
pub mod running;
pub mod showing;
mod stepping;
