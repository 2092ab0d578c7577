// Lines on a state of a system. Each is answered by the public call that it names.
#![tactic(auto)]

mod answers;
mod replaying;
pub mod running;
mod showing;
mod stepping;
