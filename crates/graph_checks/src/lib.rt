// What each building call asks before anything is written.
#![tactic(auto)]

pub mod checks;
