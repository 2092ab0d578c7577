// What calls answer: what was asked for, or a refusal.
use crate::ids::Action;
use crate::refusals::Refusal;

pub type Answer<T> = Result<T, Refusal>;

// What a run may do next: an action, and where it takes a process.
#[derive(Clone, Copy)]
pub struct Entry {
    pub action: Action,
    pub process: usize,
    pub post: u32,
}
