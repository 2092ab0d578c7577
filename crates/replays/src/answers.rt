// What a replay answers.
use graph_tables::refusals::Refusal;

// A record that answered otherwise than it says: its block, its place in it, the recorded number and the one given.
#[derive(Clone, Copy)]
pub struct Difference {
    pub block: u64,
    pub entry: u64,
    pub recorded: u32,
    pub given: u32,
}

// What ends a replay early: the first bad block, the first difference, or a refusal.
#[derive(Clone, Copy)]
pub enum ReplayError {
    BadBlock(u64),
    Differs(Difference),
    Refused(Refusal),
}
