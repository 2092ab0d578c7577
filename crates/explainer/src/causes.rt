// What is told of a step. The kinds of failure stay numbers: `why` tells them in words, and the theorems Real and Fails speak of them.
// The process, its first candidate, what fails of it (run_steps::failures, or NO_CANDIDATE), and which limit or invariant that is. All 0 where
// there is no cause.
#[derive(Clone, Copy)]
pub struct Cause {
    pub process: usize,
    pub transition: usize,
    pub failing: u64,
    pub number: usize,
}

// The process has no candidate.
pub const NO_CANDIDATE: u64 = 4;

// Where the part that fails stands in its table.
#[derive(Clone, Copy)]
pub struct Part {
    pub start: usize,
    pub length: usize,
}

// The number of the answer, 0 for ok, with the cause of an 8.
#[derive(Clone, Copy)]
pub struct Found {
    pub answer: u32,
    pub cause: Cause,
    pub part: Part,
}

// What `why` tells: a word for the answer, and one for each number of the cause.
pub const TOLD: usize = 5;
