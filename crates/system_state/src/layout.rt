// Where the words of a state stand: the time, a run for each graph, a queue for each channel.
pub const TIME: usize = 0;

pub const RUNS: usize = 1;

pub const QUEUES: usize = 377;

// All of them.
pub const WORDS: usize = 1417;
