// For the crates above: each function asks for the words of a queue.
pub mod fits;
pub mod ring;
