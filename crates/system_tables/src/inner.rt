// The words of a system, by name, and what is asked of them.
pub mod ceiling;
pub mod words;
pub mod writers;
