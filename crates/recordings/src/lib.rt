// Recordings: rows of blocks of 512 bytes, each of up to 15 records of calls.
#![tactic(auto)]

pub mod blocks;
pub mod inner;
pub mod layout;
pub mod writing;
