pub mod blocks;
pub mod calls;
pub mod numbers;
