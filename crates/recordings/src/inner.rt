pub mod numbers;
pub mod records;
pub mod writes;
