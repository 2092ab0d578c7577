// The tokens of the line language, the lines that they come in, and the writing of answers. Every function takes any bytes:
// what is no token of its kind is bad, and what has no room is left out. (A line and a place in it stand side by side, and so
// do lent bytes and a place in them: the calls that docs/API.md names take them so.)
#![tactic(auto)]

pub mod answers;
pub mod bounds;
pub mod inner;
pub mod items;
pub mod lines;
pub mod lists;
pub mod numbers;
pub mod output;
pub mod ranges;
pub mod rows;
pub mod tokens;
pub mod values;
