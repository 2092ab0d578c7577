// What stands between the numbers of C and the values of the calls: answers written out, arguments read, a run in lent words.
pub mod given;
pub mod handed;
pub mod lent;
pub mod values;
