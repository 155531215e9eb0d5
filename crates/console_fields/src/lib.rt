// Fields of a line of the book program: where one ends, numbers, and letters of kinds (document 01, "The book program").
#![tactic(auto)]

mod fields;
pub mod letters;
mod numbers;

pub use fields::split_field;
pub use numbers::read_number;
