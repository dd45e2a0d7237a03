// Tables (document 01, "Rows"): the words of a row, the table of shapes, what a row means, and checks 1 to 4.
#![tactic(auto)]

pub mod checks;
pub mod depths;
pub mod meaning;
pub mod row;
pub mod shapes;
pub mod uses;
