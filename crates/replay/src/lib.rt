// What the programs share that replay stored cases: a line of a list and the text after it, opening and ending a list, the
// memory that a case lends, slices lent in part and compared, and what is printed.

#![tactic(auto)]

pub mod lent;
pub mod line;
pub mod lists;
pub mod say;
pub mod slices;
