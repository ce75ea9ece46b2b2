// The checks of the tables of an index image, which question 3 is made of: its entries, and the places that its words name.
#![tactic(auto)]

pub mod entries;
pub mod marks;
