// Places: what the word at one does to control, their table, which the caller lends, and its index.
#![tactic(auto)]

pub mod control;
pub mod index;
pub mod table;
