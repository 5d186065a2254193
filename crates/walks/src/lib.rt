// The places that a program has, found from its entries: a worklist, handled in number order.
#![tactic(auto)]

pub mod walk;
pub mod worklist;
