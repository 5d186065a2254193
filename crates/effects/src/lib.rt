// The words that do not transfer control: what they do to registers, flags and data.
#![tactic(auto)]

pub mod data_area;
pub mod effect;
