// Each place's group of records: how many they are, where they stand, and what they are.
#![tactic(auto)]

pub mod layout;
pub mod records;
