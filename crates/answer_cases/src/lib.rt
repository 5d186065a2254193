// Cases of calls that answer: of the translator, of the reader and the writer of words, and of the listing.
#![tactic(auto)]

pub mod listed;
pub mod translation;
pub mod word;
