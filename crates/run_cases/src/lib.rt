// Cases of runs: of the old core, of the new core, and trails that another emulator recorded.
#![tactic(auto)]

mod ending;
pub mod old;
pub mod records;
pub mod trail;
