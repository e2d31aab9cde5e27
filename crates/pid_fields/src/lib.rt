// The fields of a PID block: their values, the checks of reading, and how they stand in the words.
#![tactic(auto)]

pub mod checks;
pub mod fields;
pub mod reading;
pub mod writing;
