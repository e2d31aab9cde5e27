// The hand station: what it holds, and the kind of loop that it is.
#![tactic(auto)]

pub mod fields;
pub mod kind;
