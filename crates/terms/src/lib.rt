// The terms that every layer shares: modes, places, refusals, operators' entries and what a loop tells.
#![tactic(auto)]

pub mod entry;
pub mod mode;
pub mod place;
pub mod refusal;
pub mod told;
