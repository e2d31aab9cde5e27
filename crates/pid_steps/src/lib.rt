// One scan of a PID loop, step by step, and an operator's entries: over the fields of a block, real by real.
#![tactic(auto)]

pub mod control;
pub mod entering;
pub mod output;
pub mod scanning;
pub mod setpoint;
