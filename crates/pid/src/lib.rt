// The PID loop: how it is started, and the kind of loop that it is.
#![tactic(auto)]

pub mod kind;
mod starting;
