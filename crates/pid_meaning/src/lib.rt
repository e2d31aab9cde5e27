// What a PID loop tells, and that its steps and entries keep the meaning of a loop and every check of its block.
#![tactic(auto)]

pub mod telling;
