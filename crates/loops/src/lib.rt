// Loops of every kind: the trait that a kind meets with its laws, a block that was read, a loop at work, and round trips through the words.
#![tactic(auto)]

pub mod inputs;
pub mod kind;
pub mod reading;
pub mod running;
pub mod settling;
pub mod writing;
