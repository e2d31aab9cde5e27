// Reals as control loops use them: IEEE 754 binary32 numbers, each operation rounded once.
#![tactic(auto)]

pub mod checked;
pub mod numbers;
pub mod order;
pub mod words;
