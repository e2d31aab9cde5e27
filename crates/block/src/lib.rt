// The block: 128 device words that hold one loop.
#![tactic(auto)]

pub mod bits;
pub mod checks;
pub mod key;
pub mod start;
pub mod words;
