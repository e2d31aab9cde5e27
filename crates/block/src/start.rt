// How a block that was read is started.

/// Cold: past values at zero and TRKF set. Warm: all as it was read.
#[derive(Clone, Copy, Debug, PartialEq, Eq)]
pub enum Start {
    Cold,
    Warm,
}
