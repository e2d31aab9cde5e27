// What a loop tells.
use crate::mode::Mode;

/// What a loop tells of itself, whatever its kind: its mode, whether it is stopped (SPA), whether its next driving scan begins from the output as it stands (TRKF),
/// its output MV, the limits ML and MH and the step limit DML, the setpoint in percent that it last worked with (E2), and its own setpoint in percent (S).
#[derive(Clone, Copy, Debug, PartialEq)]
pub struct Told {
    pub mode: Mode,
    pub stopped: bool,
    pub tracking: bool,
    pub mv: f32,
    pub ml: f32,
    pub mh: f32,
    pub dml: f32,
    pub e2: f32,
    pub s: f32,
}
