// What an operator enters.
use crate::mode::Mode;
use std::fmt;

/// The output's limits MH and ML, and the step limit DML, as an operator enters them together.
#[derive(Clone, Copy, Debug, PartialEq)]
pub struct Limits {
    pub mh: f32,
    pub ml: f32,
    pub dml: f32,
}

/// One of six entries: a mode, a setpoint in units of the plant, an output in percent, the limits, stop (SPA set) and run (SPA cleared).
#[derive(Clone, Copy, Debug, PartialEq)]
pub enum Entry {
    Mode(Mode),
    Setpoint(f32),
    Output(f32),
    Limits(Limits),
    Stop,
    Run,
}

impl fmt::Display for Limits {
    fn fmt<W: fmt::Write>(&self, f: &mut fmt::Formatter<W>) -> fmt::Result {
        write!(f, "MH {}, ML {}, DML {}", self.mh, self.ml, self.dml)
    }
}

impl fmt::Display for Entry {
    fn fmt<W: fmt::Write>(&self, f: &mut fmt::Formatter<W>) -> fmt::Result {
        match self {
            Entry::Mode(mode) => write!(f, "mode {mode}"),
            Entry::Setpoint(sv) => write!(f, "setpoint {sv}"),
            Entry::Output(mv) => write!(f, "output {mv}"),
            Entry::Limits(limits) => write!(f, "limits {limits}"),
            Entry::Stop => write!(f, "stop"),
            Entry::Run => write!(f, "run"),
        }
    }
}
