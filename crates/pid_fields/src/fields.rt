// What a PID loop holds, as plain values.
ghost use Rattle.std.specs.Prelude.{◌≡◌, ◌==◌};

use block::key::ModeKey;
use reals::order::Band;
use terms::mode::Mode;

/// The settings that are handed in beside the words: the mode key, the scan period ΔT in seconds, the derivative gain MD, and PN, 1 for direct and 0 for reverse action.
#[derive(Clone, Copy, Debug, PartialEq)]
pub struct Settings {
    pub key: ModeKey,
    pub dt: f32,
    pub md: f32,
    // A word, as it is handed in: a narrower type would ask of callers the check that reading makes.
    pub pn: u16,
}

impl Settings {
    /// Whether the loop acts directly, and not in reverse.
    pub fn is_direct(self) -> bool
        ensures { result ≡ (self.pn == 1) }
    {
        self.pn == 1
    }
}

/// The output's limits MH and ML, and the ends RH and RL of the measuring range.
#[derive(Clone, Copy, Debug, PartialEq)]
pub struct Bounds {
    pub mh: f32,
    pub ml: f32,
    pub rh: f32,
    pub rl: f32,
}

impl Bounds {
    /// The band of the output: ML..MH.
    pub fn output(self) -> Band
        ensures low { result.low ≡ self.ml }
        ensures high { result.high ≡ self.mh }
    {
        Band {
            low: self.ml,
            high: self.mh,
        }
    }

    /// The measuring range: RL..RH.
    pub fn measuring(self) -> Band
        ensures low { result.low ≡ self.rl }
        ensures high { result.high ≡ self.rh }
    {
        Band {
            low: self.rl,
            high: self.rh,
        }
    }
}

/// The control period CT in seconds, the step limit DML, and what tunes the control step.
#[derive(Clone, Copy, Debug, PartialEq)]
pub struct Tuning {
    pub ct: f32,
    pub dml: f32,
    pub p: f32,
    pub ti: f32,
    pub td: f32,
    pub gw: f32,
    pub gg: f32,
}

/// What a scan leaves for the next one: the output before it is limited (MVP), the derivative part B, three measured values, newest first, and the last deviation.
#[derive(Clone, Copy, Debug, PartialEq)]
pub struct Past {
    pub mvp: f32,
    pub b: f32,
    pub measured: f32,
    pub measured1: f32,
    pub measured2: f32,
    pub dv: f32,
}

/// The fields of a block, with the settings beside them.
#[derive(Clone, Copy, Debug, PartialEq)]
pub struct Fields {
    pub mode: Mode,
    pub alm: u16,
    pub inh: u16,
    pub mv: f32,
    pub sv: f32,
    pub counter: u16,
    pub bounds: Bounds,
    pub tuning: Tuning,
    pub past: Past,
    pub settings: Settings,
}
