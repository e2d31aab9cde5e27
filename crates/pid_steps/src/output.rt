// Step 4 of a scan: the output step. An operation whose outcome is not finite ends it with nothing.
ghost use Rattle.std.specs.Prelude.{◌≡◌};
ghost use Rattle.reals.specs.Reals.{less, more};
ghost use Rattle.pid_steps.specs.Output.{held, target, stepped, limited, alarms_of, pulled, unwound, driven_by, driven};

use block::bits::{Alarms, alarms_made, alarms_off, is_tracking, with_trkf, without_trkf};
use pid_fields::fields::Fields;
use reals::checked::{add, div, mul, sub};
use reals::numbers::{ONE, ZERO};
use reals::order::Band;

/// What the output step gives: the output, the output before it is limited, and the words ALM and INH.
#[derive(Clone, Copy, Debug, PartialEq)]
pub struct Drive {
    pub mv: f32,
    pub mvp: f32,
    pub alm: u16,
    pub inh: u16,
}

impl Drive {
    /// A loop that holds.
    pub fn held(f: Fields) -> Drive
        ensures { result ≡ held f }
    {
        Drive {
            mv: f.mv,
            mvp: f.past.mvp,
            alm: alarms_off(f.alm),
            inh: with_trkf(f.inh),
        }
    }

    /// A loop that drives.
    pub fn driven(f: Fields, change: f32) -> Option<Drive>
        ensures { result ≡ driven f change }
    {
        let t = target(f, change)?;
        let wanted = Wanted { fields: f, t };
        let mvp = wanted.unwound()?;
        Some(wanted.driven_by(mvp))
    }
}

// T, the output that is wanted.
fn target(f: Fields, change: f32) -> Option<f32>
    ensures { result ≡ target f change }
{
    if is_tracking(f.inh) {
        add(ZERO, f.mv)
    } else {
        add(change, f.past.mvp)
    }
}

// The fields of a loop that drives, and T, the output that is wanted of it.
#[derive(Clone, Copy, Debug, PartialEq)]
struct Wanted {
    fields: Fields,
    t: f32,
}

impl Wanted {
    // What a step from the old output reaches.
    fn band(self) -> Band
        ensures low { result.low ≡ less self.fields.mv self.fields.tuning.dml }
        ensures high { result.high ≡ more self.fields.mv self.fields.tuning.dml }
    {
        Band::around(self.fields.mv, self.fields.tuning.dml)
    }

    // T1, the output within a step of the old one.
    fn within_step(self) -> f32
        ensures { result ≡ stepped self.fields self.t }
    {
        self.band().bring(self.t)
    }

    // The new output.
    fn limited(self) -> f32
        ensures { result ≡ limited self.fields self.t }
    {
        self.fields.bounds.output().bring(self.within_step())
    }

    // Whether T lay outside the band of T1, and T1 above MH or below ML.
    fn alarms(self) -> Alarms
        ensures { result ≡ alarms_of self.fields self.t }
    {
        let band = self.band();
        let t1 = self.within_step();
        Alarms {
            dmla: self.t < band.low || band.high < self.t,
            mha: self.fields.bounds.mh < t1,
            mla: t1 < self.fields.bounds.ml,
        }
    }

    // T pulled towards the limit that it lies beyond.
    fn pulled(self, limit: f32) -> Option<f32>
        ensures { result ≡ pulled self.fields limit self.t }
    {
        let ratio = div(self.fields.settings.dt, self.fields.tuning.ti)?;
        let r = if ONE < ratio { ONE } else { ratio };
        add(mul(r, sub(limit, self.t)?)?, self.t)
    }

    // MVP after the anti-windup.
    fn unwound(self) -> Option<f32>
        ensures { result ≡ unwound self.fields self.t }
    {
        let b = self.fields.bounds;
        if self.fields.tuning.ti == ZERO {
            Some(self.t)
        } else if b.mh < self.t {
            self.pulled(b.mh)
        } else if self.t < b.ml {
            self.pulled(b.ml)
        } else {
            Some(self.t)
        }
    }

    // The loop driven, with MVP after the anti-windup.
    fn driven_by(self, mvp: f32) -> Drive
        ensures { result ≡ driven_by self.fields self.t mvp }
    {
        let f = self.fields;
        Drive {
            mv: self.limited(),
            mvp,
            alm: alarms_made(f.alm, f.inh, self.alarms()),
            inh: without_trkf(f.inh),
        }
    }
}
