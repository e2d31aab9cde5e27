// Step 3 of a scan: the control step. An operation whose outcome is not finite ends it with nothing.
ghost use Rattle.std.specs.Prelude.{◌≡◌};
ghost use Rattle.pid_steps.specs.Control.{deviation, gap_gain, bend, derivative, cut_off, integral, change_of, renewed, control_period, control_step, skipped};

use pid_fields::checks::periods;
use pid_fields::fields::{Fields, Past};
use reals::checked::{add, div, mul, sub};
use reals::numbers::{ONE, TWO, ZERO};
use terms::mode::Mode;

/// What the control step gives: the change of the output, and the counter and past values after it.
#[derive(Clone, Copy, Debug, PartialEq)]
pub struct Control {
    pub change: f32,
    pub counter: u16,
    pub past: Past,
}

impl Control {
    /// What a stopped loop has in place of a control step.
    pub fn skipped(f: Fields) -> Control
        ensures { result ≡ skipped f }
    {
        Control {
            change: ZERO,
            counter: f.counter,
            past: f.past,
        }
    }
}

/// What the control step of a scan goes by: the fields, the scan's mode, the setpoint in percent (S) and the measured value m.
#[derive(Clone, Copy, Debug, PartialEq)]
pub struct ControlStep {
    pub fields: Fields,
    pub mode: Mode,
    pub s: f32,
    pub m: f32,
}

impl ControlStep {
    /// The control step. Outside a control period the change is 0.
    pub fn run(self) -> Option<Control>
        ensures { result ≡ control_step self.fields self.mode self.s self.m }
    {
        let f = self.fields;
        let next = u32::from(f.counter) + 1;
        if next < u32::from(periods(f.tuning.ct, f.settings.dt)) {
            Some(Control {
                change: ZERO,
                counter: next as u16,
                past: f.past,
            })
        } else {
            self.period()
        }
    }

    // A control period: the change, and the past values renewed.
    fn period(self) -> Option<Control>
        ensures { result ≡ control_period self.fields self.mode self.s self.m }
    {
        let dv = self.deviation()?;
        let k = self.gap_gain(dv)?;
        let b = self.derivative()?;
        let j = self.integral(dv)?;
        let change = self.change(k, dv, j, b)?;
        Some(Control {
            change,
            counter: 0,
            past: self.renewed(dv, b),
        })
    }

    // DV, the deviation.
    fn deviation(self) -> Option<f32>
        ensures { result ≡ deviation self.fields.settings self.s self.m }
    {
        if self.fields.settings.is_direct() {
            sub(self.m, self.s)
        } else {
            sub(self.s, self.m)
        }
    }

    // K, the gap gain.
    fn gap_gain(self, dv: f32) -> Option<f32>
        ensures { result ≡ gap_gain self.fields.tuning dv }
    {
        let t = self.fields.tuning;
        let size = dv.abs();
        if size <= t.gw {
            return Some(t.gg);
        }
        let gap = mul(sub(ONE, t.gg)?, t.gw)?;
        sub(ONE, div(gap, size)?)
    }

    // The second difference of the measured value, by the direction of action.
    fn bend(self) -> Option<f32>
        ensures { result ≡ bend self.fields.settings self.fields.past self.m }
    {
        let p = self.fields.past;
        let s = add(sub(self.m, mul(TWO, p.measured)?)?, p.measured1)?;
        Some(if self.fields.settings.is_direct() {
            s
        } else {
            -s
        })
    }

    // B, the derivative part.
    fn derivative(self) -> Option<f32>
        ensures { result ≡ derivative self.fields.tuning self.fields.settings self.mode
            self.fields.past self.m }
    {
        let t = self.fields.tuning;
        let md = self.fields.settings.md;
        let old = self.fields.past.b;
        if t.td == ZERO || self.mode.is_manual() {
            return Some(ZERO);
        }
        let s = self.bend()?;
        let weight = div(mul(md, t.td)?, add(mul(md, t.ct)?, t.td)?)?;
        let rest = sub(s, div(mul(t.ct, old)?, t.td)?)?;
        add(old, mul(weight, rest)?)
    }

    // J, or 0 where it would drive MVP further out of the limits.
    fn cut_off(self, j: f32) -> f32
        ensures { result ≡ cut_off self.fields.bounds self.fields.past.mvp j }
    {
        let b = self.fields.bounds;
        let mvp = self.fields.past.mvp;
        if b.mh < mvp && ZERO < j || mvp < b.ml && j < ZERO {
            ZERO
        } else {
            j
        }
    }

    // J, the integral part.
    fn integral(self, dv: f32) -> Option<f32>
        ensures { result ≡ integral self.fields.tuning self.fields.bounds self.fields.past.mvp dv }
    {
        let t = self.fields.tuning;
        if t.ti == ZERO {
            return Some(ZERO);
        }
        let j = mul(div(t.ct, t.ti)?, dv)?;
        Some(self.cut_off(j))
    }

    // The change of the output.
    fn change(self, k: f32, dv: f32, j: f32, b: f32) -> Option<f32>
        ensures { result ≡ change_of k self.fields.tuning.p dv self.fields.past.dv j b }
    {
        let f = self.fields;
        mul(mul(k, f.tuning.p)?, add(add(sub(dv, f.past.dv)?, j)?, b)?)
    }

    // The past values, renewed by a control period.
    fn renewed(self, dv: f32, b: f32) -> Past
        ensures { result ≡ renewed self.fields.past self.m dv b }
    {
        let p = self.fields.past;
        Past {
            b,
            measured: self.m,
            measured1: p.measured,
            measured2: p.measured1,
            dv,
            ..p
        }
    }
}
