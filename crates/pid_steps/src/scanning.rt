// A whole scan of a PID loop, and a follow.
ghost use Rattle.std.specs.Prelude.{◌≡◌};
ghost use Rattle.pid_steps.specs.Scanning.{third, fourth, left_by, steps, scan_of, put_output, follow_of};

use crate::control::{Control, ControlStep};
use crate::output::Drive;
use crate::setpoint::{Aim, mode_of};
use block::bits::{is_stopped, with_trkf};
use loops::inputs::{check_inputs, check_percent};
use pid_fields::fields::{Fields, Past};
use terms::mode::Mode;
use terms::place::Place;
use terms::refusal::{Cause, Step};

/// What a loop works with: the fields of its block, and E2.
#[derive(Clone, Copy, Debug, PartialEq)]
pub struct State {
    pub fields: Fields,
    pub e2: f32,
}

// A scan after steps 1 and 2: the fields as found, the scan's mode, what it aims at, and the measured value m.
#[derive(Clone, Copy, Debug, PartialEq)]
struct Scan {
    fields: Fields,
    mode: Mode,
    aim: Aim,
    m: f32,
}

impl Scan {
    // Step 3, which a stopped loop skips.
    fn control(self) -> Result<Control, Cause>
        ensures { result ≡ third self.fields self.mode self.aim.s self.m }
    {
        if is_stopped(self.fields.alm) {
            return Ok(Control::skipped(self.fields));
        }
        let step = ControlStep {
            fields: self.fields,
            mode: self.mode,
            s: self.aim.s,
            m: self.m,
        };
        step.run().ok_or(Cause::NoFiniteResult(Step::Control))
    }

    // Step 4: in MAN, where a stopped loop is too, the loop holds, and otherwise it drives.
    fn output(self, change: f32) -> Result<Drive, Cause>
        ensures { result ≡ fourth self.fields self.mode change }
    {
        if self.mode.is_manual() {
            return Ok(Drive::held(self.fields));
        }
        Drive::driven(self.fields, change).ok_or(Cause::NoFiniteResult(Step::Output))
    }

    // What the steps leave, put together.
    fn left_by(self, control: Control, drive: Drive) -> State
        ensures { result ≡ left_by self.fields self.mode self.aim control drive }
    {
        let fields = Fields {
            mode: self.mode,
            alm: drive.alm,
            inh: drive.inh,
            mv: drive.mv,
            sv: self.aim.sv,
            counter: control.counter,
            past: Past {
                mvp: drive.mvp,
                ..control.past
            },
            ..self.fields
        };
        State {
            fields,
            e2: self.aim.e2,
        }
    }

    // Steps 3 and 4.
    fn run(self) -> Result<State, Cause>
        ensures { result ≡ steps self.fields self.mode self.aim self.m }
    {
        let control = self.control()?;
        let drive = self.output(control.change)?;
        Ok(self.left_by(control, drive))
    }
}

/// A scan: the remote value and the measured value are checked, then the four steps follow.
pub fn scan_fields(f: Fields, m: f32, remote: Option<f32>) -> Result<State, Cause>
    ensures { result ≡ scan_of f m remote }
{
    check_inputs(m, remote)?;
    let mode = mode_of(f);
    let aim = Aim::of(mode, f.sv, f.bounds, remote);
    let scan = Scan {
        fields: f,
        mode,
        aim,
        m,
    };
    scan.run()
}

// The fields with the output p, from which the next driving scan begins.
pub(crate) fn put_output(f: Fields, p: f32) -> Fields
    ensures { result ≡ put_output f p }
{
    Fields {
        inh: with_trkf(f.inh),
        mv: p,
        ..f
    }
}

/// A follow of p.
pub fn follow_fields(f: Fields, p: f32) -> Result<Fields, Cause>
    ensures { result ≡ follow_of f p }
{
    check_percent(Place::Mv, p)?;
    Ok(put_output(f, p))
}
