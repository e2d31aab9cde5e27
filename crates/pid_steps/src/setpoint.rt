// Steps 1 and 2 of a scan: the mode, and the setpoint.
ghost use Rattle.std.specs.Prelude.{◌≡◌};
ghost use Rattle.pid_steps.specs.Setpoint.{percent_at, remote_sv, mode_of, remote_aim, own_aim, aim_of};

use block::bits::is_stopped;
use pid_fields::fields::{Bounds, Fields};
use reals::numbers::{HUNDRED, PERCENT};
use terms::mode::Mode;

/// S, the setpoint in percent.
pub fn percent_at(sv: f32, b: Bounds) -> f32
    ensures { result ≡ percent_at sv b }
{
    PERCENT.bring((HUNDRED / (b.rh - b.rl)) * (sv - b.rl))
}

// The setpoint SV that a remote value stands for.
fn remote_sv(r: f32, b: Bounds) -> f32
    ensures { result ≡ remote_sv r b }
{
    b.measuring().bring(((b.rh - b.rl) / HUNDRED) * r + b.rl)
}

/// Step 1: the mode of a scan, which is MAN where the loop is stopped.
pub fn mode_of(f: Fields) -> Mode
    ensures { result ≡ mode_of f }
{
    if is_stopped(f.alm) { Mode::Man } else { f.mode }
}

/// What a scan aims at: the setpoint SV, the same in percent (S), and the percentage that the loop works with (E2).
#[derive(Clone, Copy, Debug, PartialEq)]
pub struct Aim {
    pub sv: f32,
    pub s: f32,
    pub e2: f32,
}

impl Aim {
    // At the setpoint that a remote value stands for.
    fn remote(r: f32, b: Bounds) -> Aim
        ensures { result ≡ remote_aim r b }
    {
        let sv = remote_sv(r, b);
        Aim {
            sv,
            s: percent_at(sv, b),
            e2: r,
        }
    }

    // At the loop's own setpoint.
    fn own(sv: f32, b: Bounds) -> Aim
        ensures { result ≡ own_aim sv b }
    {
        let s = percent_at(sv, b);
        Aim { sv, s, e2: s }
    }

    /// Step 2: in cascade with a remote value that value decides, and otherwise the loop's own setpoint. The mode is the scan's.
    pub fn of(mode: Mode, sv: f32, b: Bounds, remote: Option<f32>) -> Aim
        ensures { result ≡ aim_of mode sv b remote }
    {
        match (mode, remote) {
            (Mode::Cas, Some(r)) => Aim::remote(r, b),
            (Mode::Cas, None) | (Mode::Man | Mode::Aut, _) => Aim::own(sv, b),
        }
    }
}
