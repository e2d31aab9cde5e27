// Starting a loop that was read: cold or warm.
ghost use Rattle.std.specs.Prelude.{◌≡◌};
ghost use Rattle.pid_steps.specs.Setpoint.{percent_of};
ghost use Rattle.pid.specs.Starting.{aimed, cold_past, cold_fields};

use block::bits::with_trkf;
use pid_fields::fields::{Fields, Past};
use pid_steps::scanning::State;
use pid_steps::setpoint::percent_at;
use reals::numbers::ZERO;

// The state of a loop that was not scanned yet: its E2 is S.
pub(crate) fn aimed(f: Fields) -> State
    ensures { result ≡ aimed f }
{
    State {
        fields: f,
        e2: percent_at(f.sv, f.bounds),
    }
}

fn cold_past(past: Past) -> Past
    ensures { result ≡ cold_past past }
{
    Past {
        mvp: past.mvp,
        b: ZERO,
        measured: ZERO,
        measured1: ZERO,
        measured2: ZERO,
        dv: ZERO,
    }
}

// The fields of a cold start.
pub(crate) fn cold(f: Fields) -> Fields
    ensures { result ≡ cold_fields f }
{
    Fields {
        inh: with_trkf(f.inh),
        counter: 0,
        past: cold_past(f.past),
        ..f
    }
}
