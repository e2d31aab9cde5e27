// What a PID loop tells.
ghost use Rattle.std.specs.Prelude.{◌≡◌};
ghost use Rattle.pid_meaning.specs.Telling.{told_state};

use block::bits::{is_stopped, is_tracking};
use pid_steps::scanning::State;
use pid_steps::setpoint::percent_at;
use terms::told::Told;

/// What a loop of this state tells.
pub fn tell_state(state: State) -> Told
    ensures { result ≡ told_state state }
{
    let f = state.fields;
    Told {
        mode: f.mode,
        stopped: is_stopped(f.alm),
        tracking: is_tracking(f.inh),
        mv: f.mv,
        ml: f.bounds.ml,
        mh: f.bounds.mh,
        dml: f.tuning.dml,
        e2: state.e2,
        s: percent_at(f.sv, f.bounds),
    }
}
