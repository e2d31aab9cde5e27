// The checks of the percentages that are handed to a loop.
ghost use Rattle.std.specs.Prelude.{◌≡◌};
ghost use Rattle.block.specs.Checks.{passed};
ghost use Rattle.loops.specs.Inputs.{percent_checks, inputs_passed};

use block::checks::{Check, pass};
use reals::numbers::OUTPUT;
use terms::place::Place;
use terms::refusal::Cause;

/// A percentage is finite, and then lies in −10..110.
pub fn check_percent(place: Place, x: f32) -> Result<(), Cause>
    ensures { result ≡ passed (percent_checks place x) }
{
    pass(&[Check::finite(place, x), Check::within(place, x, OUTPUT)])
}

/// What a scan is handed: the remote value, where there is one, and then the measured value.
pub fn check_inputs(m: f32, remote: Option<f32>) -> Result<(), Cause>
    ensures { result ≡ inputs_passed m remote }
{
    if let Some(x) = remote {
        check_percent(Place::Remote, x)?;
    }
    check_percent(Place::Measured, m)
}
