// What a call does with its outcome.
ghost use Rattle.std.specs.Prelude.{◌≡◌};
ghost use Rattle.block.specs.Checks.{at_top, done};
ghost use Rattle.loops.specs.Outcomes.{after};

use terms::refusal::{Cause, Refusal};

/// Takes over what a call came to, or answers the refusal and leaves all as found.
pub fn settle<S: Drop>(state: &mut S, outcome: Result<S, Cause>) -> Result<(), Refusal>
    ensures answers { result ≡ at_top (done outcome) }
    ensures leaves { state.new ≡ after state.old outcome }
{
    *state = outcome?;
    Ok(())
}
