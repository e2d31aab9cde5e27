// Checks in a fixed order, of which the first that fails decides.
ghost use Rattle.std.specs.Prelude.{◌≡◌};
ghost use Rattle.block.specs.Checks.{check, is_finite, is_in, passed, length_checks};

use crate::words::LENGTH;
use reals::order::Band;
use terms::place::Place;
use terms::refusal::Cause;

/// A check that was made: whether it passes, and the cause of the refusal where it fails.
// As values in a table, and not as results that take `?` one after another: tried so, the check proves ten in a row, and reading has up to nineteen.
#[derive(Clone, Copy, Debug, PartialEq, Eq)]
pub struct Check {
    pub passes: bool,
    pub cause: Cause,
}

impl Check {
    pub fn new(passes: bool, cause: Cause) -> Check
        ensures { result ≡ check passes cause }
    {
        Check { passes, cause }
    }

    /// The real x of a place is finite.
    pub fn finite(place: Place, x: f32) -> Check
        ensures { result ≡ is_finite place x }
    {
        Check::new(x.is_finite(), Cause::NotFinite(place))
    }

    /// The real x of a place lies in the band.
    pub fn within(place: Place, x: f32, band: Band) -> Check
        ensures { result ≡ is_in band.low band.high place x }
    {
        Check::new(band.contains(x), Cause::OutOfRange(place))
    }
}

/// The cause of the first check that fails, if one does.
pub fn pass(checks: &[Check]) -> Result<(), Cause>
    ensures { result ≡ passed checks.now }
{
    for check in checks {
        if !check.passes {
            return Err(check.cause);
        }
    }
    Ok(())
}

/// Words that are not 128 are refused.
pub fn check_length(words: &[u16]) -> Result<(), Cause>
    ensures { result ≡ passed (length_checks words.now) }
{
    pass(&[Check::new(words.len() == LENGTH, Cause::WrongLength)])
}
