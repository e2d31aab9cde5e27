// Why a call is refused, and where.
ghost use Rattle.std.specs.Prelude.{◌≡◌};
ghost use Rattle.terms.specs.Refusals.{step_number, cause_number, cause_place, refused};

use crate::place::Place;
use std::fmt;
use thiserror::Error;

/// Why a call is refused.
#[derive(Clone, Copy, Debug, PartialEq, Eq, Error)]
pub enum Cause {
    #[error("not 128 words")]
    WrongLength,
    #[error("a real that is not finite")]
    NotFinite(Place),
    #[error("a value outside its range")]
    OutOfRange(Place),
    /// a MODE word, or a mode that is entered
    #[error("MODE names no mode of this loop")]
    ModeNotCarried,
    #[error("ML is above MH")]
    LimitsCrossed,
    #[error("RH - RL is below 1/1024")]
    SpanTooSmall,
    #[error("CT / dT is above 32767")]
    PeriodTooLong,
    /// an entry to this place that the loop's mode, or its kind, does not allow
    #[error("an entry that the loop does not take now")]
    NotAllowed(Place),
    /// an operation of this step of a scan whose outcome is infinite or NaN
    #[error("a step with no finite result")]
    NoFiniteResult(Step),
}

/// The two steps of a scan whose operations are checked.
#[derive(Clone, Copy, Debug, PartialEq, Eq)]
pub enum Step {
    Control = 3,
    Output = 4,
}

impl Step {
    /// The step's number, by which a refusal names it.
    pub fn number(self) -> u16
        ensures { result ≡ step_number self }
    {
        self as u16
    }
}

impl Cause {
    /// The number by which the cause is told.
    pub fn number(self) -> u16
        ensures { result ≡ cause_number self }
    {
        match self {
            Cause::WrongLength => 1,
            Cause::NotFinite(_) => 2,
            Cause::OutOfRange(_) => 3,
            Cause::ModeNotCarried => 4,
            Cause::LimitsCrossed | Cause::SpanTooSmall | Cause::PeriodTooLong => 6,
            Cause::NotAllowed(_) => 7,
            Cause::NoFiniteResult(_) => 9,
        }
    }

    /// The number of the place at fault; 0 where it is the call as a whole.
    pub fn place(self) -> u16
        ensures { result ≡ cause_place self }
    {
        match self {
            Cause::WrongLength => 0,
            Cause::NotFinite(place) | Cause::OutOfRange(place) | Cause::NotAllowed(place) => {
                place.number()
            }
            Cause::ModeNotCarried => Place::Mode.number(),
            Cause::LimitsCrossed => Place::Ml.number(),
            Cause::SpanTooSmall => Place::Rl.number(),
            Cause::PeriodTooLong => Place::Ct.number(),
            Cause::NoFiniteResult(step) => step.number(),
        }
    }
}

/// A refusal: its cause, and the level of the loop that refuses.
#[derive(Clone, Copy, PartialEq, Eq, Error)]
#[error("refused by {}, level {level}, place {}: {cause}", .cause.number(), .cause.place())]
pub struct Refusal {
    pub cause: Cause,
    pub level: u64,
}

/// A call without levels tells level 0.
impl From<Cause> for Refusal {
    ghost from_gives = { λ cause refusal. refusal ≡ refused cause };

    fn from(cause: Cause) -> Refusal {
        Refusal { cause, level: 0 }
    }
}

// By hand, since a plant reads a refusal by its number and place wherever one is printed, at the end of a program too.
impl fmt::Debug for Refusal {
    fn fmt<W: fmt::Write>(&self, f: &mut fmt::Formatter<W>) -> fmt::Result {
        write!(f, "{self}")
    }
}
