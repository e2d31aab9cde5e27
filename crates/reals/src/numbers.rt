// The numbers that the ranges of a loop go by, and the ranges themselves.
ghost use Rattle.std.specs.Prelude.{◌≡◌, [], ◌∷◌};
ghost use Rattle.reals.specs.Numbers.{zero, one, two, hundred, bottom, top, least, most, narrowest, longest};

use crate::order::Band;

pub const ZERO: f32 = 0.0;

pub const ONE: f32 = 1.0;

pub const TWO: f32 = 2.0;

pub const HUNDRED: f32 = 100.0;

/// The ends of an output.
pub const BOTTOM: f32 = -10.0;

pub const TOP: f32 = 110.0;

/// The ends of what is typed in units of the plant; MOST is the upper end of times and gains too.
pub const LEAST: f32 = -999999.0;

pub const MOST: f32 = 999999.0;

/// The narrowest span of a measuring range: 1/1024.
pub const NARROWEST: f32 = 0.0009765625;

/// The most scans of a control period.
pub const LONGEST: f32 = 32767.0;

/// An output, in percent: −10..110.
pub const OUTPUT: Band = Band {
    low: BOTTOM,
    high: TOP,
};

/// A setpoint or a step limit, in percent: 0..100.
pub const PERCENT: Band = Band {
    low: ZERO,
    high: HUNDRED,
};

/// What is typed in units of the plant: −999999..999999.
pub const TYPED: Band = Band {
    low: LEAST,
    high: MOST,
};

/// A time or a gain: 0..999999.
pub const NON_NEGATIVE: Band = Band {
    low: ZERO,
    high: MOST,
};

// Each number is that of its definition.
fn defined() -> [f32; 8]
    ensures { result ≡ zero ∷ hundred ∷ bottom ∷ top ∷ least ∷ most ∷ narrowest ∷ longest ∷ [] }
{
    [ZERO, HUNDRED, BOTTOM, TOP, LEAST, MOST, NARROWEST, LONGEST]
}

fn defined_units() -> [f32; 2]
    ensures { result ≡ one ∷ two ∷ [] }
{
    [ONE, TWO]
}
