// A real in two words of 16 bits, low half first.
ghost use Rattle.std.specs.Prelude.{◌≡◌};
ghost use Rattle.reals.specs.Reals.{real_of, low_word, high_word};
ghost use Rattle.reals.specs.Laws.{PatternKept, RealKept};

use std::num::{f32_from_bits_with_nan, f32_to_bits_with_nan};

/// The two words of a real.
#[derive(Clone, Copy, Debug, PartialEq, Eq)]
pub struct Halves {
    pub low: u16,
    pub high: u16,
}

/// The real that two words hold. Every pattern of a NaN gives NaN.
impl From<Halves> for f32 {
    ghost from_gives = { λ halves x. (x ≡ real_of halves.low halves.high) × PatternKept halves.low halves.high };

    #[tactic(auto, using(crate::proofs::Bits::pattern_kept))]
    fn from(halves: Halves) -> f32
        ensures value { result ≡ real_of halves.low halves.high }
        ensures kept { PatternKept halves.low halves.high }
    {
        let bits = u32::from(halves.high) << 16 | u32::from(halves.low);
        f32_from_bits_with_nan(bits)
    }
}

/// The two words of x.
impl From<f32> for Halves {
    ghost from_gives = { λ x halves. (halves.low ≡ low_word x) × (halves.high ≡ high_word x) × RealKept x };

    #[tactic(auto, using(crate::proofs::Bits::real_back))]
    fn from(x: f32) -> Halves
        ensures low { result.low ≡ low_word x }
        ensures high { result.high ≡ high_word x }
        ensures kept { RealKept x }
    {
        let bits = f32_to_bits_with_nan(x);
        Halves {
            low: (bits & 0xffff) as u16,
            high: (bits >> 16) as u16,
        }
    }
}
