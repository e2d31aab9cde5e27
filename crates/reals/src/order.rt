// The order of reals, and bands of them.
ghost use Rattle.std.specs.Prelude.{◌≡◌};
ghost use Rattle.std.specs.Float.Ieee.{eq};
ghost use Rattle.reals.specs.Reals.{brought, inside, less, more};
ghost use Rattle.reals.specs.Laws.{TotalOrder, Equality, Brought, Steps, StepsFinite};

/// Whether x and y are equal as IEEE 754 compares them: −0 equals +0, and NaN equals nothing.
#[tactic(auto, using(crate::proofs::OrderLaws::equality))]
pub fn same(x: f32, y: f32) -> bool
    ensures value { result ≡ eq x y }
    ensures equality { Equality }
{
    x == y
}

/// The reals from `low` to `high`, both ends included. Where `low` is above `high` it holds nothing.
#[derive(Clone, Copy, Debug, PartialEq)]
pub struct Band {
    pub low: f32,
    pub high: f32,
}

impl Band {
    /// Whether x lies in the band. No NaN does.
    #[tactic(auto, using(crate::proofs::OrderLaws::total_order), unfolding(crate::specs::Reals::inside))]
    pub fn contains(self, x: f32) -> bool
        ensures value { result ≡ inside self.low self.high x }
        ensures order { TotalOrder }
    {
        self.low <= x && x <= self.high
    }

    /// x brought into the band: the end that x is past, or x itself.
    #[tactic(auto, using(crate::proofs::OrderLaws::brought_in))]
    pub fn bring(self, x: f32) -> f32
        ensures value { result ≡ brought x self.low self.high }
        ensures range { Brought x self.low self.high }
    {
        if x < self.low {
            self.low
        } else if self.high < x {
            self.high
        } else {
            x
        }
    }

    /// The band that a step of d reaches from x: x − d to x + d, each rounded once. For d of at least 0 it holds x; for x in −10..110 and d in 0..100 both ends are finite.
    #[tactic(auto, using(crate::proofs::Stepping::steps, crate::proofs::Stepping::steps_finite))]
    pub fn around(x: f32, d: f32) -> Band
        ensures low { result.low ≡ less x d }
        ensures high { result.high ≡ more x d }
        ensures around { Steps x d }
        ensures stays_finite { StepsFinite x d }
    {
        Band {
            low: x - d,
            high: x + d,
        }
    }
}
