// The places that a refusal can name.
ghost use Rattle.std.specs.Prelude.{◌≡◌};
ghost use Rattle.terms.specs.Refusals.{place_number};

/// A place: a field of the block, which goes by its offset, or a value handed in beside the words, which goes by a number from 128 on.
#[derive(Clone, Copy, Debug, PartialEq, Eq)]
pub enum Place {
    Mode = 1,
    Alm = 3,
    Inh = 4,
    Mv = 12,
    Sv = 14,
    Dv = 16,
    Mh = 18,
    Ml = 20,
    Rh = 22,
    Rl = 24,
    Ct = 46,
    Dml = 48,
    P = 52,
    Ti = 54,
    Td = 56,
    Gw = 58,
    Gg = 60,
    Mvp = 62,
    Counter = 97,
    B = 102,
    Measured = 104,
    Measured1 = 106,
    Measured2 = 108,
    LastDv = 110,
    ModeKey = 128,
    ScanPeriod = 129,
    Md = 130,
    Remote = 131,
    Pn = 145,
}

impl Place {
    /// The place's number: a field's offset, or from 128 on a value handed in.
    pub fn number(self) -> u16
        ensures { result ≡ place_number self }
    {
        self as u16
    }
}
