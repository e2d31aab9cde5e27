// The mode of a loop.
ghost use Rattle.std.specs.Prelude.{◌≡◌};
ghost use Rattle.terms.specs.Modes.{manual, in_cascade};

use std::fmt;

/// MAN: an operator sets the output. AUT: the loop holds its own setpoint. CAS (cascade): the setpoint comes from a remote value.
#[derive(Clone, Copy, Debug, PartialEq, Eq)]
pub enum Mode {
    Man,
    Aut,
    Cas,
}

impl Mode {
    /// Whether the mode is MAN.
    pub fn is_manual(self) -> bool
        ensures { result ≡ manual self }
    {
        self == Mode::Man
    }

    /// Whether the mode is CAS.
    pub fn is_cascade(self) -> bool
        ensures { result ≡ in_cascade self }
    {
        self == Mode::Cas
    }
}

impl fmt::Display for Mode {
    fn fmt<W: fmt::Write>(&self, f: &mut fmt::Formatter<W>) -> fmt::Result {
        f.write_str(match self {
            Mode::Man => "MAN",
            Mode::Aut => "AUT",
            Mode::Cas => "CAS",
        })
    }
}
