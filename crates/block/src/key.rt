// The mode key.
ghost use Rattle.std.specs.Prelude.{◌≡◌};
ghost use Rattle.block.specs.Key.{key_valid, bit_word, mode_word, mode_in};

use terms::mode::Mode;

/// The bit of the MODE word that stands for each mode.
#[derive(Clone, Copy, Debug, PartialEq, Eq)]
pub struct ModeKey {
    pub man: u8,
    pub aut: u8,
    pub cas: u8,
}

// The word with one bit set; a number that is no bit's gives 0.
fn bit_word(bit: u8) -> u16
    ensures { result ≡ bit_word bit }
{
    1u16.checked_shl(u32::from(bit)).unwrap_or(0)
}

impl ModeKey {
    /// Whether the key names three different bits of 0..15.
    pub fn is_valid(self) -> bool
        ensures { result ≡ key_valid self }
    {
        self.man < 16
            && self.aut < 16
            && self.cas < 16
            && self.man != self.aut
            && self.man != self.cas
            && self.aut != self.cas
    }

    /// The MODE word of a mode.
    pub fn word(self, mode: Mode) -> u16
        ensures { result ≡ mode_word self mode }
    {
        match mode {
            Mode::Man => bit_word(self.man),
            Mode::Aut => bit_word(self.aut),
            Mode::Cas => bit_word(self.cas),
        }
    }

    /// The mode that a MODE word names: one of the three bits, and no other.
    pub fn mode(self, word: u16) -> Option<Mode>
        ensures { result ≡ mode_in self word }
    {
        [Mode::Man, Mode::Aut, Mode::Cas]
            .iter()
            .copied()
            .find(|&mode| word == self.word(mode))
    }
}
