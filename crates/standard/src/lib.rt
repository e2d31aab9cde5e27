// A standard PID block, from a constant table of offsets and words.
#![tactic(auto)]

ghost use Rattle.std.specs.Prelude.{◌≡◌};
ghost use Rattle.standard.specs.Standard.{standard_words as words_of, standard_settings as settings_of};

use block::key::ModeKey;
use block::words::{LENGTH, fill_words};
use pid_fields::fields::Settings;

// The words of a standard block that are not 0, each with its offset. A real takes two words, low half first, and the low half of each of these is 0.
const TABLE: [(u16, u16); 10] = [
    // MODE: MAN by the key 3, 4, 5
    (1, 0x0008),
    // ALM: stopped
    (3, 0x4000),
    // INH
    (4, 0x4000),
    // MH 100
    (19, 0x42c8),
    // RH 100
    (23, 0x42c8),
    // CT 1
    (47, 0x3f80),
    // DML 100
    (49, 0x42c8),
    // P 1
    (53, 0x3f80),
    // TI 10
    (55, 0x4120),
    // GG 1
    (61, 0x3f80),
];

// The settings beside a standard block: key 3, 4, 5, ΔT 1, MD 8, reverse action.
const SETTINGS: Settings = Settings {
    key: ModeKey {
        man: 3,
        aut: 4,
        cas: 5,
    },
    dt: 1.0,
    md: 8.0,
    pn: 0,
};

/// The words of a standard block.
pub fn standard_words() -> [u16; 128]
    ensures { result ≡ words_of }
{
    let mut words = [0; LENGTH];
    fill_words(&mut words, &TABLE);
    words
}

/// The settings beside a standard block.
pub fn standard_settings() -> Settings
    ensures { result ≡ settings_of }
{
    SETTINGS
}
