// Reading the fields of a block.
ghost use Rattle.std.specs.Prelude.{◌≡◌};
ghost use Rattle.pid_fields.specs.Reading.{bounds_of, tuning_of, past_of, mode_named, fields_of, checked_of};

use crate::fields::{Bounds, Fields, Past, Settings, Tuning};
use block::checks::check_length;
use block::words::{real_at, word_at};
use terms::mode::Mode;
use terms::place::Place;
use terms::refusal::Cause;

impl Bounds {
    fn read(words: &[u16]) -> Bounds
        ensures { result ≡ bounds_of words.now }
    {
        Bounds {
            mh: real_at(words, Place::Mh),
            ml: real_at(words, Place::Ml),
            rh: real_at(words, Place::Rh),
            rl: real_at(words, Place::Rl),
        }
    }
}

impl Tuning {
    fn read(words: &[u16]) -> Tuning
        ensures { result ≡ tuning_of words.now }
    {
        Tuning {
            ct: real_at(words, Place::Ct),
            dml: real_at(words, Place::Dml),
            p: real_at(words, Place::P),
            ti: real_at(words, Place::Ti),
            td: real_at(words, Place::Td),
            gw: real_at(words, Place::Gw),
            gg: real_at(words, Place::Gg),
        }
    }
}

impl Past {
    fn read(words: &[u16]) -> Past
        ensures { result ≡ past_of words.now }
    {
        Past {
            mvp: real_at(words, Place::Mvp),
            b: real_at(words, Place::B),
            measured: real_at(words, Place::Measured),
            measured1: real_at(words, Place::Measured1),
            measured2: real_at(words, Place::Measured2),
            dv: real_at(words, Place::LastDv),
        }
    }
}

impl Settings {
    // The mode that MODE names, if it names one.
    fn mode_in(self, words: &[u16]) -> Option<Mode>
        ensures { result ≡ mode_named words.now self }
    {
        self.key.mode(word_at(words, Place::Mode))
    }
}

impl Fields {
    // The fields as the words have them, with MAN where MODE names no mode.
    fn found(words: &[u16], settings: Settings) -> Fields
        ensures { result ≡ fields_of words.now settings }
    {
        Fields {
            mode: settings.mode_in(words).unwrap_or(Mode::Man),
            alm: word_at(words, Place::Alm),
            inh: word_at(words, Place::Inh),
            mv: real_at(words, Place::Mv),
            sv: real_at(words, Place::Sv),
            counter: word_at(words, Place::Counter),
            bounds: Bounds::read(words),
            tuning: Tuning::read(words),
            past: Past::read(words),
            settings,
        }
    }

    /// The fields of a block, or the first cause for refusing it.
    pub fn read(words: &[u16], settings: Settings) -> Result<Fields, Cause>
        ensures { result ≡ checked_of words.now settings }
    {
        let fields = Fields::found(words, settings);
        check_length(words)?;
        settings.check()?;
        fields.check_finite()?;
        settings.mode_in(words).ok_or(Cause::ModeNotCarried)?;
        fields.check_ranges()?;
        fields.check_relations()?;
        Ok(fields)
    }
}
