// What a hand station holds, as plain values, and what is made of it.
ghost use Rattle.std.specs.Prelude.{◌≡◌};
ghost use Rattle.block.specs.Checks.{passed};
ghost use Rattle.hand.specs.Checks.{station_checks};
ghost use Rattle.hand.specs.Reading.{checked_of};
ghost use Rattle.hand.specs.Scanning.{held_fields, put_fields, mode_of};
ghost use Rattle.hand.specs.Starting.{percent_of, cold_fields};

use block::bits::{alarms_off, with_trkf};
use block::checks::{Check, check_length, pass};
use block::key::ModeKey;
use block::words::{real_at, word_at};
use reals::numbers::{OUTPUT, PERCENT};
use terms::mode::Mode;
use terms::place::Place;
use terms::refusal::Cause;

/// The words ALM and INH, the output MV, and the mode key that was handed in. The mode is always MAN.
#[derive(Clone, Copy, Debug, PartialEq)]
pub struct Fields {
    pub alm: u16,
    pub inh: u16,
    pub mv: f32,
    pub key: ModeKey,
}

impl Fields {
    // The checks of reading, with the word MODE that was found.
    fn check(self, mode: u16) -> Result<(), Cause>
        ensures { result ≡ passed (station_checks self mode) }
    {
        pass(&[
            Check::new(self.key.is_valid(), Cause::OutOfRange(Place::ModeKey)),
            Check::finite(Place::Mv, self.mv),
            Check::new(mode == self.key.word(Mode::Man), Cause::ModeNotCarried),
            Check::within(Place::Mv, self.mv, OUTPUT),
        ])
    }

    // The fields that a block holds, or the first cause for refusing it.
    pub(crate) fn read(words: &[u16], key: ModeKey) -> Result<Fields, Cause>
        ensures { result ≡ checked_of words.now key }
    {
        let fields = Fields {
            alm: word_at(words, Place::Alm),
            inh: word_at(words, Place::Inh),
            mv: real_at(words, Place::Mv),
            key,
        };
        check_length(words)?;
        fields.check(word_at(words, Place::Mode))?;
        Ok(fields)
    }

    // A cold start sets TRKF.
    pub(crate) fn cold(self) -> Fields
        ensures { result ≡ cold_fields self }
    {
        self.put(self.mv)
    }

    // A scan that holds: TRKF set, the three alarms cleared.
    pub(crate) fn hold(self) -> Fields
        ensures { result ≡ held_fields self }
    {
        let alm = alarms_off(self.alm);
        let inh = with_trkf(self.inh);
        Fields { alm, inh, ..self }
    }

    // Another output, and TRKF set.
    pub(crate) fn put(self, p: f32) -> Fields
        ensures { result ≡ put_fields self p }
    {
        Fields {
            inh: with_trkf(self.inh),
            mv: p,
            ..self
        }
    }

    // A mode that is entered: only MAN is carried.
    pub(crate) fn enter_mode(self, mode: Mode) -> Result<Fields, Cause>
        ensures { result ≡ mode_of self mode }
    {
        match mode {
            Mode::Man => Ok(self),
            Mode::Aut | Mode::Cas => Err(Cause::ModeNotCarried),
        }
    }

    // S, which is E2 too: MV brought into 0..100.
    pub(crate) fn percent(self) -> f32
        ensures { result ≡ percent_of self }
    {
        PERCENT.bring(self.mv)
    }
}
