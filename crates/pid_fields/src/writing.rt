// Writing fields into the words of a block.
ghost use Rattle.std.specs.Prelude.{◌≡◌};
ghost use Rattle.block.specs.Words.{fill};
ghost use Rattle.pid_fields.specs.Writing.{state_words, bounds_words, tuning_words, past_words, filled};

use crate::fields::{Bounds, Fields, Past, Tuning};
use block::words::{put_real, put_word};
use terms::place::Place;

impl Bounds {
    fn write(self, words: &mut [u16])
        ensures { words.new ≡ fill (bounds_words self) words.old }
    {
        put_real(words, Place::Mh, self.mh);
        put_real(words, Place::Ml, self.ml);
        put_real(words, Place::Rh, self.rh);
        put_real(words, Place::Rl, self.rl);
    }
}

impl Tuning {
    fn write(self, words: &mut [u16])
        ensures { words.new ≡ fill (tuning_words self) words.old }
    {
        put_real(words, Place::Ct, self.ct);
        put_real(words, Place::Dml, self.dml);
        put_real(words, Place::P, self.p);
        put_real(words, Place::Ti, self.ti);
        put_real(words, Place::Td, self.td);
        put_real(words, Place::Gw, self.gw);
        put_real(words, Place::Gg, self.gg);
    }
}

impl Past {
    fn write(self, words: &mut [u16])
        ensures { words.new ≡ fill (past_words self) words.old }
    {
        put_real(words, Place::Mvp, self.mvp);
        put_real(words, Place::B, self.b);
        put_real(words, Place::Measured, self.measured);
        put_real(words, Place::Measured1, self.measured1);
        put_real(words, Place::Measured2, self.measured2);
        put_real(words, Place::LastDv, self.dv);
    }
}

impl Fields {
    fn write_state(self, words: &mut [u16])
        ensures { words.new ≡ fill (state_words self) words.old }
    {
        put_word(words, Place::Mode, self.settings.key.word(self.mode));
        put_word(words, Place::Alm, self.alm);
        put_word(words, Place::Inh, self.inh);
        put_word(words, Place::Counter, self.counter);
        put_real(words, Place::Mv, self.mv);
        put_real(words, Place::Sv, self.sv);
    }

    /// Fills the named words of a block by the fields; the others stay as found.
    pub fn write(self, words: &mut [u16])
        ensures { words.new ≡ filled self words.old }
    {
        self.write_state(words);
        self.bounds.write(words);
        self.tuning.write(words);
        self.past.write(words);
        put_real(words, Place::Dv, self.past.dv);
    }
}
