// A loop into the words of a block, and the round trips: a block through a loop, and a loop through a block.
ghost use Rattle.std.specs.Prelude.{◌≡◌};
ghost use Rattle.block.specs.Checks.{at_top, done, write_answer};
ghost use Rattle.block.specs.declared.start.Start.TheVariants.{Warm};
ghost use Rattle.loops.specs.Outcomes.{after, where_whole, seen};

use crate::kind::Kind;
use crate::reading::Block;
use crate::running::Loop;
use block::checks::check_length;
use terms::refusal::Refusal;

impl<K: Kind> Loop<K> {
    /// The settings that stand in the loop's state, as its kind defines them.
    pub fn settings(&self) -> K::Settings
        ensures { result ≡ K.settings_of self.now.state }
    {
        K::settings(self.state)
    }

    /// Writes the loop into 128 words: the named words are filled, and the others stay as found.
    pub fn write(&self, words: &mut [u16]) -> Result<(), Refusal>
        ensures answer { result ≡ write_answer words.old }
        ensures words { words.new ≡ where_whole words.old (K.filled self.now.state words.old) words.old }
    {
        check_length(words)?;
        K::fill(words, self.state);
        Ok(())
    }

    // The loop of a block, started warm.
    fn read_warm(words: &[u16], settings: K::Settings) -> Result<Loop<K>, Refusal>
        ensures { seen (λ warm. warm.state) result ≡ at_top (seen (K.started Warm) (K.checked words.now settings)) }
    {
        let block = Block::<K>::read(words, settings)?;
        Ok(block.warm_start())
    }

    // Reads words with the loop's own settings and starts them warm.
    fn read_again(&mut self, words: &[u16]) -> Result<(), Refusal>
        ensures answers { result ≡ at_top (done (K.checked words.now (K.settings_of self.old.state))) }
        ensures leaves { self.new.state ≡ after self.old.state (seen (K.started Warm) (K.checked words.now (K.settings_of self.old.state))) }
    {
        *self = Loop::read_warm(words, self.settings())?;
        Ok(())
    }

    /// Writes the loop into words, reads them with the loop's own settings and starts them warm. It is the same loop then, started warm.
    pub fn restart(&mut self, words: &mut [u16]) -> Result<(), Refusal>
        ensures answer { result ≡ write_answer words.old }
        ensures words { words.new ≡ where_whole words.old (K.filled self.old.state words.old) words.old }
        ensures state { self.new.state ≡ K.restarted self.old.state words.old }
    {
        self.write(words)?;
        self.read_again(words)
    }
}

/// Reads a block, starts it warm and writes it back over itself.
pub fn write_back<K: Kind>(words: &mut [u16], settings: K::Settings) -> Result<(), Refusal>
    ensures answer { result ≡ at_top (done (K.checked words.old settings)) }
    ensures words { words.new ≡ K.rewritten (K.checked words.old settings) words.old }
{
    Loop::<K>::read_warm(words, settings)?.write(words)
}
