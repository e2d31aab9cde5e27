// A block that was read, and how it is started.
ghost use Rattle.std.specs.Prelude.{◌≡◌, T};
ghost use Rattle.block.specs.Checks.{at_top};
ghost use Rattle.block.specs.declared.start.Start.TheVariants.{Cold, Warm};
ghost use Rattle.loops.specs.Outcomes.{seen};

use crate::kind::Kind;
use crate::running::Loop;
use block::start::Start;
use terms::refusal::Refusal;

/// A block of a kind that was read and is not started yet. It is not copied, and it is good by its type.
#[derive(Drop)]
pub struct Block<K: Kind> {
    pub(crate) state: K::State,
    ghost ok: { T (K.good state) },
}

impl<K: Kind> Block<K> {
    /// Reads a block: the first refusal in the order of the checks, or the block with what its words hold.
    pub fn read(words: &[u16], settings: K::Settings) -> Result<Block<K>, Refusal>
        ensures { seen (λ block. block.state) result ≡ at_top (K.checked words.now settings) }
    {
        let state = K::read(words, settings)?;
        Ok(Block { state })
    }

    fn start(self, start: Start) -> Loop<K>
        ensures { result.state ≡ K.started start self.state }
    {
        Loop {
            state: K::start(self.state, start),
        }
    }

    /// Starts the loop with its past values at zero and TRKF set.
    pub fn cold_start(self) -> Loop<K>
        ensures { result.state ≡ K.started Cold self.state }
    {
        self.start(Start::Cold)
    }

    /// Starts the loop as it was read.
    pub fn warm_start(self) -> Loop<K>
        ensures { result.state ≡ K.started Warm self.state }
    {
        self.start(Start::Warm)
    }
}
