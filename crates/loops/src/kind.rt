// A kind of loop: what its calls come to, over plain states, and the laws that it keeps.
ghost use Rattle.std.specs.Prelude.{◌≡◌, ℕ, Bool, List, length, T, Ok, Err, Option, Result, Float, IfOk};
ghost use Rattle.std.specs.Float.Ieee.{fits};
ghost use Rattle.std.specs.Float.{binary32};
ghost use Rattle.terms.specs.declared.told.Told.{Told};
ghost use Rattle.terms.specs.declared.entry.Entry.{Entry};
ghost use Rattle.terms.specs.declared.refusal.Cause.{Cause};
ghost use Rattle.block.specs.declared.start.Start.{Start};
ghost use Rattle.block.specs.declared.start.Start.TheVariants.{Warm};
ghost use Rattle.block.specs.Words.{block_length, Sixteen};
ghost use Rattle.reals.specs.Numbers.{bottom, top};
ghost use Rattle.reals.specs.Reals.{Within};
ghost use Rattle.loops.specs.Inputs.{no_percent, RemoteHeld, EntryHeld};
ghost use Rattle.loops.specs.Meaning.{Ranges, Echoes, Followed, Scanned, Entered};
ghost use Rattle.loops.specs.Outcomes.{told_answer, where_whole};

use block::start::Start;
use terms::entry::Entry;
use terms::refusal::Cause;
use terms::told::Told;

/// A kind of loop, as functions of plain states: each call comes to the state that it leaves, or to the cause by which it is refused. A kind refuses where its
/// outcomes say so and nowhere else. The laws are stated over what a loop tells, so they bind every kind alike.
pub trait Kind {
    /// What a loop of this kind holds, as plain values.
    type State: Copy;

    /// What is handed in beside the words of a block.
    type Settings: Copy;

    // whether a state passes every check that reading makes, with reals that binary32 holds: the states of loops
    ghost good: { Self.State → Bool };

    // what reading comes to
    ghost checked: { List ℕ → Self.Settings → Result Self.State Cause };

    ghost settings_of: { Self.State → Self.Settings };

    ghost started: { Start → Self.State → Self.State };

    // words with those filled that a loop of this state writes
    ghost filled: { Self.State → List ℕ → List ℕ };

    // words after a write back, by what reading came to
    ghost rewritten: { Result Self.State Cause → List ℕ → List ℕ };

    // the state after a restart through words
    ghost restarted: { Self.State → List ℕ → Self.State };

    ghost told: { Self.State → Told };

    // the word ALM
    ghost alarms: { Self.State → ℕ };

    // whether the S of this kind is its MV brought into 0..100
    ghost echo: { Bool };

    ghost scanned: { Self.State → Float → Option Float → Result Self.State Cause };

    ghost followed: { Self.State → Float → Result Self.State Cause };

    ghost entered: { Self.State → Entry → Result Self.State Cause };

    /// The state that a block holds, or the first cause for refusing it. What is read is good.
    fn read(words: &[u16], settings: Self::Settings) -> Result<Self::State, Cause>
        ensures outcome { result ≡ checked words.now settings }
        ensures is_good { IfOk result (λ s. T (good s)) };

    /// The settings that stand in a state.
    fn settings(state: Self::State) -> Self::Settings
        ensures { result ≡ settings_of state };

    /// The state of a loop that is started from what was read.
    fn start(state: Self::State, start: Start) -> Self::State
        ensures { result ≡ started start state };

    /// Fills the named words of a block; the others stay as found.
    fn fill(words: &mut [u16], state: Self::State)
        ensures { words.new ≡ filled state words.old };

    /// What a loop of this state tells.
    fn tell(state: Self::State) -> Told
        ensures { result ≡ told state };

    /// What a scan that leaves this state answers: MV and ALM.
    fn answer(state: Self::State) -> (f32, u16)
        ensures { result ≡ told_answer told alarms state };

    /// The state after a scan.
    fn scan(state: Self::State, m: f32, remote: Option<f32>) -> Result<Self::State, Cause>
        ensures { result ≡ scanned state m remote };

    /// The state after a follow.
    fn follow(state: Self::State, p: f32) -> Result<Self::State, Cause>
        ensures { result ≡ followed state p };

    /// The state after an operator's entry.
    fn enter(state: Self::State, entry: Entry) -> Result<Self::State, Cause>
        ensures { result ≡ entered state entry };

    // ---- what a call leaves is good again

    ghost starts_good: { (how : Start) (s : Self.State) → T (good s) → T (good (started how s)) };

    ghost scans_good: { (s t : Self.State) (m : Float) (r : Option Float) → T (good s) → T (fits binary32 m) → RemoteHeld r → scanned s m r ≡ Ok t → T (good t) };

    ghost follows_good: { (s t : Self.State) (p : Float) → T (good s) → T (fits binary32 p) → followed s p ≡ Ok t → T (good t) };

    ghost enters_good: { (s t : Self.State) (e : Entry) → T (good s) → EntryHeld e → entered s e ≡ Ok t → T (good t) };

    // ---- round trips

    // words that are read are 128, and written over from a warm start they are the rewritten ones; refused, they stay
    ghost rewrites: { (ws : List ℕ) (st : Self.Settings) (s : Self.State) → Sixteen ws → checked ws st ≡ Ok s → (length ws ≡ block_length) × (filled (started Warm s) ws ≡ rewritten (Ok s) ws) };

    ghost stays: { (c : Cause) (ws : List ℕ) → rewritten (Err c) ws ≡ ws };

    // what is written is read again as the state of a warm start
    ghost rereads: { (s : Self.State) (ws : List ℕ) → T (good s) → length ws ≡ block_length → checked (filled s ws) (settings_of s) ≡ Ok (started Warm s) };

    // a restart is a warm start of the loop, where the words are 128; a warm start of what a warm start left changes nothing
    ghost restarts: { (s : Self.State) (ws : List ℕ) → restarted s ws ≡ where_whole ws (started Warm s) s };

    ghost warm_again: { (s : Self.State) → started Warm (started Warm s) ≡ started Warm s };

    // ---- what a loop tells

    // What a loop tells lies in its ranges.
    ghost ranges: { (s : Self.State) → T (good s) → Ranges (told s) };

    // A kind whose S is its MV brought into 0..100 keeps it so.
    ghost echoes: { (s : Self.State) → T (good s) → Echoes echo (told s) };

    // A follow of a p in −10..110 is taken.
    ghost follows: { (s : Self.State) (p : Float) → T (good s) → T (fits binary32 p) → Within p bottom top → (t : Self.State) × (followed s p ≡ Ok t) × Followed echo p (told s) (told t) };

    // What an accepted follow does.
    ghost follow_means: { (s t : Self.State) (p : Float) → T (good s) → followed s p ≡ Ok t → Followed echo p (told s) (told t) };

    // Any other p is refused: not finite, or out of range, at MV.
    ghost declines: { (s : Self.State) (p : Float) → (Within p bottom top → ⊥) → followed s p ≡ Err (no_percent p) };

    // What an accepted scan does.
    ghost scans: { (s t : Self.State) (m : Float) (r : Option Float) → T (good s) → scanned s m r ≡ Ok t → Scanned echo r (told s) (told t) };

    // What an accepted entry does.
    ghost enters: { (s t : Self.State) (e : Entry) → T (good s) → entered s e ≡ Ok t → Entered echo e (told s) (told t) };
}
