// A loop at work: what it tells, and the calls that change it.
ghost use Rattle.std.specs.Prelude.{◌≡◌, T, Ok, Err, IfOk};
ghost use Rattle.terms.specs.Refusals.{refused};
ghost use Rattle.block.specs.Checks.{at_top, done};
ghost use Rattle.reals.specs.Numbers.{zero, hundred, bottom, top};
ghost use Rattle.reals.specs.Reals.{inside, Within};
ghost use Rattle.loops.specs.Inputs.{no_percent};
ghost use Rattle.loops.specs.Meaning.{Ranges, Echoes, Followed, Scanned, Entered};
ghost use Rattle.loops.specs.Outcomes.{after, answer};

use crate::kind::Kind;
use crate::settling::settle;
use terms::entry::Entry;
use terms::refusal::Refusal;
use terms::told::Told;

/// A loop of a kind. It is not copied, and it is good by its type.
#[derive(Drop)]
pub struct Loop<K: Kind> {
    pub(crate) state: K::State,
    ghost ok: { T (K.good state) },
}

impl<K: Kind> Loop<K> {
    /// What the loop tells. Asking changes nothing.
    pub fn tell(&self) -> Told
        ensures told { result ≡ K.told self.now.state }
        ensures ranges { Ranges result }
        ensures echoes { Echoes K.echo result }
    {
        K::tell(self.state)
    }

    /// S, the setpoint in percent. It lies in 0..100.
    #[tactic(auto, using(block::proofs::Passing::in_range))]
    pub fn percent(&self) -> f32
        ensures value { result ≡ (K.told self.now.state).s }
        ensures range { T (inside zero hundred result) }
    {
        self.tell().s
    }

    /// E2, the setpoint in percent that the loop last worked with.
    pub fn e2(&self) -> f32
        ensures { result ≡ (K.told self.now.state).e2 }
    {
        self.tell().e2
    }

    /// A trial: what a scan with the same inputs would answer. Trying changes nothing.
    pub fn trial(&self, m: f32, remote: Option<f32>) -> Result<(f32, u16), Refusal>
        ensures { result ≡ at_top (answer K.told K.alarms (K.scanned self.now.state m remote)) }
    {
        let next = K::scan(self.state, m, remote)?;
        Ok(K::answer(next))
    }

    /// A scan, with a measured value and perhaps a remote value, both in percent. It answers MV and ALM.
    pub fn scan(&mut self, m: f32, remote: Option<f32>) -> Result<(f32, u16), Refusal>
        ensures answers { result ≡ at_top (answer K.told K.alarms (K.scanned self.old.state m remote)) }
        ensures leaves { self.new.state ≡ after self.old.state (K.scanned self.old.state m remote) }
        ensures means { IfOk result (λ _. Scanned K.echo remote (K.told self.old.state) (K.told self.new.state)) }
    {
        let outcome = K::scan(self.state, m, remote);
        settle(&mut self.state, outcome)?;
        Ok(K::answer(self.state))
    }

    /// A follow: the loop takes p for its MV, and begins from there when it next drives. A p in −10..110 is taken, and no other.
    pub fn follow(&mut self, p: f32) -> Result<(), Refusal>
        ensures answers { result ≡ at_top (done (K.followed self.old.state p)) }
        ensures leaves { self.new.state ≡ after self.old.state (K.followed self.old.state p) }
        ensures takes { Within p bottom top → result ≡ Ok tt }
        ensures declines { (Within p bottom top → ⊥) → result ≡ Err (refused (no_percent p)) }
        ensures means { IfOk result (λ _. Followed K.echo p (K.told self.old.state) (K.told self.new.state)) }
    {
        let outcome = K::follow(self.state, p);
        settle(&mut self.state, outcome)
    }

    /// An operator's entry.
    pub fn enter(&mut self, entry: Entry) -> Result<(), Refusal>
        ensures answers { result ≡ at_top (done (K.entered self.old.state entry)) }
        ensures leaves { self.new.state ≡ after self.old.state (K.entered self.old.state entry) }
        ensures means { IfOk result (λ _. Entered K.echo entry (K.told self.old.state) (K.told self.new.state)) }
    {
        let outcome = K::enter(self.state, entry);
        settle(&mut self.state, outcome)
    }
}
