// The PID loop as a kind of loop.
ghost use Rattle.std.specs.Prelude.{false, refl};
ghost use Rattle.pid_fields.specs.Writing.{filled};
ghost use Rattle.pid_meaning.specs.Telling.{told_state};
ghost use Rattle.pid.specs.RoundTrips.{same_block, restarted_state};
ghost use Rattle.pid.specs.Kind.{good_state, checked_state, started_state, scanned_state, followed_state, entered_state};
ghost use Rattle.pid.specs.Laws as laws;

use crate::starting::{aimed, cold};
use block::start::Start;
use loops::kind::Kind;
use pid_fields::fields::{Fields, Settings};
use pid_meaning::telling::tell_state;
use pid_steps::entering::enter_fields;
use pid_steps::scanning::{State, follow_fields, scan_fields};
use terms::entry::Entry;
use terms::refusal::Cause;
use terms::told::Told;

/// The PID loop. Its state is the fields of its block, and E2: a remote value in cascade, and otherwise its own setpoint in percent.
pub enum Pid {}

impl Kind for Pid {
    type State = State;

    type Settings = Settings;

    ghost good = { good_state };

    ghost checked = { checked_state };

    ghost settings_of = { λ s. s.fields.settings };

    ghost started = { started_state };

    ghost filled = { λ s. filled s.fields };

    ghost rewritten = { same_block };

    ghost restarted = { restarted_state };

    ghost told = { told_state };

    ghost alarms = { λ s. s.fields.alm };

    ghost echo = { false };

    ghost scanned = { scanned_state };

    ghost followed = { followed_state };

    ghost entered = { entered_state };

    ghost starts_good = { laws.starts_good };

    ghost scans_good = { laws.scans_good };

    ghost follows_good = { laws.follows_good };

    ghost enters_good = { laws.enters_good };

    ghost rewrites = { laws.rewrites };

    ghost rereads = { laws.rereads };

    ghost stays = { λ c ws. refl };

    ghost restarts = { laws.restarts };

    ghost warm_again = { λ s. refl };

    ghost ranges = { laws.ranges };

    ghost echoes = { λ s t. tt };

    ghost follows = { laws.follows };

    ghost follow_means = { laws.follow_means };

    ghost declines = { laws.declines };

    ghost scans = { laws.scans };

    ghost enters = { laws.enters };

    fn read(words: &[u16], settings: Settings) -> Result<State, Cause> {
        let fields = Fields::read(words, settings)?;
        Ok(aimed(fields))
    }

    fn settings(state: State) -> Settings {
        state.fields.settings
    }

    fn start(state: State, start: Start) -> State {
        match start {
            Start::Cold => aimed(cold(state.fields)),
            Start::Warm => aimed(state.fields),
        }
    }

    fn fill(words: &mut [u16], state: State) {
        state.fields.write(words);
    }

    fn tell(state: State) -> Told {
        tell_state(state)
    }

    fn answer(state: State) -> (f32, u16) {
        (state.fields.mv, state.fields.alm)
    }

    fn scan(state: State, m: f32, remote: Option<f32>) -> Result<State, Cause> {
        scan_fields(state.fields, m, remote)
    }

    fn follow(state: State, p: f32) -> Result<State, Cause> {
        // By `match`: by `?`, which copies the fields twice more, a follow took half as long again, and by `map` no less.
        match follow_fields(state.fields, p) {
            Ok(fields) => Ok(State { fields, ..state }),
            Err(cause) => Err(cause),
        }
    }

    fn enter(state: State, entry: Entry) -> Result<State, Cause> {
        let fields = enter_fields(state.fields, entry)?;
        Ok(State { fields, ..state })
    }
}
