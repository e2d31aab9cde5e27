// The hand station as a kind of loop: it sends the output that an operator enters.
ghost use Rattle.std.specs.Prelude.{true, refl};
ghost use Rattle.hand.specs.Checks.{good};
ghost use Rattle.hand.specs.Reading.{checked_of};
ghost use Rattle.hand.specs.Starting.{started_fields};
ghost use Rattle.hand.specs.Writing.{filled};
ghost use Rattle.hand.specs.Scanning.{scan_of, follow_of, entry_of, told_of_fields};
ghost use Rattle.hand.specs.Laws as laws;
ghost use Rattle.hand.specs.Trips as trips;

use crate::fields::Fields;
use block::bits::{is_stopped, is_tracking, with_spa, without_spa};
use block::key::ModeKey;
use block::start::Start;
use block::words::{put_real, put_word};
use loops::inputs::{check_inputs, check_percent};
use loops::kind::Kind;
use reals::numbers::{BOTTOM, TOP, ZERO};
use terms::entry::Entry;
use terms::mode::Mode;
use terms::place::Place;
use terms::refusal::Cause;
use terms::told::Told;

/// The hand station. Its mode is always MAN, so it always holds; its S and its E2 are its MV brought into 0..100, so it keeps neither.
pub enum Hand {}

impl Kind for Hand {
    type State = Fields;

    type Settings = ModeKey;

    ghost good = { good };

    ghost checked = { checked_of };

    ghost settings_of = { λ f. f.key };

    ghost started = { started_fields };

    ghost filled = { filled };

    ghost rewritten = { λ o ws. ws };

    ghost restarted = { λ f ws. f };

    ghost told = { told_of_fields };

    ghost alarms = { λ f. f.alm };

    ghost echo = { true };

    ghost scanned = { scan_of };

    ghost followed = { follow_of };

    ghost entered = { entry_of };

    ghost starts_good = { laws.starts_good };

    ghost scans_good = { laws.scans_good };

    ghost follows_good = { laws.follow_keeps };

    ghost enters_good = { laws.enters_good };

    ghost rewrites = { trips.rewrites };

    ghost rereads = { trips.rereads };

    ghost stays = { λ c ws. refl };

    ghost restarts = { trips.restarts };

    ghost warm_again = { λ f. refl };

    ghost ranges = { laws.ranges };

    ghost echoes = { laws.echoes };

    ghost follows = { laws.follows };

    ghost follow_means = { laws.follow_means };

    ghost declines = { laws.declines };

    ghost scans = { laws.scans };

    ghost enters = { laws.enters };

    fn read(words: &[u16], key: ModeKey) -> Result<Fields, Cause> {
        Fields::read(words, key)
    }

    fn settings(fields: Fields) -> ModeKey {
        fields.key
    }

    fn start(fields: Fields, start: Start) -> Fields {
        match start {
            Start::Cold => fields.cold(),
            Start::Warm => fields,
        }
    }

    fn fill(words: &mut [u16], fields: Fields) {
        put_word(words, Place::Mode, fields.key.word(Mode::Man));
        put_word(words, Place::Alm, fields.alm);
        put_word(words, Place::Inh, fields.inh);
        put_real(words, Place::Mv, fields.mv);
    }

    // In MAN, with the widest limits and a setpoint that goes with the output.
    fn tell(fields: Fields) -> Told {
        let s = fields.percent();
        Told {
            mode: Mode::Man,
            stopped: is_stopped(fields.alm),
            tracking: is_tracking(fields.inh),
            mv: fields.mv,
            ml: BOTTOM,
            mh: TOP,
            dml: ZERO,
            e2: s,
            s,
        }
    }

    fn answer(fields: Fields) -> (f32, u16) {
        (fields.mv, fields.alm)
    }

    // A scan checks what it is handed, and then holds.
    fn scan(fields: Fields, m: f32, remote: Option<f32>) -> Result<Fields, Cause> {
        check_inputs(m, remote)?;
        Ok(fields.hold())
    }

    fn follow(fields: Fields, p: f32) -> Result<Fields, Cause> {
        check_percent(Place::Mv, p)?;
        Ok(fields.put(p))
    }

    // MAN, an output, stop and run are taken, and all else is refused.
    fn enter(fields: Fields, entry: Entry) -> Result<Fields, Cause> {
        match entry {
            Entry::Mode(mode) => fields.enter_mode(mode),
            Entry::Setpoint(_) => Err(Cause::NotAllowed(Place::Sv)),
            Entry::Output(v) => Hand::follow(fields, v),
            Entry::Limits(_) => Err(Cause::NotAllowed(Place::Mh)),
            Entry::Stop => Ok(Fields {
                alm: with_spa(fields.alm),
                ..fields
            }),
            Entry::Run => Ok(Fields {
                alm: without_spa(fields.alm),
                ..fields
            }),
        }
    }
}
