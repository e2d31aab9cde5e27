// An operator's entry to a PID loop.
ghost use Rattle.std.specs.Prelude.{◌≡◌};
ghost use Rattle.block.specs.Checks.{passed};
ghost use Rattle.pid_steps.specs.Entering.{setpoint_checks, output_checks, limits_checks, entry_checks, with_limits, entered_fields, entry_of};

use crate::scanning::put_output;
use block::bits::{with_spa, without_spa};
use block::checks::{Check, pass};
use loops::inputs::check_percent;
use pid_fields::fields::{Bounds, Fields, Tuning};
use reals::numbers::{OUTPUT, PERCENT};
use terms::entry::{Entry, Limits};
use terms::place::Place;
use terms::refusal::Cause;
use terms::refusal::Cause::NotAllowed;

fn check_setpoint(f: Fields, v: f32) -> Result<(), Cause>
    ensures { result ≡ passed (setpoint_checks f v) }
{
    if f.mode.is_cascade() {
        return Err(NotAllowed(Place::Sv));
    }
    pass(&[
        Check::finite(Place::Sv, v),
        Check::within(Place::Sv, v, f.bounds.measuring()),
    ])
}

fn check_output(f: Fields, v: f32) -> Result<(), Cause>
    ensures { result ≡ passed (output_checks f v) }
{
    if !f.mode.is_manual() {
        return Err(NotAllowed(Place::Mv));
    }
    check_percent(Place::Mv, v)
}

fn check_limits(limits: Limits) -> Result<(), Cause>
    ensures { result ≡ passed (limits_checks limits) }
{
    let Limits { mh, ml, dml } = limits;
    pass(&[
        Check::finite(Place::Mh, mh),
        Check::finite(Place::Ml, ml),
        Check::finite(Place::Dml, dml),
        Check::within(Place::Mh, mh, OUTPUT),
        Check::within(Place::Ml, ml, OUTPUT),
        Check::within(Place::Dml, dml, PERCENT),
        Check::new(ml <= mh, Cause::LimitsCrossed),
    ])
}

fn check_entry(f: Fields, entry: Entry) -> Result<(), Cause>
    ensures { result ≡ passed (entry_checks f entry) }
{
    match entry {
        Entry::Setpoint(v) => check_setpoint(f, v),
        Entry::Output(v) => check_output(f, v),
        Entry::Limits(limits) => check_limits(limits),
        Entry::Mode(_) | Entry::Stop | Entry::Run => Ok(()),
    }
}

// The fields with other limits.
fn put_limits(f: Fields, limits: Limits) -> Fields
    ensures { result ≡ with_limits f limits }
{
    let Limits { mh, ml, dml } = limits;
    Fields {
        bounds: Bounds { mh, ml, ..f.bounds },
        tuning: Tuning { dml, ..f.tuning },
        ..f
    }
}

// The fields after an accepted entry.
fn put_entry(f: Fields, entry: Entry) -> Fields
    ensures { result ≡ entered_fields f entry }
{
    match entry {
        Entry::Mode(mode) => Fields { mode, ..f },
        Entry::Setpoint(sv) => Fields { sv, ..f },
        Entry::Output(mv) => put_output(f, mv),
        Entry::Limits(limits) => put_limits(f, limits),
        Entry::Stop => Fields {
            alm: with_spa(f.alm),
            ..f
        },
        Entry::Run => Fields {
            alm: without_spa(f.alm),
            ..f
        },
    }
}

/// An entry: the first cause for refusing it, or the fields after it.
pub fn enter_fields(f: Fields, entry: Entry) -> Result<Fields, Cause>
    ensures { result ≡ entry_of f entry }
{
    check_entry(f, entry)?;
    Ok(put_entry(f, entry))
}
