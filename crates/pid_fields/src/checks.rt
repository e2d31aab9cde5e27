// The checks of a block's values, each table in the order of reading.
ghost use Rattle.std.specs.Prelude.{◌≡◌};
ghost use Rattle.block.specs.Checks.{passed};
ghost use Rattle.pid_fields.specs.Checks.{periods as periods_of, period_ok, settings_checks, finite_checks, range_checks, relation_checks};

use crate::fields::{Fields, Settings};
use block::checks::{Check, pass};
use reals::numbers::{LONGEST, MOST, NARROWEST, NON_NEGATIVE, OUTPUT, PERCENT, TYPED, ZERO};
use std::num::saturating_f32_to_u16;
use terms::place::Place;
use terms::refusal::Cause;

/// N, the number of scans in a control period: the whole part of CT ÷ ΔT, or 1 where that is below 1.
pub fn periods(ct: f32, dt: f32) -> u16
    ensures { result ≡ periods_of ct dt }
{
    saturating_f32_to_u16(ct / dt).max(1)
}

fn is_scan_period(dt: f32) -> bool
    ensures { result ≡ period_ok dt }
{
    ZERO < dt && dt <= MOST
}

impl Settings {
    pub(crate) fn check(self) -> Result<(), Cause>
        ensures { result ≡ passed (settings_checks self) }
    {
        pass(&[
            Check::new(self.key.is_valid(), Cause::OutOfRange(Place::ModeKey)),
            Check::finite(Place::ScanPeriod, self.dt),
            Check::new(
                is_scan_period(self.dt),
                Cause::OutOfRange(Place::ScanPeriod),
            ),
            Check::finite(Place::Md, self.md),
            Check::within(Place::Md, self.md, NON_NEGATIVE),
            Check::new(self.pn <= 1, Cause::OutOfRange(Place::Pn)),
        ])
    }
}

impl Fields {
    pub(crate) fn check_finite(self) -> Result<(), Cause>
        ensures { result ≡ passed (finite_checks self) }
    {
        let b = self.bounds;
        let t = self.tuning;
        let past = self.past;
        pass(&[
            Check::finite(Place::Mv, self.mv),
            Check::finite(Place::Sv, self.sv),
            Check::finite(Place::Mh, b.mh),
            Check::finite(Place::Ml, b.ml),
            Check::finite(Place::Rh, b.rh),
            Check::finite(Place::Rl, b.rl),
            Check::finite(Place::Ct, t.ct),
            Check::finite(Place::Dml, t.dml),
            Check::finite(Place::P, t.p),
            Check::finite(Place::Ti, t.ti),
            Check::finite(Place::Td, t.td),
            Check::finite(Place::Gw, t.gw),
            Check::finite(Place::Gg, t.gg),
            Check::finite(Place::Mvp, past.mvp),
            Check::finite(Place::B, past.b),
            Check::finite(Place::Measured, past.measured),
            Check::finite(Place::Measured1, past.measured1),
            Check::finite(Place::Measured2, past.measured2),
            Check::finite(Place::LastDv, past.dv),
        ])
    }

    pub(crate) fn check_ranges(self) -> Result<(), Cause>
        ensures { result ≡ passed (range_checks self) }
    {
        let b = self.bounds;
        let t = self.tuning;
        pass(&[
            Check::within(Place::Mv, self.mv, OUTPUT),
            Check::within(Place::Mh, b.mh, OUTPUT),
            Check::within(Place::Ml, b.ml, OUTPUT),
            Check::within(Place::Rh, b.rh, TYPED),
            Check::within(Place::Rl, b.rl, TYPED),
            Check::within(Place::Ct, t.ct, NON_NEGATIVE),
            Check::within(Place::Dml, t.dml, PERCENT),
            Check::within(Place::P, t.p, NON_NEGATIVE),
            Check::within(Place::Ti, t.ti, NON_NEGATIVE),
            Check::within(Place::Td, t.td, NON_NEGATIVE),
            Check::within(Place::Gw, t.gw, PERCENT),
            Check::within(Place::Gg, t.gg, NON_NEGATIVE),
        ])
    }

    pub(crate) fn check_relations(self) -> Result<(), Cause>
        ensures { result ≡ passed (relation_checks self) }
    {
        let b = self.bounds;
        let ct = self.tuning.ct;
        let dt = self.settings.dt;
        pass(&[
            Check::new(b.ml <= b.mh, Cause::LimitsCrossed),
            Check::new(NARROWEST <= b.rh - b.rl, Cause::SpanTooSmall),
            Check::new(ct / dt <= LONGEST, Cause::PeriodTooLong),
            Check::within(Place::Sv, self.sv, b.measuring()),
            Check::new(
                self.counter < periods(ct, dt),
                Cause::OutOfRange(Place::Counter),
            ),
        ])
    }
}
