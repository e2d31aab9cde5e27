// Bits of the words ALM and INH.
ghost use Rattle.std.specs.Prelude.{◌≡◌};
ghost use Rattle.block.specs.Bits.{stopped, with_spa, without_spa, tracking, with_trkf, without_trkf, alarm_bit, alarms_off, alarms_made};

// ALM: SPA, the loop is stopped; DMLA, the step was limited; MHA and MLA, the output was limited to its maximum or minimum.
const SPA: u16 = 0x4000;

const DMLA: u16 = 0x0800;

const MHA: u16 = 0x0002;

const MLA: u16 = 0x0001;

// Every bit of ALM but the three alarms.
const OTHERS: u16 = !(DMLA | MHA | MLA);

// INH: ERRI inhibits every alarm, and an alarm's own bit that alarm.
const ERRI: u16 = 0x8000;

// TRKF, bit 13 of INH: the next scan that drives begins from the output as it stands.
const TRKF: u16 = 0x2000;

/// The alarms that a scan finds.
#[derive(Clone, Copy, Debug, PartialEq, Eq)]
pub struct Alarms {
    pub dmla: bool,
    pub mha: bool,
    pub mla: bool,
}

/// Whether ALM has SPA.
pub fn is_stopped(alm: u16) -> bool
    ensures { result ≡ stopped alm }
{
    alm & SPA != 0
}

/// ALM with SPA set.
pub fn with_spa(alm: u16) -> u16
    ensures { result ≡ with_spa alm }
{
    alm | SPA
}

/// ALM with SPA cleared.
pub fn without_spa(alm: u16) -> u16
    ensures { result ≡ without_spa alm }
{
    alm & !SPA
}

/// Whether INH has TRKF.
pub fn is_tracking(inh: u16) -> bool
    ensures { result ≡ tracking inh }
{
    inh & TRKF != 0
}

/// INH with TRKF set.
pub fn with_trkf(inh: u16) -> u16
    ensures { result ≡ with_trkf inh }
{
    inh | TRKF
}

/// INH with TRKF cleared.
pub fn without_trkf(inh: u16) -> u16
    ensures { result ≡ without_trkf inh }
{
    inh & !TRKF
}

// An alarm's bit where the alarm is found and neither its own bit of INH nor ERRI inhibits it.
fn alarm_bit(found: bool, inh: u16, bit: u16) -> u16
    ensures { result ≡ alarm_bit found inh bit }
{
    if found && inh & (ERRI | bit) == 0 {
        bit
    } else {
        0
    }
}

/// ALM with the three alarms cleared.
pub fn alarms_off(alm: u16) -> u16
    ensures { result ≡ alarms_off alm }
{
    alm & OTHERS
}

/// ALM with the three alarms made anew; every other bit stays.
pub fn alarms_made(alm: u16, inh: u16, a: Alarms) -> u16
    ensures { result ≡ alarms_made alm inh a }
{
    alarms_off(alm)
        | alarm_bit(a.dmla, inh, DMLA)
        | alarm_bit(a.mha, inh, MHA)
        | alarm_bit(a.mla, inh, MLA)
}
