// A short shift at one PID loop: entries and scans, each printed with its answer.
#![tactic(auto)]

use loops::reading::Block;
use loops::running::Loop;
use pid::kind::Pid;
use standard::{standard_settings, standard_words};
use std::{fmt, io};
use terms::entry::{Entry, Limits};
use terms::mode::Mode;
use terms::refusal::Refusal;

// What is done to the loop: an entry, or a scan of a measured value and perhaps a remote value.
#[derive(Clone, Copy, Debug)]
enum Act {
    Enter(Entry),
    Scan(f32, Option<f32>),
}

impl Act {
    // Does the act; a scan answers MV and ALM.
    fn perform(self, pid: &mut Loop<Pid>) -> Result<Option<(f32, u16)>, Refusal> {
        match self {
            Act::Enter(entry) => {
                pid.enter(entry)?;
                Ok(None)
            }
            Act::Scan(m, remote) => Ok(Some(pid.scan(m, remote)?)),
        }
    }
}

impl fmt::Display for Act {
    fn fmt<W: fmt::Write>(&self, f: &mut fmt::Formatter<W>) -> fmt::Result {
        match self {
            Act::Enter(entry) => write!(f, "{entry}"),
            Act::Scan(m, None) => write!(f, "scan {m}"),
            Act::Scan(m, Some(remote)) => write!(f, "scan {m}, remote value {remote}"),
        }
    }
}

// Limits that the output soon meets.
const NARROW: Limits = Limits {
    mh: 8.0,
    ml: 0.0,
    dml: 2.0,
};

// Limits with ML above MH.
const CROSSED: Limits = Limits {
    mh: 0.0,
    ml: 8.0,
    dml: 2.0,
};

const SHIFT: [Act; 20] = [
    Act::Scan(50.0, None),
    Act::Enter(Entry::Run),
    Act::Enter(Entry::Mode(Mode::Aut)),
    Act::Enter(Entry::Setpoint(60.0)),
    Act::Scan(50.0, None),
    Act::Scan(50.0, None),
    Act::Scan(45.0, None),
    Act::Enter(Entry::Limits(NARROW)),
    Act::Scan(40.0, None),
    Act::Scan(40.0, None),
    Act::Enter(Entry::Output(20.0)),
    Act::Enter(Entry::Mode(Mode::Cas)),
    Act::Scan(40.0, Some(30.0)),
    Act::Enter(Entry::Setpoint(70.0)),
    Act::Enter(Entry::Stop),
    Act::Scan(40.0, None),
    Act::Enter(Entry::Output(20.0)),
    Act::Scan(120.0, None),
    Act::Enter(Entry::Limits(CROSSED)),
    Act::Scan(40.0, None),
];

// Does an act, and prints it with its answer. A width pads text only, so the act is made text first, in place: the shift takes no memory from the heap.
fn show_act(rt: &impl Print, pid: &mut Loop<Pid>, act: Act) -> io::Result<()> {
    let text = fmt::InlineText::<64>::of(act);
    let says = text.as_str();
    match act.perform(pid) {
        Ok(None) => println!(rt; "{says:<26}ok"),
        Ok(Some((mv, alm))) => println!(rt; "{says:<26}ok, MV {mv}, ALM {alm:04X}"),
        Err(refusal) => println!(rt; "{says:<26}{refusal}"),
    }
}

fn show_told(rt: &impl Print, pid: &Loop<Pid>) -> io::Result<()> {
    let told = pid.tell();
    println!(rt;
        "it tells: {}, MV {}, S {}, E2 {}",
        told.mode, told.mv, told.s, told.e2
    )
}

// Starts a standard block cold and works through the shift.
fn show_shift(rt: &impl Print) -> anyhow::Result<()> {
    println!(rt; "A shift at the loop of a standard block:")?;
    let mut pid = Block::<Pid>::read(&standard_words(), standard_settings())?.cold_start();
    for act in SHIFT {
        show_act(rt, &mut pid, act)?;
    }
    show_told(rt, &pid)?;
    Ok(())
}

fn main(rt: HostRuntime) -> anyhow::Result<()> {
    show_shift(&rt)
}
