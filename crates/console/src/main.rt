// Shows one PID block and one hand station from their words to a loop and back, and what reading refuses.
#![tactic(auto)]

mod fields;
mod stations;

use block::words::put_real;
use fields::Change;
use loops::kind::Kind;
use loops::reading::Block;
use loops::running::Loop;
use loops::writing::write_back;
use pid::kind::Pid;
use standard::{standard_settings, standard_words};
use stations::show_station;
use std::io;
use terms::place::Place;
use terms::refusal::Refusal;

// Prints what a call answered: what was done, or the refusal.
pub(crate) fn tell(rt: &impl Print, done: &str, answer: Result<(), Refusal>) -> io::Result<()> {
    match answer {
        Ok(()) => println!(rt; "ok, {done}"),
        Err(refusal) => println!(rt; "{refusal}"),
    }
}

// Reads the words, starts them cold and writes them back.
fn start_cold(words: &mut [u16]) -> Result<(), Refusal> {
    Block::<Pid>::read(words, standard_settings())?
        .cold_start()
        .write(words)
}

fn show_cold_start(rt: &impl Print, found: &[u16; 128]) -> io::Result<()> {
    println!(rt; "A standard PID block, read, started cold and written back:")?;
    let mut words = *found;
    let answer = start_cold(&mut words);
    tell(rt, "the fields before and after:", answer)?;
    let change = Change {
        before: found,
        after: &words,
    };
    change.show_fields(rt)
}

// Starts the block warm and writes it over itself: the same block, with DV made a copy of the last deviation.
fn show_same_block(rt: &impl Print, found: &[u16; 128]) -> io::Result<()> {
    println!(rt;
        "\nThe block with a last deviation of 2.5, started warm and written over itself:"
    )?;
    let mut before = *found;
    put_real(&mut before, Place::LastDv, 2.5);
    let mut words = before;
    let answer = write_back::<Pid>(&mut words, standard_settings());
    tell(rt, "the words that changed:", answer)?;
    let change = Change {
        before: &before,
        after: &words,
    };
    change.show_words(rt)
}

// Writes a loop into words of all ones, reads them with its own settings and starts them warm.
pub(crate) fn start_again<K: Kind>(mut started: Loop<K>) -> Result<(), Refusal> {
    started.restart(&mut [0xffff; 128])
}

fn show_same_loop(rt: &impl Print, found: &[u16]) -> anyhow::Result<()> {
    println!(rt; "\nA loop written into words of all ones, and started warm from them:")?;
    let pid = Block::<Pid>::read(found, standard_settings())?.cold_start();
    tell(rt, "it is the same loop", start_again(pid))?;
    Ok(())
}

fn show_refusals(rt: &impl Print, found: &[u16; 128]) -> io::Result<()> {
    println!(rt; "\nA copy with CT 32768, and 127 words of it:")?;
    let mut words = *found;
    put_real(&mut words, Place::Ct, 32768.0);
    tell(rt, "started", start_cold(&mut words))?;
    tell(rt, "started", start_cold(&mut words[0..127]))
}

fn run(rt: &impl Print) -> anyhow::Result<()> {
    let found = standard_words();
    show_cold_start(rt, &found)?;
    show_same_block(rt, &found)?;
    show_same_loop(rt, &found)?;
    show_refusals(rt, &found)?;
    show_station(rt, &found)
}

fn main(rt: HostRuntime) -> anyhow::Result<()> {
    run(&rt)
}
