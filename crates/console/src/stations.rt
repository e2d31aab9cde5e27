// Shows a hand station.
use crate::{start_again, tell};
use block::words::{put_real, put_word};
use hand::kind::Hand;
use loops::reading::Block;
use loops::writing::write_back;
use standard::standard_settings;
use terms::mode::Mode;
use terms::place::Place;

// Shows the block as a hand station with an output of 40, and then in AUT, which a hand station does not carry.
pub(crate) fn show_station(rt: &impl Print, found: &[u16; 128]) -> anyhow::Result<()> {
    println!(rt;
        "\nThe block as a hand station with MV 40: through words of all ones, over itself, and in AUT:"
    )?;
    let key = standard_settings().key;
    let mut words = *found;
    put_real(&mut words, Place::Mv, 40.0);
    let station = Block::<Hand>::read(&words, key)?.warm_start();
    tell(rt, "it is the same station", start_again(station))?;
    tell(
        rt,
        "it is the same block",
        write_back::<Hand>(&mut words, key),
    )?;
    put_word(&mut words, Place::Mode, key.word(Mode::Aut));
    tell(
        rt,
        "it is the same block",
        write_back::<Hand>(&mut words, key),
    )?;
    Ok(())
}
