// Prints the fields of a PID block, and the words that changed.
use block::bits::{is_stopped, is_tracking};
use block::words::{real_at, word_at};
use standard::standard_settings;
use std::{fmt, io};
use terms::place::Place;

// How a field stands in the words: in one word, or as a real in two words, low half first.
#[derive(Clone, Copy, Debug)]
enum Field {
    Word(Place),
    Real(Place),
}

// The fields, each by its name.
const FIELDS: [(&str, Field); 24] = [
    ("MODE", Field::Word(Place::Mode)),
    ("ALM", Field::Word(Place::Alm)),
    ("INH", Field::Word(Place::Inh)),
    ("MV", Field::Real(Place::Mv)),
    ("SV", Field::Real(Place::Sv)),
    ("DV", Field::Real(Place::Dv)),
    ("MH", Field::Real(Place::Mh)),
    ("ML", Field::Real(Place::Ml)),
    ("RH", Field::Real(Place::Rh)),
    ("RL", Field::Real(Place::Rl)),
    ("CT", Field::Real(Place::Ct)),
    ("DML", Field::Real(Place::Dml)),
    ("P", Field::Real(Place::P)),
    ("TI", Field::Real(Place::Ti)),
    ("TD", Field::Real(Place::Td)),
    ("GW", Field::Real(Place::Gw)),
    ("GG", Field::Real(Place::Gg)),
    ("MVP", Field::Real(Place::Mvp)),
    ("counter", Field::Word(Place::Counter)),
    ("B", Field::Real(Place::B)),
    ("measured", Field::Real(Place::Measured)),
    ("measured -1", Field::Real(Place::Measured1)),
    ("measured -2", Field::Real(Place::Measured2)),
    ("last DV", Field::Real(Place::LastDv)),
];

// A word of a field, displayed as what it says.
#[derive(Clone, Copy, Debug)]
struct Meaning {
    place: Place,
    word: u16,
}

impl fmt::Display for Meaning {
    fn fmt<W: fmt::Write>(&self, f: &mut fmt::Formatter<W>) -> fmt::Result {
        match self.place {
            Place::Mode => match standard_settings().key.mode(self.word) {
                Some(mode) => write!(f, "{mode}"),
                None => write!(f, "no mode"),
            },
            Place::Alm if is_stopped(self.word) => write!(f, "stopped"),
            Place::Inh if is_tracking(self.word) => write!(f, "TRKF set"),
            _ => Ok(()),
        }
    }
}

// The two words of a real, low half first.
fn halves(words: &[u16], place: Place) -> (u16, u16) {
    let offset = usize::from(place.number());
    match words.get(offset..offset + 2) {
        Some([low, high]) => (*low, *high),
        _ => (0, 0),
    }
}

// The words of a block before a call and after it.
#[derive(Clone, Copy, Debug)]
pub(crate) struct Change<'a> {
    pub before: &'a [u16],
    pub after: &'a [u16],
}

impl Change<'_> {
    fn show_word(self, rt: &impl Print, name: &str, place: Place) -> io::Result<()> {
        let offset = place.number();
        let old = word_at(self.before, place);
        let word = word_at(self.after, place);
        let says = Meaning { place, word };
        println!(rt; "{offset:>6}  {name:<11}  {old:04X}       {word:04X}       {says}")
    }

    fn show_real(self, rt: &impl Print, name: &str, place: Place) -> io::Result<()> {
        let offset = place.number();
        let (old_low, old_high) = halves(self.before, place);
        let (low, high) = halves(self.after, place);
        let x = real_at(self.after, place);
        println!(rt;
            "{offset:>6}  {name:<11}  {old_low:04X} {old_high:04X}  {low:04X} {high:04X}  {x}"
        )
    }

    // Prints each field by offset and name, with its words before and after and what they say after.
    pub(crate) fn show_fields(self, rt: &impl Print) -> io::Result<()> {
        println!(rt; "offset  field        before     after      says")?;
        for (name, field) in &FIELDS {
            match field {
                Field::Word(place) => self.show_word(rt, name, *place)?,
                Field::Real(place) => self.show_real(rt, name, *place)?,
            }
        }
        Ok(())
    }

    // Prints each word that changed, by its offset.
    pub(crate) fn show_words(self, rt: &impl Print) -> io::Result<()> {
        for (offset, (old, new)) in self.before.iter().zip(self.after).enumerate() {
            if old != new {
                println!(rt; "{offset:>6}  {old:04X} -> {new:04X}")?;
            }
        }
        Ok(())
    }
}
