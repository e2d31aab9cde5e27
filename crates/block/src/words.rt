// Reading and writing the words of single fields.
ghost use Rattle.std.specs.Prelude.{◌≡◌, slice_index, slice_set};
ghost use Rattle.block.specs.Words.{word_at, real_at, fill, one_word, two_words};

use reals::words::Halves;
use terms::place::Place;

/// The number of words of a block.
pub const LENGTH: usize = 128;

// The word at an offset; one past the end counts as 0.
fn word(words: &[u16], offset: usize) -> u16
    ensures { result ≡ slice_index words.now offset }
{
    words.get(offset).copied().unwrap_or(0)
}

/// The word of a field.
pub fn word_at(words: &[u16], place: Place) -> u16
    ensures { result ≡ word_at words.now place }
{
    word(words, usize::from(place.number()))
}

/// The real of a field, finite or not.
pub fn real_at(words: &[u16], place: Place) -> f32
    ensures { result ≡ real_at words.now place }
{
    let offset = usize::from(place.number());
    f32::from(Halves {
        low: word(words, offset),
        high: word(words, offset + 1),
    })
}

// Fills one word; an offset past the end fills none. By index, since no contract says what `get_mut` leaves in the slice.
#[tactic(auto, using(std::proofs::lemmas::List::set_past))]
fn put(words: &mut [u16], offset: usize, word: u16)
    ensures { words.new ≡ slice_set words.old offset word }
{
    if offset < words.len() {
        words[offset] = word;
    }
}

/// Fills a field of one word.
pub fn put_word(words: &mut [u16], place: Place, word: u16)
    ensures { words.new ≡ fill (one_word place word) words.old }
{
    put(words, usize::from(place.number()), word);
}

/// Fills the two words of a real.
pub fn put_real(words: &mut [u16], place: Place, x: f32)
    ensures { words.new ≡ fill (two_words place x) words.old }
{
    let offset = usize::from(place.number());
    let halves = Halves::from(x);
    put(words, offset, halves.low);
    put(words, offset + 1, halves.high);
}

/// Fills words by a table of offsets and words, in its order; an offset past the end fills none.
pub fn fill_words(words: &mut [u16], table: &[(u16, u16)])
    ensures { words.new ≡ fill table.now words.old }
{
    for (offset, word) in table {
        put(words, usize::from(*offset), *word);
    }
}
