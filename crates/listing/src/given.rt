// A word sequence given in a buffer.
ghost use Rattle.std.specs.Prelude.{◌≡◌, take};
ghost use Rattle.meaning.specs.Words.{Word, Words};
ghost use Rattle.meaning.specs.Listing.{is_reading};
ghost use Rattle.listing.specs.Positions.{Given};

use crate::ending::word_ending;
use tree::depth;

// Whether the first k entries are a reading of the text of m letters. From the last one back, each has to be a word that ends
// where the one after it begins, and the first has to begin the text. However large k is, at most m + 1 entries are looked at, 4,097
// at the limits, and each is found among at most r words.
pub fn is_reading(table: &[u16], states: &[u16], m: usize, reading: &[u16], k: usize) -> bool
    requires { (X : Words) × (t : Word) × Given X t table.now states.now m reading.now k }
    ensures { (X : Words) (t : Word) → Given X t table.now states.now m reading.now k → result ≡ is_reading X t (take k reading.now) }
{
    let mut i = m;
    for w in reading[..k].iter().rev() {
        let Some(v) = word_ending(table, states, i, usize::from(*w)) else {
            return false;
        };
        i -= depth(table, v);
    }
    i == 0
}
