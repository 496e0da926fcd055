// The first reading of the first letters of the text.
ghost use Rattle.std.specs.Prelude.{◌≡◌, ◌≤◌, length};
ghost use Rattle.meaning.specs.Numbers.{absent};
ghost use Rattle.meaning.specs.Words.{Word, Words, snoc};
ghost use Rattle.meaning.specs.Table.{over};
ghost use Rattle.meaning.specs.Listing.{first_reading};
ghost use Rattle.listing.specs.Positions.{Readable};
ghost use Rattle.listing.specs.Writing.{FirstFits, MoreFits, Written};

use crate::ending::last_word;
use tree::{depth, word};

// The number of words of the first reading of the first i letters. At most i words are taken off, 4,096 at the limits, and each
// is found among at most r.
pub fn first_length(table: &[u16], states: &[u16], counts: &[u64], i: usize) -> usize
    requires { (X : Words) × (t : Word) × Readable X t table.now states.now counts.now i }
    ensures { (X : Words) (t : Word) → Readable X t table.now states.now counts.now i → result ≡ length (first_reading X t i) }
{
    let mut n = 0;
    let mut p = i;
    while let Some(v) = last_word(table, states, counts, p) {
        p -= depth(table, v);
        n += 1;
    }
    n
}

// Writes the first reading of the first i letters: that of the letters before its last word, and then that word. Tells the number
// of words. It calls itself at most i times, 4,096 at the limits, and finds each word among at most r.
pub fn write_first(
    table: &[u16],
    states: &[u16],
    counts: &[u64],
    i: usize,
    reading: &mut [u16],
) -> usize
    requires { (X : Words) × (t : Word) × FirstFits X t table.now states.now counts.now i reading.old }
    ensures { (X : Words) (t : Word) → Readable X t table.now states.now counts.now i → Written (first_reading X t i) reading.old reading.new result }
{
    let Some(v) = last_word(table, states, counts, i) else {
        return 0;
    };
    let n = write_first(table, states, counts, i - depth(table, v), reading);
    reading[n] = word(table, v) as u16;
    n + 1
}

// Writes the first reading of the first i letters, and word w after it.
pub fn write_ending(
    table: &[u16],
    states: &[u16],
    counts: &[u64],
    i: usize,
    w: usize,
    reading: &mut [u16],
)
    requires fits { (X : Words) × (t : Word) × MoreFits X t table.now states.now counts.now i reading.old }
    requires small { w ≤ absent }
    ensures { (X : Words) (t : Word) → Readable X t table.now states.now counts.now i → reading.new ≡ over (snoc (first_reading X t i) w) reading.old }
{
    let n = write_first(table, states, counts, i, reading);
    reading[n] = w as u16;
}
