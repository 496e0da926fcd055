// The change that makes the next reading.
ghost use Rattle.std.specs.Prelude.{take};
ghost use Rattle.meaning.specs.Words.{Word, Words};
ghost use Rattle.meaning.specs.Listing.{next_reading};
ghost use Rattle.listing.specs.Positions.{Giving};
ghost use Rattle.listing.specs.Changes.{Changes};

use crate::ending::{pick, word_ending};
use tree::{depth, link};

// The word at `state` is put in the place of one that also ends at position `end`; the words from entry `kept` on stay.
#[derive(Clone, Copy)]
pub struct Change {
    pub state: usize,
    pub end: usize,
    pub kept: usize,
}

// Of the words that can be exchanged for a shorter one with a reading before it, the leftmost. They are read from the last one
// back, so the last change stored is the leftmost. At most m words, 4,096 at the limits, each with two walks along at most r.
pub fn change_of(
    table: &[u16],
    states: &[u16],
    counts: &[u64],
    m: usize,
    reading: &[u16],
    k: usize,
) -> Option<Change>
    requires { (X : Words) × (t : Word) × Giving X t table.now states.now counts.now m reading.now k }
    ensures { (X : Words) (t : Word) → Giving X t table.now states.now counts.now m reading.now k → Changes X t (take k reading.now) result (next_reading X t (take k reading.now)) }
{
    let mut change = None;
    let mut i = m;
    for j in (0..k).rev() {
        let v = word_ending(table, states, i, usize::from(reading[j])).unwrap();
        if let Some(state) = pick(table, counts, link(table, v), i) {
            change = Some(Change {
                state,
                end: i,
                kept: j + 1,
            });
        }
        i -= depth(table, v);
    }
    change
}
