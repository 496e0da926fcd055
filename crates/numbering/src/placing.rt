// The number of a given reading.
ghost use Rattle.std.specs.Prelude.{◌≡◌, ◌≤◌, length, take};
ghost use Rattle.meaning.specs.Words.{Word, Words, find};
ghost use Rattle.meaning.specs.Readings.{readings};
ghost use Rattle.numbering.specs.Numbers.{Exactly};
ghost use Rattle.numbering.specs.Places.{placed};

use crate::lasts::ahead_of;
use tree::depth;

// The number of the reading that the first k entries are, of the text of m letters, if they are one: from the last word back, the
// readings that end with a longer word come before it. They are found to be a reading on the way, so each chain is gone along once;
// however large k is, at most m + 1 entries are looked at, 4,097 at the limits.
pub fn place(
    table: &[u16],
    states: &[u16],
    counts: &[u64],
    m: usize,
    reading: &[u16],
    k: usize,
) -> Option<u64>
    requires { (X : Words) × (t : Word) × Exactly X t table.now states.now counts.now m × (k ≤ length reading.now) }
    ensures { (X : Words) (t : Word) → Exactly X t table.now states.now counts.now m → result ≡ placed (find (readings X t) (take k reading.now)) }
{
    let mut n = 0;
    let mut i = m;
    for w in reading[..k].iter().rev() {
        let last = ahead_of(table, states, counts, i, usize::from(*w))?;
        n += last.number;
        i -= depth(table, last.state);
    }
    if i == 0 { Some(n) } else { None }
}
