// How far a text can be read: the longest of its prefixes that can still become a reading.
ghost use Rattle.std.specs.Prelude.{◌≡◌, length};
ghost use Rattle.meaning.specs.Words.{Word, Words};
ghost use Rattle.meaning.specs.Readings.{viable, farthest as farthest_of};
ghost use Rattle.columns.specs.Columns.{Scanned};
ghost use Rattle.columns.specs.Reaching.{Counted, LastRead, Standing};

use tree::{border, depth};

// The last position up to n that has a reading; position 0 has one. One turn for each position after it.
fn last_read(counts: &[u64], n: usize) -> usize
    requires { Counted counts.now n }
    ensures { LastRead counts.now n result }
{
    for i in (1..=n).rev() {
        if counts[i] != 0 {
            return i;
        }
    }
    0
}

// Whether the first i letters, where the state is s, can still become a reading: whether one of the states on the climb from s has a
// reading before it, for a word may have begun there. One turn a border, at most 64.
fn is_viable(table: &[u16], counts: &[u64], s: usize, i: usize) -> bool
    requires { (X : Words) × (t : Word) × Standing X t table.now counts.now s i }
    ensures { (X : Words) (t : Word) → Standing X t table.now counts.now s i → result ≡ viable X t i }
{
    let mut v = s;
    while counts[i - depth(table, v)] == 0 {
        if v == 0 {
            return false;
        }
        v = border(table, v);
    }
    true
}

// The prefixes of a viable one are viable, so the search goes on from the last reading up to the first position that is not viable. The
// word begun there begins at the last reading or before it and has at most 64 letters: at most 64 turns, and none for an accepted text.
pub fn farthest(table: &[u16], states: &[u16], counts: &[u64], n: usize) -> usize
    requires { (X : Words) × (t : Word) × Scanned X t table.now states.now counts.now × (n ≡ length t) }
    ensures { (X : Words) (t : Word) → Scanned X t table.now states.now counts.now → n ≡ length t
        → result ≡ farthest_of X t }
{
    for i in last_read(counts, n)..n {
        if !is_viable(table, counts, usize::from(states[i + 1]), i + 1) {
            return i;
        }
    }
    n
}
