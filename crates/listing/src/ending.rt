// The words that end at a position of the text, longest first: the chain of the state there.
ghost use Rattle.std.specs.Prelude.{◌≡◌, take};
ghost use Rattle.meaning.specs.Words.{Word, Words};
ghost use Rattle.meaning.specs.Automaton.{states as states_of, nearest, chain};
ghost use Rattle.meaning.specs.Table.{stored};
ghost use Rattle.meaning.specs.Listing.{pick as picked};
ghost use Rattle.listing.specs.Positions.{words_at, sought, StateOf, Walking, Placed, Ending, ScannedAt};

use tree::{NONE, depth, first_word, link, word};

// The state of the longest word that ends at position i, or none. From there the links lead on.
pub fn longest_ending(table: &[u16], states: &[u16], i: usize) -> usize
    requires { (X : Words) × (t : Word) × Placed X t table.now states.now i }
    ensures { (X : Words) (t : Word) → Placed X t table.now states.now i → result ≡ stored (nearest (states_of X) X (take i t)) }
{
    first_word(table, usize::from(states[i]))
}

// Of the words on the chain from v on, which end at position i, the state of the first that has a reading before it.
// Goes along at most r words, 64 at the limits.
pub fn pick(table: &[u16], counts: &[u64], v: usize, i: usize) -> Option<usize>
    requires { (X : Words) × (t : Word) × Ending X t table.now counts.now v i }
    ensures { (X : Words) (t : Word) → Ending X t table.now counts.now v i → StateOf X (picked X t i (words_at X v)) result }
{
    let mut u = v;
    while u != NONE {
        let before = i - depth(table, u);
        if counts[before] != 0 {
            return Some(u);
        }
        u = link(table, u);
    }
    None
}

// The state of the longest word that ends at position i and has a reading before it.
pub fn last_word(table: &[u16], states: &[u16], counts: &[u64], i: usize) -> Option<usize>
    requires { (X : Words) × (t : Word) × ScannedAt X t table.now states.now counts.now i }
    ensures { (X : Words) (t : Word) → ScannedAt X t table.now states.now counts.now i → StateOf X (picked X t i (chain X (take i t))) result }
{
    pick(table, counts, longest_ending(table, states, i), i)
}

// Of the words on the chain from v on, the state of word n; a number that is no word is on no chain. Goes along at most r words, 64
// at the limits.
fn find_word(table: &[u16], v: usize, n: usize) -> Option<usize>
    requires { (X : Words) × Walking X table.now v }
    ensures { (X : Words) → Walking X table.now v → StateOf X (sought n (words_at X v)) result }
{
    let mut u = v;
    while u != NONE {
        if word(table, u) == n {
            return Some(u);
        }
        u = link(table, u);
    }
    None
}

// The state of word n, if it ends at position i.
pub fn word_ending(table: &[u16], states: &[u16], i: usize, n: usize) -> Option<usize>
    requires { (X : Words) × (t : Word) × Placed X t table.now states.now i }
    ensures { (X : Words) (t : Word) → Placed X t table.now states.now i → StateOf X (sought n (chain X (take i t))) result }
{
    find_word(table, longest_ending(table, states, i), n)
}
