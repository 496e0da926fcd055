// The last words of the readings of the first i letters. Those that end with a longer word come first in the list, so a word's
// readings stand behind those of the words before it on the chain.
ghost use Rattle.std.specs.Prelude.{◌≡◌, ℕ, ◌-◌};
ghost use Rattle.meaning.specs.Words.{Word, Words, size};
ghost use Rattle.meaning.specs.Readings.{count_at};
ghost use Rattle.listing.specs.Positions.{IsWord, Ending};
ghost use Rattle.numbering.specs.Numbers.{Counted, Numbered, LastOf, AheadOf};

use listing::longest_ending;
use tree::{NONE, depth, link, word};

// A word that ends at a position, by its state, and a number of readings.
#[derive(Clone, Copy)]
pub struct Chosen {
    pub state: usize,
    pub number: u64,
}

// How many readings of the first i letters end with the word at `state`: as many as there are before it.
fn count_before(table: &[u16], counts: &[u64], state: usize, i: usize) -> u64
    requires { (X : Words) × (t : Word) × (n : ℕ) × Ending X t table.now counts.now state i × IsWord X state n }
    ensures { (X : Words) (t : Word) (n : ℕ) → Ending X t table.now counts.now state i → IsWord X state n → result ≡ count_at X t (i - size X n) }
{
    counts[i - depth(table, state)]
}

// The last word of reading n of the first i letters, and the reading's number among those that end so. The chain is gone along once,
// at most r words, 64 at the limits.
pub fn last_of(table: &[u16], states: &[u16], counts: &[u64], i: usize, n: u64) -> Chosen
    requires { (X : Words) × (t : Word) × Numbered X t table.now states.now counts.now i n × (i ≡ 0 → ⊥) }
    ensures { (X : Words) (t : Word) → Numbered X t table.now states.now counts.now i n → (i ≡ 0 → ⊥) → LastOf X t i n result.state result.number }
{
    let mut state = longest_ending(table, states, i);
    let mut number = n;
    // Reading n ends with some word of the chain.
    loop {
        let count = count_before(table, counts, state, i);
        if number < count {
            return Chosen { state, number };
        }
        number -= count;
        state = link(table, state);
    }
}

// The state of word w, if it ends at position i, and how many of the readings of the first i letters end with a longer word.
// The chain is gone along once, at most r words.
pub fn ahead_of(table: &[u16], states: &[u16], counts: &[u64], i: usize, w: usize) -> Option<Chosen>
    requires { (X : Words) × (t : Word) × Counted X t table.now states.now counts.now i }
    ensures { (X : Words) (t : Word) → Counted X t table.now states.now counts.now i → AheadOf X t i w result }
{
    let mut state = longest_ending(table, states, i);
    let mut number = 0;
    while state != NONE {
        if word(table, state) == w {
            return Some(Chosen { state, number });
        }
        number += count_before(table, counts, state, i);
        state = link(table, state);
    }
    None
}
