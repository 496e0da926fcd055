// The chain of a state: the words that end there, longest first, from link to link; and how many they are.
ghost use Rattle.std.specs.Prelude.{◌≡◌, length};
ghost use Rattle.meaning.specs.Words.{Words, word as word_of};
ghost use Rattle.meaning.specs.Automaton.{nearest, chain, longest_of};
ghost use Rattle.meaning.specs.Table.{stored};
ghost use Rattle.tree.specs.Tree.{Whole};
ghost use Rattle.tree.specs.Filling.{LinkedAt, CountedAt};

use crate::layout::{NONE, chain_length, link, word};

// The state of the longest word that ends at s, or none. From there the links lead on.
pub fn first_word(table: &[u16], s: usize) -> usize
    requires { (X S : Words) × LinkedAt X S table.now s }
    ensures { (X S : Words) → LinkedAt X S table.now s → result ≡ stored (nearest S X (word_of S s)) }
{
    if word(table, s) != NONE {
        return s;
    }
    link(table, s)
}

// How many words end at c, whose border is b: those that end there, and c itself where it is a word.
pub fn count_chain(table: &[u16], c: usize, b: usize) -> usize
    requires { (X S : Words) × CountedAt X S table.now c b }
    ensures { (X S : Words) → CountedAt X S table.now c b → result ≡ length (chain X (word_of S c)) }
{
    let shorter = chain_length(table, b);
    if word(table, c) == NONE {
        return shorter;
    }
    shorter + 1
}

// The greatest number of words that end at one of the n states.
pub fn longest_chain(table: &[u16], n: usize) -> usize
    requires { (X S : Words) × Whole X S table.now × (n ≡ length S) }
    ensures { (X S : Words) → Whole X S table.now → n ≡ length S → result ≡ longest_of X S }
{
    let mut longest = 0;
    for s in 0..n {
        longest = longest.max(chain_length(table, s));
    }
    longest
}
