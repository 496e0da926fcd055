// The entry at a position: the state there, the count, and how many words end there.
ghost use Rattle.std.specs.Prelude.{◌≡◌, suc, ◌+◌, ◌<◌, length};
ghost use Rattle.meaning.specs.Words.{Words};
ghost use Rattle.letters.specs.Letters.{mapped};
ghost use Rattle.columns.specs.Entries.{LetterAt, Ending, Tallied, Reached, IsEntry};

use tree::{ChildIndex, chain_length, depth, first_word, link, step};

// The greatest count. It stands for every number of readings that is not below it.
pub const MOST_COUNTED: u64 = u64::MAX;

fn letter_at(map: &[u8], text: &[u8], i: usize) -> usize
    requires { i < length text.now }
    ensures { LetterAt (mapped map.now text.now) i result }
{
    usize::from(letters::letter(map, text[i]))
}

// The counts before the words that end at a position, added up, and how many words these are.
#[derive(Clone, Copy)]
pub struct Tally {
    pub count: u64,
    pub probes: u32,
}

// The tally at position i, where the state is s. One turn for each word of the chain, at most r. The row of s tells how many they are, so
// that no turn has to wait for a row to know whether it is the last.
fn tally_at(table: &[u16], counts: &[u64], s: usize, i: usize) -> Tally
    requires { (X : Words) × Ending X table.now counts.now s i }
    ensures { (X : Words) → Ending X table.now counts.now s i
        → Tallied X counts.now s i result.count result.probes }
{
    let words = chain_length(table, s);
    let mut count: u64 = 0;
    let mut v = first_word(table, s);
    for _ in 0..words {
        let before = counts[i - depth(table, v)];
        count = count.saturating_add(before);
        v = link(table, v);
    }
    Tally {
        count,
        probes: words as u32,
    }
}

// What the columns have at a position, and how many words end there.
#[derive(Clone, Copy)]
pub struct Entry {
    pub state: usize,
    pub count: u64,
    pub probes: u32,
}

// The entry at position i + 1, from the state s at position i and the counts up to there.
#[inline]
pub fn entry_after(
    map: &[u8],
    table: &[u16],
    index: &ChildIndex,
    text: &[u8],
    counts: &[u64],
    s: usize,
    i: usize,
) -> Entry
    requires { (X : Words) × Reached X (mapped map.now text.now) table.now index.now counts.now s i }
    ensures { (X : Words)
        → Reached X (mapped map.now text.now) table.now index.now counts.now s i
        → IsEntry X (mapped map.now text.now) (suc i) result.state result.count result.probes }
{
    let state = step(table, index, s, letter_at(map, text, i));
    let tally = tally_at(table, counts, state, i + 1);
    Entry {
        state,
        count: tally.count,
        probes: tally.probes,
    }
}
