// The reading with a given number.
ghost use Rattle.std.specs.Prelude.{[], ◌+◌, ◌≤◌, length, get_or};
ghost use Rattle.std.proofs.Math.ListN.{get_elem?};
ghost use Rattle.meaning.specs.Words.{Word, Words};
ghost use Rattle.meaning.specs.Readings.{readings_to, readings};
ghost use Rattle.listing.specs.Answers.{Answers};
ghost use Rattle.numbering.specs.Numbers.{Exactly, Numbered, WrittenIf};

use crate::lasts::last_of;
use letters::Reason;
use tree::{depth, word};

// Writes reading n of the first i letters, if there is room for it and for `after` words more, which the caller found behind it. Tells
// the number of words in all. It calls itself at most i times, 4,096 at the limits, and goes along one chain a word: the words are
// found from the last one back, and written when all are known, so that nothing is written where they don't fit.
fn write_numbered(
    table: &[u16],
    states: &[u16],
    counts: &[u64],
    i: usize,
    n: u64,
    after: usize,
    reading: &mut [u16],
) -> usize
    requires { (X : Words) × (t : Word) × Numbered X t table.now states.now counts.now i n × (after + i ≤ length t) }
    ensures { (X : Words) (t : Word) → Numbered X t table.now states.now counts.now i n → WrittenIf (get_or (readings_to X t i) n []) after reading.old reading.new result }
{
    if i == 0 {
        return after;
    }
    let last = last_of(table, states, counts, i, n);
    let front = i - depth(table, last.state);
    let total = write_numbered(
        table,
        states,
        counts,
        front,
        last.number,
        after + 1,
        reading,
    );
    if total <= reading.len() {
        reading[total - after - 1] = word(table, last.state) as u16;
    }
    total
}

// Reading n of the text of m letters.
pub fn jump(
    table: &[u16],
    states: &[u16],
    counts: &[u64],
    m: usize,
    reading: &mut [u16],
    n: u64,
) -> Result<Option<usize>, Reason>
    requires { (X : Words) × (t : Word) × Exactly X t table.now states.now counts.now m }
    ensures { (X : Words) (t : Word) → Exactly X t table.now states.now counts.now m → Answers (get_elem? (readings X t) n) reading.old reading.new result }
{
    if counts[m] <= n {
        return Ok(None);
    }
    let words = write_numbered(table, states, counts, m, n, 0, reading);
    if reading.len() < words {
        return Err(Reason::ShortBuffer);
    }
    Ok(Some(words))
}
