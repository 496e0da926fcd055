// The first reading of a text, and the one after a given reading. Both cost a few times the text's length times r: at the limits
// 4,096 letters, and chains of 64 words.
ghost use mathlib.Core.List.{head?};
ghost use Rattle.std.specs.Prelude.{take};
ghost use Rattle.meaning.specs.Words.{Word, Words};
ghost use Rattle.meaning.specs.Readings.{readings};
ghost use Rattle.meaning.specs.Listing.{next_reading};
ghost use Rattle.listing.specs.Positions.{Whole, Giving};
ghost use Rattle.listing.specs.Answers.{Answers};

use crate::changing::change_of;
use crate::leading::{first_length, write_ending, write_first};
use letters::Reason;
use tree::{depth, word};

// The first reading of the text of m letters: the number of its words, which are written, or none, or the refusal of a short buffer.
pub fn first(
    table: &[u16],
    states: &[u16],
    counts: &[u64],
    m: usize,
    reading: &mut [u16],
) -> Result<Option<usize>, Reason>
    requires { (X : Words) × (t : Word) × Whole X t table.now states.now counts.now m }
    ensures { (X : Words) (t : Word) → Whole X t table.now states.now counts.now m → Answers (head? (readings X t)) reading.old reading.new result }
{
    if counts[m] == 0 {
        return Ok(None);
    }
    let n = first_length(table, states, counts, m);
    if reading.len() < n {
        return Err(Reason::ShortBuffer);
    }
    write_first(table, states, counts, m, reading);
    Ok(Some(n))
}

// The reading after the one that the first k entries are: one word is put in the place of another, before it stands the first
// reading of the letters there, and behind it the words that stay, which are moved before anything is written over them.
pub fn next(
    table: &[u16],
    states: &[u16],
    counts: &[u64],
    m: usize,
    reading: &mut [u16],
    k: usize,
) -> Result<Option<usize>, Reason>
    requires { (X : Words) × (t : Word) × Giving X t table.now states.now counts.now m reading.old k }
    ensures { (X : Words) (t : Word) → Giving X t table.now states.now counts.now m reading.old k → Answers (next_reading X t (take k reading.old)) reading.old reading.new result }
{
    let Some(change) = change_of(table, states, counts, m, reading, k) else {
        return Ok(None);
    };
    let front = change.end - depth(table, change.state);
    let n = first_length(table, states, counts, front) + 1;
    let total = n + (k - change.kept);
    if reading.len() < total {
        return Err(Reason::ShortBuffer);
    }
    reading.copy_within(change.kept..k, n);
    write_ending(
        table,
        states,
        counts,
        front,
        word(table, change.state),
        reading,
    );
    Ok(Some(total))
}
