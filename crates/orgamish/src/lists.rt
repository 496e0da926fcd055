// First and next: the readings of a scanned text, one after the other.
ghost use Rattle.std.specs.Prelude.{◌≡◌, length};
ghost use Rattle.meaning.specs.Words.{Word, Words};
ghost use Rattle.letters.specs.Letters.{mapped};
ghost use Rattle.listing.specs.Positions.{Stated};
ghost use Rattle.judging.specs.Under.{words_under};
ghost use Rattle.judging.specs.Order.{is_given};
ghost use Rattle.orgamish.specs.Calls.{first_tells, first_leaves, next_tells, next_leaves};
ghost use Rattle.orgamish.specs.Answers.{first_told, next_told};

use judging::judge_list;
use letters::{Reason, Refusal};
use listing::{first as first_reading, is_reading, next as next_reading};

// The first reading is written to the first entries of a lent buffer.
pub fn first(
    map: &[u8],
    dict: &[u8],
    table: &[u16],
    text: &[u8],
    states: &[u16],
    counts: &[u64],
    reading: &mut [u16],
) -> Result<u16, Refusal>
    ensures { (first_told result ≡ first_tells (words_under map.now dict.now) table.now (mapped map.now text.now) states.now counts.now reading.old)
        × (reading.new ≡ first_leaves (words_under map.now dict.now) table.now (mapped map.now text.now) states.now counts.now reading.old) }
{
    judge_list(map, dict, table, text, states, counts)?;
    let listed = first_reading(table, states, counts, text.len(), reading)?;
    let words = listed.ok_or(Reason::NoReading)?;
    Ok(words as u16)
}

// Whether so many entries are given, and are a reading of the text of m letters.
fn is_given(table: &[u16], states: &[u16], m: usize, reading: &[u16], given: usize) -> bool
    requires { (X : Words) × (t : Word) × Stated X t table.now states.now × (m ≡ length t) }
    ensures { (X : Words) (t : Word) → Stated X t table.now states.now → m ≡ length t → result ≡ is_given X t reading.now given }
{
    if reading.len() < given {
        return false;
    }
    is_reading(table, states, m, reading, given)
}

// The reading after the one that the first entries are, so many as are given.
pub fn next(
    map: &[u8],
    dict: &[u8],
    table: &[u16],
    text: &[u8],
    states: &[u16],
    counts: &[u64],
    reading: &mut [u16],
    given: usize,
) -> Result<Option<u16>, Refusal>
    ensures { (next_told result ≡ next_tells (words_under map.now dict.now) table.now (mapped map.now text.now) states.now counts.now reading.old given)
        × (reading.new ≡ next_leaves (words_under map.now dict.now) table.now (mapped map.now text.now) states.now counts.now reading.old given) }
{
    judge_list(map, dict, table, text, states, counts)?;
    if !is_given(table, states, text.len(), reading, given) {
        return Err(Refusal::from(Reason::NotReading));
    }
    match next_reading(table, states, counts, text.len(), reading, given)? {
        Some(words) => Ok(Some(words as u16)),
        None => Ok(None),
    }
}
