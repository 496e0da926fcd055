// Jump and place: a reading by its number in the list that first and next go through, from 0, and the number of a reading.
ghost use Rattle.std.specs.Prelude.{◌≡◌};
ghost use Rattle.letters.specs.Letters.{mapped};
ghost use Rattle.judging.specs.Under.{words_under};
ghost use Rattle.orgamish.specs.Calls.{jump_tells, jump_leaves, place_tells};
ghost use Rattle.orgamish.specs.Answers.{first_told, place_told};

use judging::judge_count;
use letters::{Reason, Refusal};
use numbering::{jump as numbered_reading, place as number_of};

// Reading n is written to the first entries of a lent buffer.
pub fn jump(
    map: &[u8],
    dict: &[u8],
    table: &[u16],
    text: &[u8],
    states: &[u16],
    counts: &[u64],
    reading: &mut [u16],
    n: u64,
) -> Result<u16, Refusal>
    ensures { (first_told result ≡ jump_tells (words_under map.now dict.now) table.now (mapped map.now text.now) states.now counts.now reading.old n)
        × (reading.new ≡ jump_leaves (words_under map.now dict.now) table.now (mapped map.now text.now) states.now counts.now reading.old n) }
{
    judge_count(map, dict, table, text, states, counts)?;
    let listed = numbered_reading(table, states, counts, text.len(), reading, n)?;
    let words = listed.ok_or(Reason::NoNumber)?;
    Ok(words as u16)
}

// The number of the reading that the first entries are, so many as are given.
pub fn place(
    map: &[u8],
    dict: &[u8],
    table: &[u16],
    text: &[u8],
    states: &[u16],
    counts: &[u64],
    reading: &[u16],
    given: usize,
) -> Result<u64, Refusal>
    ensures { place_told result ≡ place_tells (words_under map.now dict.now) table.now (mapped map.now text.now) states.now counts.now reading.now given }
{
    judge_count(map, dict, table, text, states, counts)?;
    if reading.len() < given {
        return Err(Refusal::from(Reason::NotReading));
    }
    let n = number_of(table, states, counts, text.len(), reading, given).ok_or(Reason::NotReading)?;
    Ok(n)
}
