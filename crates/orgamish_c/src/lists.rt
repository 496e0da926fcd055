// First and next.
ghost use Rattle.std.specs.Prelude.{◌≡◌, [], ◌∷◌};
ghost use Rattle.letters.specs.Letters.{mapped};
ghost use Rattle.judging.specs.Under.{words_under};
ghost use Rattle.orgamish.specs.Calls.{first_tells, first_leaves, next_tells, next_leaves};
ghost use Rattle.orgamish_c.specs.Told.{Passed, filled, listed};

use crate::told::{TOLD, pass};
use orgamish::{first, next};

// A reading of so many words. Of first and of jump.
pub fn written(words: u16) -> [u64; 4]
    ensures { result ≡ 1 ∷ words ∷ 0 ∷ 0 ∷ [] }
{
    [1, u64::from(words), 0, 0]
}

// What next tells: none, or one reading of so many words.
fn listed(words: Option<u16>) -> [u64; 4]
    ensures { result ≡ filled 4 (listed words) }
{
    match words {
        None => [0, 0, 0, 0],
        Some(words) => written(words),
    }
}

#[unsafe(no_mangle)]
pub extern "C" fn orgamish_first(
    map: &[u8],
    dict: &[u8],
    table: &[u16],
    text: &[u8],
    states: &[u16],
    counts: &[u64],
    reading: &mut [u16],
    told: &mut [u64; TOLD],
) -> u16
    ensures { Passed (first_tells (words_under map.now dict.now) table.now (mapped map.now text.now) states.now counts.now reading.old) result told.new
        × (reading.new ≡ first_leaves (words_under map.now dict.now) table.now (mapped map.now text.now) states.now counts.now reading.old) }
{
    let outcome = first(map, dict, table, text, states, counts, reading);
    pass(told, outcome.map(written))
}

#[unsafe(no_mangle)]
pub extern "C" fn orgamish_next(
    map: &[u8],
    dict: &[u8],
    table: &[u16],
    text: &[u8],
    states: &[u16],
    counts: &[u64],
    reading: &mut [u16],
    given: usize,
    told: &mut [u64; TOLD],
) -> u16
    ensures { Passed (next_tells (words_under map.now dict.now) table.now (mapped map.now text.now) states.now counts.now reading.old given) result told.new
        × (reading.new ≡ next_leaves (words_under map.now dict.now) table.now (mapped map.now text.now) states.now counts.now reading.old given) }
{
    let outcome = next(map, dict, table, text, states, counts, reading, given);
    pass(told, outcome.map(listed))
}
