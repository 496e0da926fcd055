// Jump and place.
ghost use Rattle.std.specs.Prelude.{◌≡◌, [], ◌∷◌};
ghost use Rattle.letters.specs.Letters.{mapped};
ghost use Rattle.judging.specs.Under.{words_under};
ghost use Rattle.orgamish.specs.Calls.{jump_tells, jump_leaves, place_tells};
ghost use Rattle.orgamish_c.specs.Told.{Passed};

use crate::lists::written;
use crate::told::{TOLD, pass};
use orgamish::{jump, place};

// A reading's number.
fn number(n: u64) -> [u64; 4]
    ensures { result ≡ n ∷ 0 ∷ 0 ∷ 0 ∷ [] }
{
    [n, 0, 0, 0]
}

#[unsafe(no_mangle)]
pub extern "C" fn orgamish_jump(
    map: &[u8],
    dict: &[u8],
    table: &[u16],
    text: &[u8],
    states: &[u16],
    counts: &[u64],
    reading: &mut [u16],
    n: u64,
    told: &mut [u64; TOLD],
) -> u16
    ensures { Passed (jump_tells (words_under map.now dict.now) table.now (mapped map.now text.now) states.now counts.now reading.old n) result told.new
        × (reading.new ≡ jump_leaves (words_under map.now dict.now) table.now (mapped map.now text.now) states.now counts.now reading.old n) }
{
    let outcome = jump(map, dict, table, text, states, counts, reading, n);
    pass(told, outcome.map(written))
}

#[unsafe(no_mangle)]
pub extern "C" fn orgamish_place(
    map: &[u8],
    dict: &[u8],
    table: &[u16],
    text: &[u8],
    states: &[u16],
    counts: &[u64],
    reading: &[u16],
    given: usize,
    told: &mut [u64; TOLD],
) -> u16
    ensures { Passed (place_tells (words_under map.now dict.now) table.now (mapped map.now text.now) states.now counts.now reading.now given) result told.new }
{
    let outcome = place(map, dict, table, text, states, counts, reading, given);
    pass(told, outcome.map(number))
}
