// Tables.
ghost use Rattle.std.specs.Prelude.{◌≡◌, [], ◌∷◌};
ghost use Rattle.judging.specs.Under.{words_under};
ghost use Rattle.orgamish.specs.Calls.{build_tells, build_leaves, widen_tells, widen_leaves, narrow_tells, narrow_leaves};
ghost use Rattle.orgamish_c.specs.Told.{Passed};

use crate::told::{TOLD, pass};
use orgamish::{Built, build, narrow as narrow_table, widen};

// What build, widen and narrow tell.
fn measures(built: Built) -> [u64; 4]
    ensures { result ≡ built.words ∷ built.states ∷ built.longest ∷ 0 ∷ [] }
{
    [
        u64::from(built.words),
        u64::from(built.states),
        u64::from(built.longest),
        0,
    ]
}

#[unsafe(no_mangle)]
pub extern "C" fn orgamish_build(
    map: &[u8],
    dict: &[u8],
    table: &mut [u16],
    told: &mut [u64; TOLD],
) -> u16
    ensures { Passed (build_tells (words_under map.now dict.now) table.old) result told.new
        × (table.new ≡ build_leaves (words_under map.now dict.now) table.old) }
{
    pass(told, build(map, dict, table).map(measures))
}

#[unsafe(no_mangle)]
pub extern "C" fn orgamish_widen(
    map: &[u8],
    dict: &[u8],
    narrow: &[u16],
    table: &mut [u16],
    told: &mut [u64; TOLD],
) -> u16
    ensures { Passed (widen_tells (words_under map.now dict.now) table.old narrow.now) result told.new
        × (table.new ≡ widen_leaves (words_under map.now dict.now) table.old narrow.now) }
{
    pass(told, widen(map, dict, narrow, table).map(measures))
}

#[unsafe(no_mangle)]
pub extern "C" fn orgamish_narrow(
    map: &[u8],
    dict: &[u8],
    table: &[u16],
    narrow: &mut [u16],
    told: &mut [u64; TOLD],
) -> u16
    ensures { Passed (narrow_tells (words_under map.now dict.now) table.now narrow.old) result told.new
        × (narrow.new ≡ narrow_leaves (words_under map.now dict.now) table.now narrow.old) }
{
    pass(told, narrow_table(map, dict, table, narrow).map(measures))
}
