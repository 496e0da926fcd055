// The scan.
ghost use Rattle.std.specs.Prelude.{◌≡◌, [], ◌∷◌};
ghost use Rattle.letters.specs.Letters.{mapped};
ghost use Rattle.judging.specs.Under.{words_under};
ghost use Rattle.orgamish.specs.Calls.{flag, scan_tells, scan_leaves_states, scan_leaves_counts};
ghost use Rattle.orgamish_c.specs.Told.{Passed};

use crate::told::{TOLD, pass};
use orgamish::{Scanned, scan};

// What the scan tells.
fn findings(scanned: Scanned) -> [u64; 4]
    ensures { result ≡ flag scanned.accepted ∷ scanned.farthest ∷ scanned.count ∷ scanned.probes ∷ [] }
{
    [
        u64::from(scanned.accepted),
        u64::from(scanned.farthest),
        scanned.count,
        u64::from(scanned.probes),
    ]
}

#[unsafe(no_mangle)]
pub extern "C" fn orgamish_scan(
    map: &[u8],
    dict: &[u8],
    table: &[u16],
    text: &[u8],
    states: &mut [u16],
    counts: &mut [u64],
    told: &mut [u64; TOLD],
) -> u16
    ensures { Passed (scan_tells (words_under map.now dict.now) table.now (mapped map.now text.now) states.old counts.old) result told.new
        × (states.new ≡ scan_leaves_states (words_under map.now dict.now) table.now (mapped map.now text.now) states.old counts.old)
        × (counts.new ≡ scan_leaves_counts (words_under map.now dict.now) table.now (mapped map.now text.now) states.old counts.old) }
{
    let scanned = scan(map, dict, table, text, states, counts);
    pass(told, scanned.map(findings))
}
